// What the faults of all layers have in common.
ghost use Rattle.std.specs.Prelude.{◌≡◌};
ghost use Rattle.faults.specs.declared.grounds.Ground.{Ground};

use crate::grounds::Ground;
use crate::layers::Layer;
use crate::places::Place;

// A fault of any layer. Its cause is its ground: each layer gives it by one definition, in which
// each case has its number, layer and place.
pub trait Fault {
    ghost cause: { Self → Ground };

    // The ground by which the call is refused.
    fn ground(&self) -> Ground
        ensures { result ≡ cause self.now };

    // The ground's number.
    fn number(&self) -> u8
        ensures { result ≡ (cause self.now).number }
    {
        self.ground().number
    }

    // The layer that refuses.
    fn layer(&self) -> Layer
        ensures { result ≡ (cause self.now).layer }
    {
        self.ground().layer
    }

    // The place at fault.
    fn place(&self) -> Place
        ensures { result ≡ (cause self.now).place }
    {
        self.ground().place
    }
}
