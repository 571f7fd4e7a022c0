// The ground of a refusal, as every layer's table gives it.
ghost use Rattle.std.specs.Prelude.{Some};
ghost use Rattle.faults.specs.Texts.{ground_text};

use crate::layers::Layer;
use crate::places::Place;
use std::fmt;

// Why a call is refused: the ground's number, the layer that refuses, and the place at fault. The number stays one, since
// manuals and panels name a ground by it; the cases of each layer's fault say the ground by its content.
#[derive(Clone, Copy, PartialEq, Eq, Debug)]
pub struct Ground {
    pub number: u8,
    pub layer: Layer,
    pub place: Place,
}

impl fmt::Display for Ground {
    ghost output = { λ g. Some (ground_text g) };

    fn fmt<W: fmt::Write>(&self, f: &mut fmt::Formatter<W>) -> fmt::Result {
        let number = self.number;
        let layer = self.layer;
        let place = self.place;
        write!(f, "refused by {number}, {layer}, at {place}")
    }
}
