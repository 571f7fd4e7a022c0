// The scale that a panel shows, one digit and its sign, over another scale.
ghost use Rattle.std.specs.Prelude.{◌≡◌};

use crate::bounded::Bounded;

mod scaling;

// What a panel shows of a lower scale, whose steps it keeps: the mark clipped to -9 to 9. It holds what `Verdict` holds, but
// the type says which scale it is.
#[derive(Clone, Copy)]
pub struct Panel<S> {
    lower: S,
}

impl<S> Panel<S> {
    // The panel scale over a scale.
    pub fn over(lower: S) -> Panel<S>
        ensures { result.lower ≡ lower }
    {
        Panel { lower }
    }
}

// A margin as the panel shows it: a digit with its sign.
pub type PanelMargin = Bounded<9>;

impl PanelMargin {
    // The highest margin that a panel shows.
    pub const MOST: u8 = 9;
}
