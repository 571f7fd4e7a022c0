// A scale over another one, whose margins are the plain numbers that C lends as cells.
ghost use Rattle.std.specs.Prelude.{◌≡◌};
ghost use Rattle.firmware.specs.Cells.{in_cells};

use crate::cells::{clip, in_range};
use crate::plain::Plain;
use scales::{Scale, Test};

// The lower scale, with cells in the place of its margins.
#[derive(Clone, Copy)]
pub(crate) struct CellScale<S> {
    pub(crate) lower: S,
}

impl<S: Plain> Scale for CellScale<S> {
    type Reading = S::Reading;

    type Margin = i32;

    ghost model = { λ s. in_cells S.Plain.most (S.Scale.model s.lower) };

    fn test(&self, reading: S::Reading, test: Test) -> Option<i32> {
        let margin = self.lower.test(reading, test)?;
        Some(self.lower.whole(margin))
    }

    fn complement(&self, margin: i32) -> i32 {
        -in_range(margin, S::most())
    }

    // What b stands for is never below the range, so of a only the upper end matters.
    fn exceeds(&self, a: i32, b: i32) -> bool {
        in_range(b, S::most()) < a.min(S::most() as i32)
    }

    fn holds(&self, margin: i32) -> bool {
        0 <= in_range(margin, S::most())
    }

    fn clip(&self, margin: i32, most: u8) -> i32 {
        clip(in_range(margin, S::most()), most as u32)
    }

    fn reach(&self, apart: u32) -> u32 {
        self.lower.reach(apart)
    }
}
