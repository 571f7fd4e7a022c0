// Margins in counts are told as they are.
ghost use Rattle.std.specs.Prelude.{ℤ, Some};

use crate::cells::in_range;
use crate::plain::Plain;
use scales::{CountMargin, Counts};

impl Plain for Counts {
    type Told = i32;

    ghost told = { λ (z : ℤ). Some z };

    ghost most = { 2147483647 };

    // Any number of 32 bits but the lowest, so that a search has nothing to clip.
    fn most() -> u32 {
        i32::MAX as u32
    }

    fn whole(&self, margin: CountMargin) -> i32 {
        margin.value()
    }

    fn tell(cell: i32) -> i32 {
        in_range(cell, i32::MAX as u32)
    }
}
