// Verdicts are told as 1 for yes and -1 for no.
ghost use Rattle.std.specs.Prelude.{ℤ, Some};

use crate::cells::in_range;
use crate::plain::Plain;
use scales::{Scale, Verdict, VerdictMargin};

impl<S: Scale + Copy> Plain for Verdict<S> {
    type Told = i32;

    ghost told = { λ (z : ℤ). Some z };

    ghost most = { 2147483647 };

    // As of counts, so that a search has nothing to clip.
    fn most() -> u32 {
        i32::MAX as u32
    }

    fn whole(&self, margin: VerdictMargin) -> i32 {
        match margin {
            VerdictMargin::Yes => 1,
            VerdictMargin::No => -1,
        }
    }

    fn tell(cell: i32) -> i32 {
        in_range(cell, i32::MAX as u32)
    }
}
