// Scales whose margins C can read: as whole numbers, or as floats of percent per metre.
ghost use Rattle.std.specs.Prelude.{◌≡◌, ◌^◌, ◌<◌, ◌≤◌, ℕ, ℤ, Some, Option, unsigned_abs};
ghost use Rattle.firmware.specs.Cells.{cell_whole};

use scales::Scale;

mod counts;
mod obscuration;
mod verdict;

// A scale whose margins C is told as numbers, none of a larger size than `most`.
pub(crate) trait Plain: Scale + Copy {
    // How a margin is told to C.
    type Told: Copy;

    // The whole number that is told exactly; none where what is told is no such number.
    ghost told: { Self.Told → Option ℤ };

    // The largest size of a whole number that a cell stands for on the scale.
    ghost most: { ℕ };

    // The same, for the code.
    fn most() -> u32
        ensures is { result ≡ most }
        ensures small { result < 2 ^ 31 };

    // The whole number of a margin.
    fn whole(&self, margin: Self::Margin) -> i32
        ensures value { result ≡ (Self.Scale.model self.now).whole margin }
        ensures near { unsigned_abs result ≤ most };

    // The margin that a cell stands for, as C is told it.
    fn tell(cell: i32) -> Self::Told
        ensures { told result ≡ Some (cell_whole most cell) };
}
