// What every scale does.
ghost use Rattle.std.specs.Prelude.{◌≡◌, min, pos, neg_ℤ, int_le, int_lt};
ghost use Rattle.std.specs.Option.{option_map};
ghost use Rattle.scales.specs.Model.{ScaleModel};
ghost use Rattle.scales.specs.Order.{clipped};
ghost use Rattle.scales.specs.Tests.{tested};

use crate::limit::Test;

// A scale. A reading is unlawful or stands for a whole number, its steps; a margin stands for a whole number. The
// model says which, and everything above speaks of the model, so that any type with this meaning is a scale.
pub trait Scale {
    type Reading: Copy;

    type Margin: Copy;

    ghost model: { Self → ScaleModel Self.Reading Self.Margin };

    // The margin of a reading in a test; none exactly where the reading is unlawful.
    fn test(&self, reading: Self::Reading, test: Test) -> Option<Self::Margin>
        ensures { option_map (model self.now).whole result ≡ tested (model self.now) reading test };

    // The complement of a margin: the one of the negated whole number.
    fn complement(&self, margin: Self::Margin) -> Self::Margin
        ensures { (model self.now).whole result ≡ neg_ℤ ((model self.now).whole margin) };

    // Whether the margin a is above the margin b.
    fn exceeds(&self, a: Self::Margin, b: Self::Margin) -> bool
        ensures { result ≡ int_lt ((model self.now).whole b) ((model self.now).whole a) };

    // Whether a margin holds: it is 0 or more.
    fn holds(&self, margin: Self::Margin) -> bool
        ensures { result ≡ int_le (pos 0) ((model self.now).whole margin) };

    // The whole number of a margin, clipped to -most to most: what a panel shows of it.
    fn clip(&self, margin: Self::Margin, most: u8) -> i32
        ensures { result ≡ clipped most ((model self.now).whole margin) };

    // How far two margins can lie apart whose differences in steps lie at most so far apart; at most 4,294,967,295 is told.
    fn reach(&self, apart: u32) -> u32
        ensures { result ≡ min ((model self.now).reach apart) 4294967295 };
}
