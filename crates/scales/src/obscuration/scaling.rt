// How obscuration is tested and compared.
ghost use Rattle.std.specs.Prelude.{◌≡◌};
ghost use Rattle.scales.specs.Obscuration.{obscuration};

use crate::bounded::clip;
use crate::limit::{Sense, Test};
use crate::obscuration::grid::{Lawful, OnGrid};
use crate::obscuration::{Obscuration, ObscurationMargin};
use crate::scale::Scale;

impl Scale for Obscuration {
    type Reading = f32;

    type Margin = ObscurationMargin;

    ghost model = { λ _. obscuration };

    fn test(&self, reading: f32, test: Test) -> Option<ObscurationMargin> {
        let reading = Lawful::of(reading)?;
        let limit = Lawful::from_steps(test.limit.value());
        Some(match test.sense {
            Sense::AtLeast => reading.minus(limit),
            Sense::AtMost => limit.minus(reading),
        })
    }

    fn complement(&self, margin: ObscurationMargin) -> ObscurationMargin {
        -margin
    }

    fn exceeds(&self, a: ObscurationMargin, b: ObscurationMargin) -> bool {
        b.is_below(a)
    }

    fn holds(&self, margin: ObscurationMargin) -> bool {
        !margin.is_below(OnGrid::nought())
    }

    fn clip(&self, margin: ObscurationMargin, most: u8) -> i32 {
        clip(margin.steps(), most)
    }

    fn reach(&self, apart: u32) -> u32 {
        apart
    }
}
