// How counts are tested and compared.
ghost use Rattle.std.specs.Prelude.{◌≡◌};
ghost use Rattle.scales.specs.Counts.{counts};

use crate::bounded::clip;
use crate::counts::{CountMargin, Counts};
use crate::limit::{Sense, Test};
use crate::scale::Scale;

impl Scale for Counts {
    type Reading = i32;

    type Margin = CountMargin;

    ghost model = { λ _. counts };

    fn test(&self, reading: i32, test: Test) -> Option<CountMargin> {
        if reading < 0 || Counts::MOST < reading {
            return None;
        }
        let limit = test.limit.value();
        let value = match test.sense {
            Sense::AtLeast => reading - limit,
            Sense::AtMost => limit - reading,
        };
        Some(CountMargin { value })
    }

    fn complement(&self, margin: CountMargin) -> CountMargin {
        -margin
    }

    fn exceeds(&self, a: CountMargin, b: CountMargin) -> bool {
        b < a
    }

    fn holds(&self, margin: CountMargin) -> bool {
        0 <= margin.value
    }

    fn clip(&self, margin: CountMargin, most: u8) -> i32 {
        clip(margin.value, most)
    }

    fn reach(&self, apart: u32) -> u32 {
        apart
    }
}
