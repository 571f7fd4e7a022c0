// How verdicts are reached and compared.
ghost use Rattle.std.specs.Prelude.{◌≡◌};
ghost use Rattle.scales.specs.Verdict.{verdict};

use crate::limit::Test;
use crate::scale::Scale;
use crate::verdict::{Verdict, VerdictMargin};

impl<S: Scale> Scale for Verdict<S> {
    type Reading = S::Reading;

    type Margin = VerdictMargin;

    ghost model = { λ v. verdict (S.Scale.model v.lower) };

    fn test(&self, reading: S::Reading, test: Test) -> Option<VerdictMargin> {
        let margin = self.lower.test(reading, test)?;
        Some(if self.lower.holds(margin) {
            VerdictMargin::Yes
        } else {
            VerdictMargin::No
        })
    }

    fn complement(&self, margin: VerdictMargin) -> VerdictMargin {
        match margin {
            VerdictMargin::Yes => VerdictMargin::No,
            VerdictMargin::No => VerdictMargin::Yes,
        }
    }

    fn exceeds(&self, a: VerdictMargin, b: VerdictMargin) -> bool {
        self.holds(a) && !self.holds(b)
    }

    fn holds(&self, margin: VerdictMargin) -> bool {
        match margin {
            VerdictMargin::Yes => true,
            VerdictMargin::No => false,
        }
    }

    fn clip(&self, margin: VerdictMargin, most: u8) -> i32 {
        let most = most.min(1) as i32;
        if self.holds(margin) { most } else { -most }
    }

    fn reach(&self, apart: u32) -> u32 {
        if apart == 0 { 0 } else { 2 }
    }
}
