// How the panel's margins are reached and compared.
ghost use Rattle.std.specs.Prelude.{◌≡◌};
ghost use Rattle.scales.specs.Panel.{panel};

use crate::bounded::clip;
use crate::limit::Test;
use crate::panel::{Panel, PanelMargin};
use crate::scale::Scale;

impl<S: Scale> Scale for Panel<S> {
    type Reading = S::Reading;

    type Margin = PanelMargin;

    ghost model = { λ p. panel (S.Scale.model p.lower) };

    fn test(&self, reading: S::Reading, test: Test) -> Option<PanelMargin> {
        let margin = self.lower.test(reading, test)?;
        let value = self.lower.clip(margin, PanelMargin::MOST);
        Some(PanelMargin { value })
    }

    // A scale answers for its own margins, so these are as those of counts, and rest on what `Bounded` shares.
    fn complement(&self, margin: PanelMargin) -> PanelMargin {
        -margin
    }

    fn exceeds(&self, a: PanelMargin, b: PanelMargin) -> bool {
        b < a
    }

    fn holds(&self, margin: PanelMargin) -> bool {
        0 <= margin.value
    }

    fn clip(&self, margin: PanelMargin, most: u8) -> i32 {
        clip(margin.value, most)
    }

    fn reach(&self, apart: u32) -> u32 {
        self.lower.reach(apart).min(2 * PanelMargin::MOST as u32)
    }
}
