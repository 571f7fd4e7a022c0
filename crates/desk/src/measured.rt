// The scales whose margins a report tells in a unit.
ghost use Rattle.std.specs.Prelude.{◌≡◌, pos};
ghost use Rattle.desk.specs.declared.amount.Unit.{Unit};
ghost use Rattle.desk.specs.declared.amount.Unit.TheVariants.{Count, PercentPerMetre};

use crate::amount::Unit;
use scales::{CountMargin, Counts, Limit, Obscuration, ObscurationMargin, Scale, Sense, Test};
use std::num::saturating_f32_to_i32;

// A scale whose margins are told in a unit.
pub trait Measured: Scale {
    // The unit of its margins.
    ghost told_in: { Unit };

    // That unit.
    fn unit(&self) -> Unit
        ensures { result ≡ told_in };

    // How many steps a margin is.
    fn steps(&self, margin: Self::Margin) -> i32
        ensures { result ≡ (Self.model self.now).whole margin };

    // The margin of nought.
    fn nought(&self) -> Self::Margin
        ensures { (Self.model self.now).whole result ≡ pos 0 };
}

fn nought_test() -> Test
    ensures { result.limit.value ≡ pos 0 }
{
    Test {
        sense: Sense::AtLeast,
        limit: Limit::new(0).unwrap(),
    }
}

impl Measured for Counts {
    ghost told_in = { Count };

    fn unit(&self) -> Unit {
        Unit::Count
    }

    fn steps(&self, margin: CountMargin) -> i32 {
        margin.value()
    }

    fn nought(&self) -> CountMargin {
        self.test(0, nought_test()).unwrap()
    }
}

// How many steps make one percent per metre.
const STEPS: f32 = 256.0;

impl Measured for Obscuration {
    ghost told_in = { PercentPerMetre };

    fn unit(&self) -> Unit {
        Unit::PercentPerMetre
    }

    #[tactic(auto, using(scales::proofs::GridValues::times_256))]
    fn steps(&self, margin: ObscurationMargin) -> i32 {
        saturating_f32_to_i32(margin.value() * STEPS)
    }

    #[tactic(auto, unfolding(scales::specs::Grid::on_grid, scales::specs::Grid::grid_whole))]
    fn nought(&self) -> ObscurationMargin {
        self.test(0.0, nought_test()).unwrap()
    }
}
