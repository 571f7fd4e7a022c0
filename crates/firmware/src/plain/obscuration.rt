// Margins of obscuration are whole numbers of 1/256 percent per metre in cells, and are told as floats of percent per metre.
ghost use Rattle.std.specs.Prelude.{◌≡◌, ◌≤◌, Some, unsigned_abs};
ghost use Rattle.scales.specs.Grid.{grid_steps};
ghost use Rattle.firmware.specs.Cells.{most_steps};

use crate::cells::in_range;
use crate::plain::Plain;
use scales::{Obscuration, ObscurationMargin};
use std::num::saturating_f32_to_i32;

// How many steps make one percent per metre.
const STEPS: f32 = 256.0;

// The largest size of a margin, in steps.
const MOST_STEPS: u32 = 2_097_152;

// So many steps in percent per metre.
#[tactic(auto, using(crate::proofs::Floats::float_is))]
fn to_float(steps: i32) -> f32
    requires { unsigned_abs steps ≤ most_steps }
    ensures { grid_steps most_steps result ≡ Some steps }
{
    steps as f32 / STEPS
}

impl Plain for Obscuration {
    type Told = f32;

    ghost told = { grid_steps most_steps };

    ghost most = { most_steps };

    fn most() -> u32 {
        MOST_STEPS
    }

    #[tactic(auto, using(scales::proofs::GridValues::times_256, crate::proofs::Floats::near))]
    fn whole(&self, margin: ObscurationMargin) -> i32 {
        saturating_f32_to_i32(margin.value() * STEPS)
    }

    fn tell(cell: i32) -> f32 {
        to_float(in_range(cell, MOST_STEPS))
    }
}
