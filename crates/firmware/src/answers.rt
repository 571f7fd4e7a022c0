// What C is told: an answer and its refusal beside each other, since an enum does not cross.
ghost use Rattle.std.specs.Prelude.{◌≡◌, ℤ, pos, Some};
ghost use Rattle.scales.specs.Grid.{grid_steps};
ghost use Rattle.firmware.specs.Cells.{most_steps};
ghost use Rattle.firmware.specs.Surveys.{told_whole, refusal_of, value_or};

use crate::refusals::Refusal;

// The margin of a survey as a whole number; 0 where it is refused.
#[repr(C)]
#[derive(Clone, Copy, PartialEq, Eq, Debug)]
pub struct CountSurvey {
    pub refusal: Refusal,
    pub margin: i32,
}

// The margin of a survey in percent per metre; 0 where it is refused.
#[repr(C)]
#[derive(Clone, Copy, Debug)]
pub struct ObscurationSurvey {
    pub refusal: Refusal,
    pub margin: f32,
}

// How many cells a rule needs, and how many polls past its own it looks; 0 where the rule is refused.
#[repr(C)]
#[derive(Clone, Copy, PartialEq, Eq, Debug)]
pub struct Need {
    pub refusal: Refusal,
    pub cells: usize,
    pub horizon: u32,
}

impl CountSurvey {
    pub(crate) fn of(answer: Result<i32, Refusal>) -> CountSurvey
        ensures refusal { result.refusal ≡ refusal_of (told_whole (λ (z : ℤ). Some z) answer) }
        ensures margin { Some result.margin ≡ value_or (Some (pos 0)) (told_whole (λ (z : ℤ). Some z) answer) }
    {
        match answer {
            Ok(margin) => CountSurvey {
                refusal: Refusal::none(),
                margin,
            },
            Err(refusal) => CountSurvey { refusal, margin: 0 },
        }
    }
}

impl ObscurationSurvey {
    #[tactic(auto, unfolding(scales::specs::Grid::grid_whole, scales::specs::Grid::on_grid))]
    pub(crate) fn of(answer: Result<f32, Refusal>) -> ObscurationSurvey
        ensures refusal { result.refusal ≡ refusal_of (told_whole (grid_steps most_steps) answer) }
        ensures margin { grid_steps most_steps result.margin ≡ value_or (Some (pos 0)) (told_whole (grid_steps most_steps) answer) }
    {
        match answer {
            Ok(margin) => ObscurationSurvey {
                refusal: Refusal::none(),
                margin,
            },
            Err(refusal) => ObscurationSurvey {
                refusal,
                margin: 0.0,
            },
        }
    }
}
