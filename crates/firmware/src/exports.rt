// The functions that C calls: the need of a rule, a survey, or a play by a step and an ask for each poll, over a rule, a grid and
// cells that C lends as numbers.
ghost use Rattle.std.specs.Prelude.{◌≡◌, ℤ, Some, length};
ghost use Rattle.entries.specs.Heads.{heads as heads_of};
ghost use Rattle.scales.specs.Counts.{counts};
ghost use Rattle.scales.specs.Grid.{grid_steps};
ghost use Rattle.scales.specs.Obscuration.{obscuration};
ghost use Rattle.scales.specs.Verdict.{verdict};
ghost use Rattle.firmware.specs.Cells.{most_steps};
ghost use Rattle.firmware.specs.Plays.{GridPlayed};
ghost use Rattle.firmware.specs.Surveys.{grid_survey, cells_needed, polls_ahead, refusal_of, value_or, Surveyed};

use crate::answers::{CountSurvey, Need, ObscurationSurvey};
use crate::lent::{Lent, rule_of};
use crate::plays::Play;
use crate::refusals::Refusal;
use entries::Entry;
use scales::{Counts, Obscuration, Verdict};

// How many cells the other calls need for the rule of the entries in the zone, and how many polls past its own it looks.
#[unsafe(no_mangle)]
pub extern "C" fn yiddolza_need(entries: &[Entry], zone: u64) -> Need
    ensures refusal { result.refusal ≡ refusal_of (cells_needed (heads_of zone) entries.now) }
    ensures cells { result.cells ≡ value_or 0 (cells_needed (heads_of zone) entries.now) }
    ensures horizon { result.horizon ≡ value_or 0 (polls_ahead (heads_of zone) entries.now) }
{
    match rule_of(entries, zone) {
        Ok(rule) => Need {
            refusal: Refusal::none(),
            cells: rule.need(),
            horizon: rule.horizon(),
        },
        Err(refusal) => Need {
            refusal,
            cells: 0,
            horizon: 0,
        },
    }
}

// The margin in counts of the grid at a poll.
#[unsafe(no_mangle)]
pub extern "C" fn yiddolza_survey_counts(
    entries: &[Entry],
    zone: u64,
    heads: u32,
    polls: u32,
    readings: &[i32],
    poll: u32,
    cells: &mut [i32],
) -> CountSurvey
    ensures { Surveyed (grid_survey counts (heads_of zone) entries.now heads polls readings.now (length cells.old) poll) (cells_needed (heads_of zone) entries.now) result.refusal (Some result.margin) cells.old cells.new }
{
    let lent = Lent {
        entries,
        zone,
        heads,
        polls,
        readings,
    };
    CountSurvey::of(lent.survey(Counts, cells, poll))
}

// The margin in percent per metre of the grid at a poll.
#[unsafe(no_mangle)]
pub extern "C" fn yiddolza_survey_obscuration(
    entries: &[Entry],
    zone: u64,
    heads: u32,
    polls: u32,
    readings: &[f32],
    poll: u32,
    cells: &mut [i32],
) -> ObscurationSurvey
    ensures { Surveyed (grid_survey obscuration (heads_of zone) entries.now heads polls readings.now (length cells.old) poll) (cells_needed (heads_of zone) entries.now) result.refusal (grid_steps most_steps result.margin) cells.old cells.new }
{
    let lent = Lent {
        entries,
        zone,
        heads,
        polls,
        readings,
    };
    ObscurationSurvey::of(lent.survey(Obscuration, cells, poll))
}

// The verdict on counts of the grid at a poll: 1 is yes, -1 is no.
#[unsafe(no_mangle)]
pub extern "C" fn yiddolza_survey_count_verdict(
    entries: &[Entry],
    zone: u64,
    heads: u32,
    polls: u32,
    readings: &[i32],
    poll: u32,
    cells: &mut [i32],
) -> CountSurvey
    ensures { Surveyed (grid_survey (verdict counts) (heads_of zone) entries.now heads polls readings.now (length cells.old) poll) (cells_needed (heads_of zone) entries.now) result.refusal (Some result.margin) cells.old cells.new }
{
    let lent = Lent {
        entries,
        zone,
        heads,
        polls,
        readings,
    };
    CountSurvey::of(lent.survey(Verdict::over(Counts), cells, poll))
}

// The verdict on obscuration of the grid at a poll: 1 is yes, -1 is no.
#[unsafe(no_mangle)]
pub extern "C" fn yiddolza_survey_obscuration_verdict(
    entries: &[Entry],
    zone: u64,
    heads: u32,
    polls: u32,
    readings: &[f32],
    poll: u32,
    cells: &mut [i32],
) -> CountSurvey
    ensures { Surveyed (grid_survey (verdict obscuration) (heads_of zone) entries.now heads polls readings.now (length cells.old) poll) (cells_needed (heads_of zone) entries.now) result.refusal (Some result.margin) cells.old cells.new }
{
    let lent = Lent {
        entries,
        zone,
        heads,
        polls,
        readings,
    };
    CountSurvey::of(lent.survey(Verdict::over(Obscuration), cells, poll))
}

// The margins in counts of the grid, poll by poll, as far as the list goes.
#[unsafe(no_mangle)]
pub extern "C" fn yiddolza_play_counts(
    entries: &[Entry],
    zone: u64,
    heads: u32,
    polls: u32,
    readings: &[i32],
    cells: &mut [i32],
    margins: &mut [i32],
) -> Play
    ensures { GridPlayed counts (λ (z : ℤ). Some z) (heads_of zone) entries.now heads polls readings.now cells.old cells.new margins.old margins.new result }
{
    let lent = Lent {
        entries,
        zone,
        heads,
        polls,
        readings,
    };
    lent.play(Counts, cells, margins)
}

// The margins in percent per metre of the grid, poll by poll, as far as the list goes.
#[unsafe(no_mangle)]
pub extern "C" fn yiddolza_play_obscuration(
    entries: &[Entry],
    zone: u64,
    heads: u32,
    polls: u32,
    readings: &[f32],
    cells: &mut [i32],
    margins: &mut [f32],
) -> Play
    ensures { GridPlayed obscuration (grid_steps most_steps) (heads_of zone) entries.now heads polls readings.now cells.old cells.new margins.old margins.new result }
{
    let lent = Lent {
        entries,
        zone,
        heads,
        polls,
        readings,
    };
    lent.play(Obscuration, cells, margins)
}

// The verdicts on counts of the grid, poll by poll, as far as the list goes: 1 is yes, -1 is no.
#[unsafe(no_mangle)]
pub extern "C" fn yiddolza_play_count_verdicts(
    entries: &[Entry],
    zone: u64,
    heads: u32,
    polls: u32,
    readings: &[i32],
    cells: &mut [i32],
    verdicts: &mut [i32],
) -> Play
    ensures { GridPlayed (verdict counts) (λ (z : ℤ). Some z) (heads_of zone) entries.now heads polls readings.now cells.old cells.new verdicts.old verdicts.new result }
{
    let lent = Lent {
        entries,
        zone,
        heads,
        polls,
        readings,
    };
    lent.play(Verdict::over(Counts), cells, verdicts)
}

// The verdicts on obscuration of the grid, poll by poll, as far as the list goes: 1 is yes, -1 is no.
#[unsafe(no_mangle)]
pub extern "C" fn yiddolza_play_obscuration_verdicts(
    entries: &[Entry],
    zone: u64,
    heads: u32,
    polls: u32,
    readings: &[f32],
    cells: &mut [i32],
    verdicts: &mut [i32],
) -> Play
    ensures { GridPlayed (verdict obscuration) (λ (z : ℤ). Some z) (heads_of zone) entries.now heads polls readings.now cells.old cells.new verdicts.old verdicts.new result }
{
    let lent = Lent {
        entries,
        zone,
        heads,
        polls,
        readings,
    };
    lent.play(Verdict::over(Obscuration), cells, verdicts)
}
