// A rule and a grid as C lends them, and the calls on them over cells that hold plain numbers.
ghost use Rattle.std.specs.Prelude.{◌≡◌, length, is_err, MatchResult, Some, None};
ghost use Rattle.entries.specs.Heads.{heads as heads_of};
ghost use Rattle.records.specs.Faults.{record_ground};
ghost use Rattle.records.specs.Grid.{grid_fault, grid_record};
ghost use Rattle.records.specs.declared.refusals.RecordFault.{RecordFault};
ghost use Rattle.firmware.specs.Plays.{GridPlayed};
ghost use Rattle.firmware.specs.Refusals.{refused};
ghost use Rattle.firmware.specs.Made.{RuleOf};
ghost use Rattle.firmware.specs.Surveys.{grid_survey, cells_needed, told_whole, Kept};

use crate::cell_scale::CellScale;
use crate::plain::Plain;
use crate::plays::{Play, play_record};
use crate::refusals::Refusal;
use entries::{Entry, HeadSet};
use records::Grid;
use rules::Rule;
use watches::survey;

// The rule of the entries, in the zone of the heads whose bits are set.
pub(crate) fn rule_of(entries: &[Entry], zone: u64) -> Result<Rule, Refusal>
    ensures { RuleOf (heads_of zone) entries.now result }
{
    Ok(Rule::new(entries, HeadSet::of_bits(zone))?)
}

// A rule's entries and its zone, and a grid's readings, poll by poll, and within a poll head by head.
#[derive(Clone, Copy)]
pub(crate) struct Lent<'a, T> {
    pub(crate) entries: &'a [Entry],
    pub(crate) zone: u64,
    pub(crate) heads: u32,
    pub(crate) polls: u32,
    pub(crate) readings: &'a [T],
}

impl<'a, T: Copy> Lent<'a, T> {
    // The grid of the readings.
    fn grid(self) -> Result<Grid<'a, T>, Refusal>
        ensures { MatchResult result
            (λ g. (grid_fault self.entry.heads self.entry.polls (length self.entry.readings.now) ≡ None) × (grid_record g.size.heads g.size.polls g.readings.now ≡ grid_record self.entry.heads self.entry.polls self.entry.readings.now))
            (λ r. (f : RecordFault) × (grid_fault self.entry.heads self.entry.polls (length self.entry.readings.now) ≡ Some f) × (r ≡ refused (record_ground f))) }
    {
        Grid::check(self.heads, self.polls, self.readings)?;
        Ok(Grid::new(self.heads, self.polls, self.readings))
    }

    // The margin of the grid at a poll, as C is told it.
    pub(crate) fn survey<S: Plain<Reading = T>>(
        self,
        scale: S,
        cells: &mut [i32],
        poll: u32,
    ) -> Result<S::Told, Refusal>
        ensures answer { told_whole S.Plain.told result ≡ grid_survey (S.Scale.model scale) (heads_of self.entry.zone) self.entry.entries.now self.entry.heads self.entry.polls self.entry.readings.now (length cells.old) poll }
        ensures cells { Kept (cells_needed (heads_of self.entry.zone) self.entry.entries.now) (is_err result) cells.old cells.new }
    {
        let rule = rule_of(self.entries, self.zone)?;
        let grid = self.grid()?;
        let scale = CellScale { lower: scale };
        let cell = survey(&rule, &scale, cells, &grid, poll)?;
        Ok(S::tell(cell))
    }

    // Plays the grid through a new watch of the rule.
    pub(crate) fn play<S: Plain<Reading = T>>(
        self,
        scale: S,
        cells: &mut [i32],
        list: &mut [S::Told],
    ) -> Play
        ensures { GridPlayed (S.Scale.model scale) S.Plain.told (heads_of self.entry.zone) self.entry.entries.now self.entry.heads self.entry.polls self.entry.readings.now cells.old cells.new list.old list.new result }
    {
        let rule = match rule_of(self.entries, self.zone) {
            Ok(rule) => rule,
            Err(refusal) => return Play::none(refusal),
        };
        match self.grid() {
            Ok(grid) => play_record(rule, scale, &grid, cells, list),
            Err(refusal) => Play::none(refusal),
        }
    }
}
