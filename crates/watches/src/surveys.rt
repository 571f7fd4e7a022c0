// The margin of any record at one poll.
ghost use Rattle.std.specs.Prelude.{◌≡◌, ◌+◌, ◌^◌, ◌<◌};
ghost use Rattle.faults.specs.Checks.{checked};
ghost use Rattle.formulas.specs.Formula.{horizon as horizon_of};
ghost use Rattle.rules.specs.Rules.{formula};
ghost use Rattle.watches.specs.Surveys.{polls_fault, survey_fault, Taken, Surveyed};

use crate::cells::check_cells;
use crate::refusals::WatchFault;
use crate::source::Source;
use layout::{Rows, latest_margin, take_row};
use records::Record;
use rules::Rule;
use scales::Scale;

impl<'a, S: Scale, R: Record<Reading = S::Reading>> Source<'a, S, R> {
    // Whether the polls that the rule looks at from one poll on have all readings, by poll and head.
    fn check_polls(&self, poll: u32) -> Result<(), WatchFault>
        requires { poll + horizon_of (formula self.now.rule.now) < 2 ^ 32 }
        ensures { result ≡ checked (polls_fault (S.Scale.model self.now.scale.now) self.now.rule.now (R.Record.model self.now.«record».now) poll (horizon_of (formula self.now.rule.now) + 1)) }
    {
        for ahead in 0..self.rule.horizon() + 1 {
            self.check_row(poll + ahead)?;
        }
        Ok(())
    }

    // Whether a survey can be made.
    fn check_survey(&self, lent: usize, poll: u32) -> Result<(), WatchFault>
        ensures { result ≡ checked (survey_fault (S.Scale.model self.now.scale.now) self.now.rule.now (R.Record.model self.now.«record».now) lent poll) }
    {
        check_cells(self.rule, lent)?;
        let horizon = self.rule.horizon();
        let polls = self.record.polls();
        if polls as usize <= poll as usize + horizon as usize {
            return Err(WatchFault::PastTheEnd {
                poll,
                horizon,
                polls,
            });
        }
        self.check_polls(poll)
    }

    // Takes the polls that the rule looks at from one poll on as rows, and tells how many.
    fn take_polls(&self, cells: &mut [S::Margin], poll: u32) -> Rows
        requires { poll + horizon_of (formula self.now.rule.now) < 2 ^ 32 }
        ensures taken { Taken (S.Scale.model self.now.scale.now) self.now.rule.now (R.Record.model self.now.«record».now) poll (horizon_of (formula self.now.rule.now) + 1) cells.old cells.new }
        ensures count { result.count ≡ horizon_of (formula self.now.rule.now) + 1 }
    {
        let mut rows = Rows::none(self.rule);
        for ahead in 0..self.rule.horizon() + 1 {
            let _ = take_row(
                self.scale,
                self.rule,
                rows,
                self.record,
                poll + ahead,
                cells,
            );
            rows = rows.next();
        }
        rows
    }
}

// The margin of a record at a poll, worked out in cells of its own. Every reading is looked at first, so that a refused
// survey leaves the cells as they were.
pub fn survey<S: Scale, R: Record<Reading = S::Reading>>(
    rule: &Rule,
    scale: &S,
    cells: &mut [S::Margin],
    record: &R,
    poll: u32,
) -> Result<S::Margin, WatchFault>
    ensures { Surveyed (S.Scale.model scale.now) rule.now (R.Record.model «record».now) poll cells.old cells.new result }
{
    let source = Source {
        rule,
        scale,
        record,
    };
    source.check_survey(cells.len(), poll)?;
    let rows = source.take_polls(cells, poll);
    Ok(latest_margin(rule, rows, cells).unwrap())
}
