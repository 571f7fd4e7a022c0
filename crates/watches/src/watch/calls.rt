// The calls of a watch.
ghost use Rattle.std.specs.Prelude.{◌≡◌};
ghost use Rattle.layout.specs.Rows.{cells_of};
ghost use Rattle.watches.specs.Watching.{Made, Cleared, Written, Stepped, Asked};
ghost use Rattle.watches.specs.Worth.{AfterEveryRun};

use crate::answers::Answer;
use crate::cells::check_cells;
use crate::refusals::{ROWS, WatchFault};
use crate::source::Source;
use crate::watch::Watch;
use layout::{Rows, latest_margin, take_row};
use records::Record;
use rules::Rule;
use scales::Scale;

impl<S: Scale> Watch<S> {
    // A watch of a rule on a scale, with no rows. The cells that it is lent may hold anything.
    pub fn new(rule: Rule, scale: S) -> Watch<S>
        ensures { Made S.Scale.model rule scale result }
    {
        Watch {
            rule,
            scale,
            rows: Rows::none(&rule),
        }
    }

    // How many cells it needs: the rule's need.
    pub fn need(&self) -> usize
        ensures { result ≡ cells_of self.now.rule }
    {
        self.rule.need()
    }

    // Forgets its rows.
    pub fn clear(&mut self)
        ensures { Cleared S.Scale.model self.old self.new }
    {
        self.rows = Rows::none(&self.rule);
    }

    // Writes one row more into the cells, or says why it is none.
    fn write_row<R: Record<Reading = S::Reading>>(
        &self,
        cells: &mut [S::Margin],
        record: &R,
        poll: u32,
    ) -> Result<(), WatchFault>
        ensures { Written (S.Scale.model self.now.scale) self.now.rule (R.Record.model «record».now) poll self.now.rows.count cells.old cells.new result }
    {
        let lent = cells.len();
        check_cells(&self.rule, lent)?;
        if self.rows.count() >= ROWS {
            return Err(WatchFault::Full);
        }
        let source = Source {
            rule: &self.rule,
            scale: &self.scale,
            record,
        };
        source.check_row(poll)?;
        let _ = take_row(&self.scale, &self.rule, self.rows, record, poll, cells);
        Ok(())
    }

    // Takes one poll of a record as a row. It looks only at the heads that the rule reads.
    pub fn step<R: Record<Reading = S::Reading>>(
        &mut self,
        cells: &mut [S::Margin],
        record: &R,
        poll: u32,
    ) -> Result<(), WatchFault>
        ensures { Stepped S.Scale.model (R.Record.model «record».now) poll self.old cells.old self.new cells.new result }
    {
        self.write_row(cells, record, poll)?;
        self.rows = self.rows.next();
        Ok(())
    }

    // The answer for the rows that the watch and the cells stand for.
    fn answer(&self, cells: &[S::Margin]) -> Result<Answer<S::Margin>, WatchFault>
        ensures { Asked S.Scale.model self.now cells.now result }
    {
        check_cells(&self.rule, cells.len())?;
        let rows = self.rows.count();
        let horizon = self.rule.horizon();
        let Some(margin) = latest_margin(&self.rule, self.rows, cells) else {
            return Ok(Answer::Waiting {
                rows: horizon + 1 - rows,
            });
        };
        Ok(Answer::At {
            poll: rows - 1 - horizon,
            margin,
        })
    }

    // The latest poll that has all its rows, with its margin; or how many rows are to come until there is one. What the
    // margin is worth after any run of calls is the second promise.
    pub fn ask(&self, cells: &[S::Margin]) -> Result<Answer<S::Margin>, WatchFault>
        ensures asked { Asked S.Scale.model self.now cells.now result }
        ensures worth { AfterEveryRun S.Scale.model self.now cells.now result }
    {
        self.answer(cells)
    }
}
