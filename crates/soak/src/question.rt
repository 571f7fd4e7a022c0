// What is asked of a record: the margins of a rule on a scale.
use crate::failure::Failure;
use records::Record;
use rules::Rule;
use scales::{Limit, Scale, Sense, Test};
use std::alloc::Global;
use watches::{Answer, Watch, survey};

// A rule on a scale over a record, with the heap for the cells.
#[derive(Drop)]
pub struct Question<'a, S, R> {
    pub heap: Global,
    pub scale: S,
    pub rule: Rule,
    pub record: &'a R,
}

impl<'a, S: Scale + Copy, R: Record<Reading = S::Reading>> Question<'a, S, R> {
    // Cells enough for the rule. They may hold any margins: the first head's against a limit of nought.
    pub fn cells(&self) -> Result<Vec<S::Margin>, Failure> {
        let nought = Test {
            sense: Sense::AtLeast,
            limit: Limit::new(0).ok_or(Failure::Limit)?,
        };
        let reading = self.record.reading(0, 0).ok_or(Failure::NoReading)?;
        let margin = self.scale.test(reading, nought).ok_or(Failure::NoReading)?;
        vec![in self.heap; margin; self.rule.need()].map_err(|_| Failure::Memory)
    }

    // What a watch answers at each poll that has all its rows: the first play takes the rows of poll 0, every other one more.
    pub fn watched(&self) -> Result<Vec<S::Margin>, Failure> {
        let mut cells = self.cells()?;
        let mut watch = Watch::new(self.rule, self.scale);
        let mut margins = Vec::new(self.heap);
        let mut first = 0;
        for last in self.rule.horizon()..self.record.polls() {
            if let Some(fault) = watch.play(&mut cells, self.record, first, last).fault {
                return Err(fault.into());
            }
            first = last + 1;
            if let Answer::At { margin, .. } = watch.ask(&cells)? {
                margins.push(margin).map_err(|_| Failure::Memory)?;
            }
        }
        Ok(margins)
    }

    // The margin of the rule at the record's first poll.
    pub fn surveyed(&self) -> Result<S::Margin, Failure> {
        let mut cells = self.cells()?;
        Ok(survey(&self.rule, &self.scale, &mut cells, self.record, 0)?)
    }
}
