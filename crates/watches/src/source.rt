// Where the rows of a rule come from.
ghost use Rattle.std.specs.Prelude.{◌≡◌, is_some};
ghost use Rattle.faults.specs.Checks.{checked};
ghost use Rattle.watches.specs.Readings.{reading_fault, row_fault};

use crate::refusals::WatchFault;
use records::Record;
use rules::Rule;
use scales::{Limit, Scale, Sense, Test};

// A record as the source of a rule's rows, on a scale.
#[derive(Drop)]
pub(crate) struct Source<'a, S, R> {
    pub rule: &'a Rule,
    pub scale: &'a S,
    pub record: &'a R,
}

impl<'a, S: Scale, R: Record<Reading = S::Reading>> Source<'a, S, R> {
    // Whether a reading is lawful: it has a margin against any limit.
    fn is_lawful(&self, reading: S::Reading) -> bool
        ensures { result ≡ is_some ((S.Scale.model self.now.scale.now).steps reading) }
    {
        let nought = Test {
            sense: Sense::AtLeast,
            limit: Limit::new(0).unwrap(),
        };
        self.scale.test(reading, nought).is_some()
    }

    // Whether a head has a lawful reading at a poll.
    fn check_reading(&self, head: u32, poll: u32) -> Result<(), WatchFault>
        ensures { result ≡ checked (reading_fault (S.Scale.model self.now.scale.now) head poll ((R.Record.model self.now.«record».now).at head poll)) }
    {
        let reading = self.record.reading(head, poll);
        let reading = reading.ok_or(WatchFault::NoReading { head, poll })?;
        if !self.is_lawful(reading) {
            return Err(WatchFault::Unlawful { head, poll });
        }
        Ok(())
    }

    // Whether every head that the rule reads has a lawful reading at a poll; the heads go by their number.
    pub(crate) fn check_row(&self, poll: u32) -> Result<(), WatchFault>
        ensures { result ≡ checked (row_fault (S.Scale.model self.now.scale.now) self.now.rule.now (R.Record.model self.now.«record».now) poll) }
    {
        for head in self.rule.reads() {
            self.check_reading(head as u32, poll)?;
        }
        Ok(())
    }
}
