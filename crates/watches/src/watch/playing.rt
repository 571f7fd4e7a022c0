// Playing: several polls of a record taken one after another.
ghost use Rattle.std.specs.Prelude.{◌≡◌};
ghost use Rattle.watches.specs.Calls.{polls_to};
ghost use Rattle.watches.specs.Faults.{at_poll};
ghost use Rattle.watches.specs.Watching.{Played};

use crate::answers::Play;
use crate::refusals::WatchFault;
use crate::watch::Watch;
use records::{Excerpt, Record};
use scales::Scale;

// How many polls there are from the first to the last.
fn count_polls(first: u32, last: u32) -> u64
    ensures { result ≡ polls_to first last }
{
    (last as u64 + 1).saturating_sub(first as u64)
}

// A fault told at the record's own poll, where a step over an excerpt names the excerpt's.
fn told_at(fault: WatchFault, poll: u32) -> WatchFault
    ensures { result ≡ at_poll poll fault }
{
    match fault {
        WatchFault::NoReading { head, .. } => WatchFault::NoReading { head, poll },
        WatchFault::Unlawful { head, .. } => WatchFault::Unlawful { head, poll },
        WatchFault::TooFewCells { .. } | WatchFault::Full | WatchFault::PastTheEnd { .. } => fault,
    }
}

impl<S: Scale> Watch<S> {
    // Takes the polls from the first to the last as rows, up to the first that is refused. No record has more polls than
    // an excerpt can count.
    pub fn play<R: Record<Reading = S::Reading>>(
        &mut self,
        cells: &mut [S::Margin],
        record: &R,
        first: u32,
        last: u32,
    ) -> Play
        ensures { Played S.Scale.model (R.Record.model «record».now) first last self.old cells.old self.new cells.new result }
    {
        let count = count_polls(first, last);
        let excerpt = Excerpt::new(record, first, count.min(u32::MAX as u64) as u32);
        for taken in 0..count {
            if let Err(fault) = self.step(cells, &excerpt, taken as u32) {
                let poll = first + taken as u32;
                return Play {
                    rows: taken as u32,
                    fault: Some(told_at(fault, poll)),
                };
            }
        }
        Play {
            rows: count as u32,
            fault: None,
        }
    }
}
