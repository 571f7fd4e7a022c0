// Why a call of a watch is refused.
ghost use Rattle.std.specs.Prelude.{◌≡◌, Some};
ghost use Rattle.watches.specs.Faults.{at_whole, at_reading, watch_ground};
ghost use Rattle.watches.specs.Texts.{watch_fault_text};

use faults::{Fault, Ground, Layer, Place};
use std::fmt;

// The most rows of a watch.
pub const ROWS: u32 = 16_777_216;

// A fault of a call of a watch, or of a survey.
#[derive(Clone, Copy, PartialEq, Eq, Debug)]
pub enum WatchFault {
    // Fewer cells are lent than the rule needs.
    TooFewCells { need: usize, lent: usize },
    // The watch has 16,777,216 rows.
    Full,
    // The record ends before the last poll that the rule looks at.
    PastTheEnd { poll: u32, horizon: u32, polls: u32 },
    // A head that the rule reads has no reading.
    NoReading { head: u32, poll: u32 },
    // Its reading is unlawful on the scale.
    Unlawful { head: u32, poll: u32 },
}

fn whole(number: u8) -> Ground
    ensures { result ≡ at_whole number }
{
    Ground {
        number,
        layer: Layer::Watch,
        place: Place::Whole,
    }
}

fn at(number: u8, head: u32, poll: u32) -> Ground
    ensures { result ≡ at_reading number head poll }
{
    Ground {
        number,
        layer: Layer::Watch,
        place: Place::Reading { head, poll },
    }
}

impl Fault for WatchFault {
    ghost cause = { watch_ground };

    fn ground(&self) -> Ground {
        match *self {
            WatchFault::TooFewCells { .. } => whole(8),
            WatchFault::Full => whole(9),
            WatchFault::PastTheEnd { .. } => whole(10),
            WatchFault::NoReading { head, poll } => at(11, head, poll),
            WatchFault::Unlawful { head, poll } => at(12, head, poll),
        }
    }
}

impl fmt::Display for WatchFault {
    ghost output = { λ fault. Some (watch_fault_text fault) };

    fn fmt<W: fmt::Write>(&self, f: &mut fmt::Formatter<W>) -> fmt::Result {
        let ground = self.ground();
        match *self {
            WatchFault::TooFewCells { need, lent } => {
                write!(f, "{ground}: {lent} cells, where the rule needs {need}")
            }
            WatchFault::Full => {
                write!(f, "{ground}: the watch has all the rows that it can take")
            }
            WatchFault::PastTheEnd {
                poll,
                horizon,
                polls,
            } => {
                write!(
                    f,
                    "{ground}: poll {poll} looks {horizon} polls ahead, where the record has {polls} polls"
                )
            }
            WatchFault::NoReading { .. } => {
                write!(f, "{ground}: the head has no reading at the poll")
            }
            WatchFault::Unlawful { .. } => {
                write!(f, "{ground}: the reading is unlawful on the scale")
            }
        }
    }
}
