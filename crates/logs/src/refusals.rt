// Why a log is refused.
ghost use Rattle.std.specs.Prelude.{◌≡◌, Some};
ghost use Rattle.logs.specs.Faults.{log_ground};
ghost use Rattle.logs.specs.Texts.{log_fault_text};
ghost use Rattle.logs.specs.declared.refusals.LogFault.TheVariants.{Record};

use faults::{Fault, Ground, Layer, Place};
use records::RecordFault;
use std::fmt;

// A fault of a log.
#[derive(Clone, Copy, PartialEq, Eq, Debug)]
pub enum LogFault {
    // The fault of its numbers of heads and polls.
    Record(RecordFault),
    // The entry's poll is not below the log's polls.
    PollOutside {
        entry: usize,
        poll: u32,
        polls: u32,
    },
    // The entry's head is not below the log's heads.
    HeadOutside {
        entry: usize,
        head: u32,
        heads: u32,
    },
    // The entry's poll is below the poll of the entry before it.
    PollFalls {
        entry: usize,
        poll: u32,
        before: u32,
    },
    // The entry's head has an earlier entry of the same poll.
    HeadTwice {
        entry: usize,
        head: u32,
        poll: u32,
    },
}

// The record's fault is carried whole.
impl From<RecordFault> for LogFault {
    ghost from_gives = { λ cause fault. fault ≡ Record cause };

    fn from(cause: RecordFault) -> LogFault {
        LogFault::Record(cause)
    }
}

impl Fault for LogFault {
    ghost cause = { log_ground };

    fn ground(&self) -> Ground {
        let entry = match *self {
            LogFault::Record(fault) => return fault.ground(),
            LogFault::PollOutside { entry, .. }
            | LogFault::HeadOutside { entry, .. }
            | LogFault::PollFalls { entry, .. }
            | LogFault::HeadTwice { entry, .. } => entry,
        };
        Ground {
            number: 7,
            layer: Layer::Log,
            place: Place::Entry(entry),
        }
    }
}

impl fmt::Display for LogFault {
    ghost output = { λ fault. Some (log_fault_text fault) };

    fn fmt<W: fmt::Write>(&self, f: &mut fmt::Formatter<W>) -> fmt::Result {
        let ground = self.ground();
        match *self {
            LogFault::Record(fault) => write!(f, "{fault}"),
            LogFault::PollOutside { poll, polls, .. } => {
                write!(
                    f,
                    "{ground}: its poll {poll} is not below the {polls} polls"
                )
            }
            LogFault::HeadOutside { head, heads, .. } => {
                write!(
                    f,
                    "{ground}: its head {head} is not below the {heads} heads"
                )
            }
            LogFault::PollFalls { poll, before, .. } => {
                write!(
                    f,
                    "{ground}: its poll {poll} falls below {before}, the poll before"
                )
            }
            LogFault::HeadTwice { head, poll, .. } => {
                write!(f, "{ground}: its head {head} comes twice in poll {poll}")
            }
        }
    }
}
