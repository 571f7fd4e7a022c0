// Why a record is refused.
ghost use Rattle.std.specs.Prelude.{◌≡◌, Some};
ghost use Rattle.records.specs.Faults.{record_ground};
ghost use Rattle.records.specs.Texts.{record_fault_text};

use crate::limits::{HEADS, POLLS};
use faults::{Fault, Ground, Layer, Place};
use std::fmt;

// A fault of a record's numbers.
#[derive(Clone, Copy, PartialEq, Eq, Debug)]
pub enum RecordFault {
    // The heads are 0 or above 64.
    HeadsOutOfRange {
        heads: u32,
    },
    // The polls are above 16,777,216.
    TooManyPolls {
        polls: u32,
    },
    // A grid's readings are not heads x polls.
    ReadingsDoNotFill {
        readings: usize,
        heads: u32,
        polls: u32,
    },
}

impl Fault for RecordFault {
    ghost cause = { record_ground };

    fn ground(&self) -> Ground {
        Ground {
            number: 6,
            layer: Layer::Record,
            place: Place::Whole,
        }
    }
}

impl fmt::Display for RecordFault {
    ghost output = { λ fault. Some (record_fault_text fault) };

    fn fmt<W: fmt::Write>(&self, f: &mut fmt::Formatter<W>) -> fmt::Result {
        let ground = self.ground();
        match *self {
            RecordFault::HeadsOutOfRange { heads } => {
                write!(
                    f,
                    "{ground}: {heads} heads, where a record has 1 to {HEADS}"
                )
            }
            RecordFault::TooManyPolls { polls } => {
                write!(
                    f,
                    "{ground}: {polls} polls, where a record has at most {POLLS}"
                )
            }
            RecordFault::ReadingsDoNotFill {
                readings,
                heads,
                polls,
            } => {
                write!(
                    f,
                    "{ground}: {readings} readings do not fill {heads} heads by {polls} polls"
                )
            }
        }
    }
}
