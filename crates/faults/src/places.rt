// The places at fault.
ghost use Rattle.std.specs.Prelude.{Some};
ghost use Rattle.faults.specs.Texts.{place_text};

use std::fmt;

// Where the fault lies. Entries, heads, polls and bytes count from 0.
#[derive(Clone, Copy, PartialEq, Eq, Debug)]
pub enum Place {
    // Place 0: the whole is at fault, and nothing inside it is named.
    Whole,
    // The entry of a list.
    Entry(usize),
    // The reading of a head at a poll.
    Reading { head: u32, poll: u32 },
    // The byte where a record of the sheet begins or would begin.
    Byte(usize),
}

impl fmt::Display for Place {
    ghost output = { λ place. Some (place_text place) };

    fn fmt<W: fmt::Write>(&self, f: &mut fmt::Formatter<W>) -> fmt::Result {
        match *self {
            Place::Whole => write!(f, "0"),
            Place::Entry(entry) => write!(f, "entry {entry}"),
            Place::Reading { head, poll } => write!(f, "head {head}, poll {poll}"),
            Place::Byte(byte) => write!(f, "byte {byte}"),
        }
    }
}
