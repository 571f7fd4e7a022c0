// Why a text cannot be read, and where.
ghost use Rattle.std.specs.Prelude.{◌≡◌, Some};
ghost use Rattle.texts.specs.Sentences.{defect_text, fault_text, error_text};
ghost use Rattle.texts.specs.declared.refusals.ReadError.TheVariants.{Text, Memory};

use records::POLLS;
use std::alloc::{AllocError, AllocFailed};
use std::error::Error;
use std::fmt;

// What is wrong at a place of a text.
#[derive(Clone, Copy, PartialEq, Eq, Debug)]
pub enum Defect {
    // The text has no line.
    EmptyFile,
    // Nothing stands where a number is to stand.
    Missing,
    // A reading on counts is no digits, with or without a minus before them.
    NotWhole,
    // A reading on obscuration is no digits, with or without a minus before and decimals behind.
    NotDecimal,
    // A number of heads or polls, a head or a poll is anything but digits.
    NotNatural,
    // A reading on obscuration is no multiple of 1/256.
    OffSteps,
    // The number does not fit the type that keeps it.
    OutOfRange,
    // The line has fewer fields than it is to have.
    TooFew { wanted: u32 },
    // The line has more fields than it is to have.
    TooMany { wanted: u32 },
    // The grid has more lines than a record has polls.
    TooManyLines,
    // The first line of a log begins with another word.
    NotLog,
}

impl fmt::Display for Defect {
    ghost output = { λ defect. Some (defect_text defect) };

    fn fmt<W: fmt::Write>(&self, f: &mut fmt::Formatter<W>) -> fmt::Result {
        match *self {
            Defect::EmptyFile => write!(f, "the file is empty"),
            Defect::Missing => write!(f, "a number is missing"),
            Defect::NotWhole => write!(f, "this is no whole number"),
            Defect::NotDecimal => write!(f, "this is no decimal number"),
            Defect::NotNatural => write!(f, "this is no whole number from 0 on"),
            Defect::OffSteps => write!(f, "this number is not a multiple of 1/256"),
            Defect::OutOfRange => write!(f, "this number is out of range"),
            Defect::TooFew { wanted } => write!(f, "the line ends before its {wanted} fields"),
            Defect::TooMany { wanted } => write!(f, "the line goes on behind its {wanted} fields"),
            Defect::TooManyLines => write!(f, "a grid has at most {POLLS} lines"),
            Defect::NotLog => write!(f, "the first line of a log begins with the word log"),
        }
    }
}

// The first place of a text that cannot be read, and what is wrong there. Lines count from 1, and columns are the bytes of
// the line, from 1 too.
#[derive(Clone, Copy, PartialEq, Eq, Debug)]
pub struct TextFault {
    pub line: usize,
    pub column: usize,
    pub defect: Defect,
}

impl fmt::Display for TextFault {
    ghost output = { λ fault. Some (fault_text fault) };

    fn fmt<W: fmt::Write>(&self, f: &mut fmt::Formatter<W>) -> fmt::Result {
        let line = self.line;
        let column = self.column;
        let defect = self.defect;
        write!(f, "line {line}, column {column}: {defect}")
    }
}

impl Error for TextFault {}

// Why a text was not read: it cannot be, or memory ran out before it was.
#[derive(Clone, Copy, PartialEq, Eq, Debug)]
pub enum ReadError {
    Text(TextFault),
    Memory,
}

impl fmt::Display for ReadError {
    ghost output = { λ error. Some (error_text error) };

    fn fmt<W: fmt::Write>(&self, f: &mut fmt::Formatter<W>) -> fmt::Result {
        match *self {
            ReadError::Text(fault) => write!(f, "{fault}"),
            ReadError::Memory => write!(f, "there is no memory left"),
        }
    }
}

impl Error for ReadError {}

impl From<TextFault> for ReadError {
    ghost from_gives = { λ fault error. error ≡ Text fault };

    fn from(fault: TextFault) -> ReadError {
        ReadError::Text(fault)
    }
}

impl<T: Drop> From<AllocFailed<T>> for ReadError {
    ghost from_gives = { λ _ error. error ≡ Memory };

    fn from(_error: AllocFailed<T>) -> ReadError {
        ReadError::Memory
    }
}
