// Why the program stops short.
use crate::files::Trouble;
use desk::Trouble as DeskTrouble;
use logs::LogFault;
use rules::RuleFault;
use sheets::SheetFault;
use std::io;
use texts::ReadError;
use thiserror::Error;
use watches::WatchFault;

#[derive(Debug, Drop, Error)]
pub enum Failure {
    // A rule is refused.
    #[error(transparent)]
    Rule(#[from] RuleFault),
    // A call of a watch, or a survey, is refused.
    #[error(transparent)]
    Watch(#[from] WatchFault),
    // A sheet is refused.
    #[error(transparent)]
    Sheet(#[from] SheetFault),
    // A file of readings cannot be read as a text.
    #[error(transparent)]
    Text(#[from] ReadError),
    // A log's entries are refused.
    #[error(transparent)]
    Log(#[from] LogFault),
    // A row of the soak is refused, or the work cannot be done.
    #[error(transparent)]
    Desk(#[from] DeskTrouble),
    #[error("the readings are of {heads} heads, and the sheet's card has {card}")]
    OtherCard { heads: u32, card: u32 },
    #[error("the sheet has no rule {number}")]
    NoRule { number: u32 },
    #[error("the picture would be written over a file that is read")]
    PictureOverInput,
    #[error("{path}: {trouble}")]
    File { path: String, trouble: Trouble },
    #[error("the words are none that the program knows")]
    Words,
    #[error("a limit is out of range")]
    Limit,
    #[error("a zone names a head that there is not")]
    Zone,
    #[error("the record has no lawful reading to begin with")]
    NoReading,
    #[error("there is no memory left")]
    Memory,
    #[error("the text cannot be written")]
    Output,
}

// Which error the system gave is not kept: to print it, one more function of the C library would be trusted.
impl From<io::Error> for Failure {
    fn from(_error: io::Error) -> Failure {
        Failure::Output
    }
}
