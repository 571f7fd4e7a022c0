// Why the trials stop short.
use std::alloc::{AllocError, AllocFailed};
use std::io;
use thiserror::Error;

#[derive(Debug, Drop, Error)]
pub enum Failure {
    #[error("an answer is not what the definitions say")]
    Disagreement,
    #[error("a trial could not be set up")]
    Setting,
    #[error("there is no memory left")]
    Memory,
    #[error("the text cannot be written")]
    Output,
}

// Which error the system gave is not kept: to print it, one more function of the C library would be trusted.
impl From<io::Error> for Failure {
    fn from(_error: io::Error) -> Failure {
        Failure::Output
    }
}

impl From<AllocError> for Failure {
    fn from(_error: AllocError) -> Failure {
        Failure::Memory
    }
}

impl<T: Drop> From<AllocFailed<T>> for Failure {
    fn from(_error: AllocFailed<T>) -> Failure {
        Failure::Memory
    }
}
