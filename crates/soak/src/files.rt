// Reading the files that the commissioner names.
ghost use Rattle.std.specs.Prelude.{◌≡◌};
ghost use Rattle.soak.specs.Words.{at_most_bytes};

use crate::failure::Failure;
use std::alloc::Global;
use std::fs::{self, File};
use std::io::{self, ErrorKind, Read};
use thiserror::Error;

// Why a file gives no bytes. The system's own words are not kept: to print them, one more function of the C library would
// be trusted.
#[derive(Clone, Copy, Debug, Error)]
pub enum Trouble {
    #[error("there is no such file")]
    Missing,
    #[error("it is a directory")]
    Directory,
    #[error("it may not be read")]
    Forbidden,
    #[error("it cannot be read")]
    Unreadable,
    #[error("it is too long")]
    TooLong,
    #[error("it cannot be written")]
    Unwritable,
}

impl From<io::Error> for Trouble {
    fn from(error: io::Error) -> Trouble {
        match error.kind() {
            ErrorKind::NotFound => Trouble::Missing,
            ErrorKind::IsADirectory => Trouble::Directory,
            ErrorKind::PermissionDenied => Trouble::Forbidden,
            _ => Trouble::Unreadable,
        }
    }
}

// What is wrong with the file of this path.
fn fault(rt: &HostRuntime, path: &str, trouble: Trouble) -> Failure {
    match String::from_str(rt.alloc(), path) {
        Ok(path) => Failure::File { path, trouble },
        Err(_) => Failure::Memory,
    }
}

// The bytes of a file that has at most so many.
pub fn read(rt: &HostRuntime, path: &str, most: usize) -> Result<Vec<u8>, Failure> {
    whole(rt, path, most).map_err(|trouble| fault(rt, path, trouble))
}

// A text into a file, in the place of what it held.
pub fn write(rt: &HostRuntime, path: &str, text: &str) -> Result<(), Failure> {
    fs::write(rt, path, text).map_err(|_| fault(rt, path, Trouble::Unwritable))
}

fn whole(rt: &HostRuntime, path: &str, most: usize) -> Result<Vec<u8>, Trouble> {
    let mut bytes = Vec::new(rt.alloc());
    let limit = (most as u64).saturating_add(1);
    File::open(rt, path)?.take(limit).read_to_end(&mut bytes)?;
    at_most(bytes, most)
}

// The bytes where there are at most so many.
fn at_most(bytes: Vec<u8>, most: usize) -> Result<Vec<u8>, Trouble>
    ensures { result ≡ at_most_bytes bytes most }
{
    if bytes.len() > most {
        return Err(Trouble::TooLong);
    }
    Ok(bytes)
}
