// Why a report, a table or a picture is not made.
ghost use Rattle.std.specs.Prelude.{◌≡◌};
ghost use Rattle.desk.specs.declared.trouble.Trouble.TheVariants.{Refused, Memory, Output};

use std::alloc::AllocError;
use std::fmt;
use thiserror::Error;
use watches::WatchFault;

// What stops the work. No margin is told of a rule that it stops at.
#[derive(Debug, Drop, Error)]
pub enum Trouble {
    // A row is refused: a reading is missing or unlawful.
    #[error(transparent)]
    Refused(WatchFault),
    #[error("there is no memory left")]
    Memory,
    #[error("the text cannot be written")]
    Output,
}

impl From<WatchFault> for Trouble {
    ghost from_gives = { λ fault trouble. trouble ≡ Refused fault };

    fn from(fault: WatchFault) -> Trouble {
        Trouble::Refused(fault)
    }
}

impl From<AllocError> for Trouble {
    ghost from_gives = { λ _ trouble. trouble ≡ Memory };

    fn from(_error: AllocError) -> Trouble {
        Trouble::Memory
    }
}

impl From<fmt::Error> for Trouble {
    ghost from_gives = { λ _ trouble. trouble ≡ Output };

    fn from(_error: fmt::Error) -> Trouble {
        Trouble::Output
    }
}
