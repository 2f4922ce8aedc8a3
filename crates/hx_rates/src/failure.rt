//! Why nothing was measured.

use hx_desk::DeskError;
use hx_journal::{FileError, HeadError, JournalError, OpenError};
use hx_market::PrepareError;
use hx_members::SetupError;
use hx_units::NoMemory;
use std::alloc::{AllocError, AllocFailed};
use std::io;
use thiserror::Error;

/// Why nothing was measured.
#[derive(Debug, Drop, Error)]
pub enum Failure {
    /// The words ask for nothing that is measured.
    #[error("the words ask for nothing that is measured")]
    Words,
    /// A line of the tape is no event.
    #[error("a line of the tape is no event")]
    Tape,
    /// There is no memory for a growth.
    #[error("no memory")]
    NoMemory,
    /// The setup of the day is refused.
    #[error("the setup of the day is refused")]
    Setup,
    /// An event was refused: something else was measured.
    #[error("an event was refused")]
    Refused,
    /// What came out is not what went in.
    #[error("what came out is not what went in")]
    Wrong,
    /// The file has records already, so that its journal is not new.
    #[error("the file has records already")]
    NotNew,
    /// The journal failed.
    #[error("the journal failed")]
    Journal,
    /// The clock, the input or the output failed.
    #[error("no clock, no input or no output")]
    Io,
}

impl From<NoMemory> for Failure {
    fn from(_error: NoMemory) -> Failure {
        Failure::NoMemory
    }
}

impl From<AllocError> for Failure {
    fn from(_error: AllocError) -> Failure {
        Failure::NoMemory
    }
}

impl<T: Drop> From<AllocFailed<T>> for Failure {
    fn from(_error: AllocFailed<T>) -> Failure {
        Failure::NoMemory
    }
}

impl From<SetupError> for Failure {
    fn from(_error: SetupError) -> Failure {
        Failure::Setup
    }
}

impl From<PrepareError> for Failure {
    fn from(_error: PrepareError) -> Failure {
        Failure::Refused
    }
}

impl From<DeskError> for Failure {
    fn from(_error: DeskError) -> Failure {
        Failure::Refused
    }
}

impl From<JournalError> for Failure {
    fn from(_error: JournalError) -> Failure {
        Failure::Journal
    }
}

impl From<HeadError> for Failure {
    fn from(_error: HeadError) -> Failure {
        Failure::Journal
    }
}

impl From<FileError> for Failure {
    fn from(_error: FileError) -> Failure {
        Failure::Journal
    }
}

impl<F: Drop> From<(OpenError, F)> for Failure {
    fn from(_error: (OpenError, F)) -> Failure {
        Failure::Journal
    }
}

impl From<io::Error> for Failure {
    fn from(_error: io::Error) -> Failure {
        Failure::Io
    }
}
