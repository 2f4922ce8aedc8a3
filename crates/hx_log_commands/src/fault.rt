//! Why a command over a log ends without success.

use hx_day_log::DayLogError;
use hx_units::NoMemory;
use std::alloc::{AllocError, AllocFailed};

/// Why a command over a log ends without success.
#[derive(Debug, Drop, thiserror::Error)]
pub enum LogCommandError {
    /// A word that is no address of a node.
    #[error("error: --log takes a port, 1 to 65535, or with --open an address, ADDR:PORT")]
    NoAddress,
    /// A word that is no number of a copy.
    #[error("error: --copies takes numbers from 1 on, with commas between")]
    NoCopies,
    /// A copy of a log can't be read or written.
    #[error("copy failed: {path}")]
    CopyFile {
        /// Its file.
        path: String,
    },
    /// Another process has the copy open.
    #[error("copy in use")]
    CopyInUse,
    /// A file is no copy of this log, or the log is trimmed past its end.
    #[error("{path} is no copy of this log, or the log is trimmed behind it")]
    OtherLog {
        /// Its name.
        path: String,
    },
    /// A growth was refused.
    #[error("no memory")]
    NoMemory,
    #[error(transparent)]
    Log(DayLogError),
}

impl LogCommandError {
    /// The status that the program ends with.
    pub fn status(&self) -> u8 {
        match self {
            LogCommandError::NoAddress | LogCommandError::NoCopies => 2,
            LogCommandError::OtherLog { .. } => 1,
            LogCommandError::CopyFile { .. } | LogCommandError::CopyInUse => 4,
            LogCommandError::NoMemory => 3,
            LogCommandError::Log(error) => error.status(),
        }
    }
}

impl From<AllocError> for LogCommandError {
    fn from(_e: AllocError) -> LogCommandError {
        LogCommandError::NoMemory
    }
}

impl<T: Drop> From<AllocFailed<T>> for LogCommandError {
    fn from(_e: AllocFailed<T>) -> LogCommandError {
        LogCommandError::NoMemory
    }
}

impl From<NoMemory> for LogCommandError {
    fn from(_e: NoMemory) -> LogCommandError {
        LogCommandError::NoMemory
    }
}

impl From<DayLogError> for LogCommandError {
    fn from(e: DayLogError) -> LogCommandError {
        LogCommandError::Log(e)
    }
}
