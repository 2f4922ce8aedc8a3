//! Why a log does not do what it is asked.
ghost use Rattle.std.specs.Prelude.{◌≡◌};
ghost use Rattle.hx_fenced_log.specs.declared.log.error.LogError.TheVariants.{NoMemory};

use crate::RecordError;
use hx_units::NoMemory;
use std::alloc::{AllocError, AllocFailed};

/// Why a log does not append a record, or gives none.
#[derive(Clone, Copy, Debug, PartialEq, Eq, Drop)]
pub enum LogError {
    /// A record of this number stands there.
    Taken,
    /// No record of the number before stands there.
    Gap,
    /// No answer came: the record may stand there, now or later.
    Unknown,
    /// The log can't be asked. The record does not stand there.
    Unreachable,
    /// What the log has at a number is no record of this number.
    NoRecord {
        /// The number.
        number: u64,
    },
    /// A record of this number stood there, and only copies of the log have it still. Nothing is appended or read.
    Trimmed {
        /// The number.
        number: u64,
    },
    /// The copy that a reader begins with can't be read, or has something else where the record of this number is due.
    BadCopy {
        /// The number.
        number: u64,
    },
    /// A growth was refused. The record does not stand there.
    NoMemory,
}

impl From<NoMemory> for LogError {
    ghost from_gives = { λ _ e. e ≡ NoMemory };

    fn from(_error: NoMemory) -> LogError {
        LogError::NoMemory
    }
}

impl From<AllocError> for LogError {
    ghost from_gives = { λ _ e. e ≡ NoMemory };

    fn from(_error: AllocError) -> LogError {
        LogError::NoMemory
    }
}

impl<T: Drop> From<AllocFailed<T>> for LogError {
    ghost from_gives = { λ _ e. e ≡ NoMemory };

    fn from(_error: AllocFailed<T>) -> LogError {
        LogError::NoMemory
    }
}

/// Why `keep` or `take_over` of a writer fails.
#[derive(Clone, Copy, Debug, PartialEq, Eq, Drop)]
pub enum KeepError {
    /// Another writer's term stands, or none.
    NotActive,
    /// No record of a log may have the next head: the numbers are used up, or the writer is 0.
    NoHead,
    /// These are no lines of a record.
    Lines(RecordError),
    /// The log did not append the record, or did not say so. Follow it, to see what stands there.
    Log(LogError),
}
