//! Why a tape was not replayed to its end.
ghost use Rattle.std.specs.Prelude.{◌≡◌};
ghost use Rattle.hx_replay.specs.declared.fault.TapeError.TheVariants.{NoMemory as OutOfMemory, Write as NotWritten};

use hx_tape_lines::Kind;
use hx_units::{NoMemory, WriteFailed};
use std::alloc::{AllocError, AllocFailed};
use thiserror::Error;

/// Why a tape was not replayed to its end. What was written stands.
#[derive(Debug, Drop, Error)]
pub enum TapeError {
    /// The first line that fails a check.
    #[error("line {line}: {kind}")]
    Line {
        /// Its number, counted from 1.
        line: u64,
        /// What is wrong with it.
        kind: Kind,
    },
    /// A growth was refused.
    #[error("no memory")]
    NoMemory,
    /// The reader failed.
    #[error("read failed")]
    Read,
    /// The writer failed.
    #[error("write failed")]
    Write,
    /// All reads are used up, or all numbers of lines.
    #[error("too many reads")]
    Turns,
}

impl From<AllocError> for TapeError {
    ghost from_gives = { λ _ e. e ≡ OutOfMemory };

    fn from(_error: AllocError) -> TapeError {
        TapeError::NoMemory
    }
}

impl<T: Drop> From<AllocFailed<T>> for TapeError {
    ghost from_gives = { λ _ e. e ≡ OutOfMemory };

    fn from(_error: AllocFailed<T>) -> TapeError {
        TapeError::NoMemory
    }
}

impl From<NoMemory> for TapeError {
    ghost from_gives = { λ _ e. e ≡ OutOfMemory };

    fn from(_error: NoMemory) -> TapeError {
        TapeError::NoMemory
    }
}

impl From<WriteFailed> for TapeError {
    ghost from_gives = { λ _ e. e ≡ NotWritten };

    fn from(_error: WriteFailed) -> TapeError {
        TapeError::Write
    }
}
