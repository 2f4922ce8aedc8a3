//! Why a day ended with a fault.
ghost use Rattle.std.specs.Prelude.{◌≡◌};
ghost use Rattle.hx_serve.specs.declared.fault.ServeError.TheVariants.{NoMemory as OutOfMemory};

use hx_listener::AcceptorsError;
use hx_tape_lines::Kind;
use hx_units::NoMemory;
use std::alloc::{AllocError, AllocFailed};
use thiserror::Error;

/// Why a day ended with a fault.
#[derive(Clone, Copy, Debug, PartialEq, Eq, Error)]
pub enum ServeError {
    /// A line of the operator that is none, or that the market refused.
    #[error("line {line}: {kind}")]
    Line {
        /// Its number, counted from 1.
        line: u64,
        /// What is wrong with it.
        kind: Kind,
    },
    /// A growth was refused.
    #[error("no memory")]
    NoMemory,
    /// The operator's input failed.
    #[error("read failed")]
    Read,
    /// The output failed.
    #[error("write failed")]
    Write,
    /// A socket failed.
    #[error("network failed")]
    Network,
    /// The journal failed: nothing more is published.
    #[error("journal failed")]
    Journal,
    /// The log has too little room left for the feed of an operator's line.
    #[error("feed full")]
    Full,
    /// The file that the history would go to is there: it is not touched.
    #[error("write failed: the file of the history is there, and is never written over")]
    HistoryIsThere,
    /// All reads of the operator's input are used up.
    #[error("too many reads")]
    Turns,
}

impl From<AllocError> for ServeError {
    ghost from_gives = { λ _ e. e ≡ OutOfMemory };

    fn from(_error: AllocError) -> ServeError {
        ServeError::NoMemory
    }
}

impl<T: Drop> From<AllocFailed<T>> for ServeError {
    ghost from_gives = { λ _ e. e ≡ OutOfMemory };

    fn from(_error: AllocFailed<T>) -> ServeError {
        ServeError::NoMemory
    }
}

impl From<NoMemory> for ServeError {
    ghost from_gives = { λ _ e. e ≡ OutOfMemory };

    fn from(_error: NoMemory) -> ServeError {
        ServeError::NoMemory
    }
}

impl From<AcceptorsError> for ServeError {
    fn from(error: AcceptorsError) -> ServeError {
        match error {
            AcceptorsError::NoMemory => ServeError::NoMemory,
            AcceptorsError::Network => ServeError::Network,
        }
    }
}
