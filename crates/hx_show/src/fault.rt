//! Why a text was not shown to its end.

use hx_units::{NoMemory, WriteFailed};
use std::alloc::{AllocError, AllocFailed};
use thiserror::Error;

/// Why a text was not shown to its end. What was written stands.
#[derive(Clone, Copy, Debug, PartialEq, Eq, Drop, Error)]
pub enum ShowError {
    /// A growth was refused.
    #[error("no memory")]
    NoMemory,
    /// The reader failed.
    #[error("read failed")]
    Read,
    /// The writer failed.
    #[error("write failed")]
    Write,
}

impl From<AllocError> for ShowError {
    fn from(_error: AllocError) -> ShowError {
        ShowError::NoMemory
    }
}

impl<T: Drop> From<AllocFailed<T>> for ShowError {
    fn from(_error: AllocFailed<T>) -> ShowError {
        ShowError::NoMemory
    }
}

impl From<NoMemory> for ShowError {
    fn from(_error: NoMemory) -> ShowError {
        ShowError::NoMemory
    }
}

impl From<WriteFailed> for ShowError {
    fn from(_error: WriteFailed) -> ShowError {
        ShowError::Write
    }
}
