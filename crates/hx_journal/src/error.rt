//! Why a call of a journal did nothing that counts.
ghost use Rattle.std.specs.Prelude.{◌≡◌};
ghost use Rattle.hx_journal.specs.Errors.{error_of};
ghost use Rattle.hx_journal.specs.declared.error.JournalError.TheVariants.{Memory};

use crate::DeviceError;
use std::alloc::{AllocError, AllocFailed};

/// Why a call of a journal did nothing, or nothing that is acknowledged.
#[derive(Clone, Copy, Debug, PartialEq, Eq, Drop)]
pub enum JournalError {
    /// Memory lacks. After `append` the journal is as it was.
    Memory,
    /// The disk is full. The journal refuses everything from then on: make room, and open the file
    /// again.
    NoRoom,
    /// The device failed. The journal refuses everything from then on: open the file again.
    Failed,
    /// The file would get longer than 2^62 bytes. The journal is as it was.
    Full,
    /// The device has failed before: open the file again.
    Closed,
}

impl From<AllocError> for JournalError {
    ghost from_gives = { λ _ e. e ≡ Memory };

    fn from(_error: AllocError) -> Self {
        JournalError::Memory
    }
}

impl<T: Drop> From<AllocFailed<T>> for JournalError {
    ghost from_gives = { λ _ e. e ≡ Memory };

    fn from(_error: AllocFailed<T>) -> Self {
        JournalError::Memory
    }
}

impl From<DeviceError> for JournalError {
    ghost from_gives = { λ d e. e ≡ error_of d };

    fn from(error: DeviceError) -> Self {
        match error {
            DeviceError::Memory => JournalError::Memory,
            DeviceError::NoRoom => JournalError::NoRoom,
            DeviceError::Failed => JournalError::Failed,
        }
    }
}
