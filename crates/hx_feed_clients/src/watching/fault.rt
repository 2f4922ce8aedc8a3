//! Why a watch ends with a fault.

use crate::datagrams::CannotRead;
use hx_reader::ScreenError;
use hx_units::NoMemory;
use std::alloc::AllocError;
use thiserror::Error;

/// Why a watch ends with a fault.
#[derive(Clone, Copy, Debug, PartialEq, Eq, Drop, Error)]
pub enum WatchError {
    /// The feed is no venue's, from the message of this number on.
    #[error("message {number}: {fault}")]
    Screen {
        /// The number of the message.
        number: u64,
        /// What is wrong with it.
        fault: ScreenError,
    },
    /// A growth was refused.
    #[error("no memory")]
    NoMemory,
    /// A socket could not be bound, written or read.
    #[error("network failed")]
    Network,
    /// The output could not be written.
    #[error("write failed")]
    Write,
}

impl From<AllocError> for WatchError {
    fn from(_error: AllocError) -> WatchError {
        WatchError::NoMemory
    }
}

impl From<NoMemory> for WatchError {
    fn from(_error: NoMemory) -> WatchError {
        WatchError::NoMemory
    }
}

impl From<CannotRead> for WatchError {
    fn from(_error: CannotRead) -> WatchError {
        WatchError::Network
    }
}
