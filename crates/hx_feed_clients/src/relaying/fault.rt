//! Why a relay ends with a fault.

use crate::datagrams::CannotRead;
use hx_units::NoMemory;
use std::alloc::AllocError;
use thiserror::Error;

/// Why a relay ends with a fault.
#[derive(Clone, Copy, Debug, PartialEq, Eq, Drop, Error)]
pub enum RelayError {
    /// A growth was refused.
    #[error("no memory")]
    NoMemory,
    /// A socket could not be bound or read.
    #[error("network failed")]
    Network,
}

impl From<AllocError> for RelayError {
    fn from(_error: AllocError) -> RelayError {
        RelayError::NoMemory
    }
}

impl From<NoMemory> for RelayError {
    fn from(_error: NoMemory) -> RelayError {
        RelayError::NoMemory
    }
}

impl From<CannotRead> for RelayError {
    fn from(_error: CannotRead) -> RelayError {
        RelayError::Network
    }
}
