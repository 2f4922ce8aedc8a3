//! Why acceptors could not be opened, or no connection taken.
ghost use Rattle.std.specs.Prelude.{◌≡◌};
ghost use Rattle.hx_listener.specs.declared.fault.AcceptorsError.TheVariants.{NoMemory as OutOfMemory};

use std::alloc::AllocFailed;
use std::io;
use std::io::ErrorKind;
use thiserror::Error;

/// Why acceptors could not be opened, or no connection taken.
#[derive(Clone, Copy, Debug, PartialEq, Eq, Error)]
pub enum AcceptorsError {
    /// A growth was refused.
    #[error("no memory")]
    NoMemory,
    /// A socket failed.
    #[error("network failed")]
    Network,
}

impl AcceptorsError {
    /// What an error of a socket is.
    pub fn of(error: &io::Error) -> AcceptorsError {
        if error.kind() == ErrorKind::OutOfMemory {
            return AcceptorsError::NoMemory;
        }
        AcceptorsError::Network
    }
}

impl<T: Drop> From<AllocFailed<T>> for AcceptorsError {
    ghost from_gives = { λ _ e. e ≡ OutOfMemory };

    fn from(_error: AllocFailed<T>) -> AcceptorsError {
        AcceptorsError::NoMemory
    }
}
