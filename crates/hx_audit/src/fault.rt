//! Why a history is not audited.
ghost use Rattle.std.specs.Prelude.{◌≡◌};
ghost use Rattle.hx_audit.specs.declared.fault.StrikeError.TheVariants.{NoMemory as OutOfMemory};

use hx_market::PrepareError;
use hx_units::{NoMemory, Token};
use std::alloc::{AllocError, AllocFailed};
use thiserror::Error;

/// Why a history is not audited.
#[derive(Clone, Copy, Debug, PartialEq, Eq, Drop, Error)]
pub enum StrikeError {
    /// A growth was refused.
    #[error("no memory")]
    NoMemory,
    /// The market accepts all events before this one, and refuses it.
    #[error("event {index} refused: {error}")]
    Refused {
        /// The event's index, from 0.
        index: u64,
        /// Why: `BadTime`, `NoMember` or `Limit`.
        error: PrepareError,
    },
    /// The first listed token that is not one of the member's quiet tokens. It comes from `strike_chains` alone.
    #[error("a listed token is not quiet")]
    NotQuiet {
        /// The token.
        token: Token,
    },
}

impl From<NoMemory> for StrikeError {
    ghost from_gives = { λ _ e. e ≡ OutOfMemory };

    fn from(_error: NoMemory) -> StrikeError {
        StrikeError::NoMemory
    }
}

impl From<AllocError> for StrikeError {
    ghost from_gives = { λ _ e. e ≡ OutOfMemory };

    fn from(_error: AllocError) -> StrikeError {
        StrikeError::NoMemory
    }
}

impl<T: Drop> From<AllocFailed<T>> for StrikeError {
    ghost from_gives = { λ _ e. e ≡ OutOfMemory };

    fn from(_error: AllocFailed<T>) -> StrikeError {
        StrikeError::NoMemory
    }
}
