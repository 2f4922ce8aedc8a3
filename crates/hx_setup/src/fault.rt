//! Why a text is no setup.
ghost use Rattle.std.specs.Prelude.{◌≡◌};
ghost use Rattle.hx_setup.specs.declared.fault.SetupError.TheVariants.{NoMemory as OutOfMemory};

use hx_units::NoMemory;
use thiserror::Error;

/// Why a setup was not read.
#[derive(Clone, Copy, Debug, PartialEq, Eq, Drop, Error)]
pub enum SetupError {
    /// The first line that does not fit.
    #[error("setup line {line}: bad line")]
    Bad {
        /// Its number, counted from 1. A missing line has the number that it would have.
        line: u64,
    },
    /// A growth was refused.
    #[error("no memory")]
    NoMemory,
}

impl From<NoMemory> for SetupError {
    ghost from_gives = { λ _ e. e ≡ OutOfMemory };

    fn from(_error: NoMemory) -> SetupError {
        SetupError::NoMemory
    }
}
