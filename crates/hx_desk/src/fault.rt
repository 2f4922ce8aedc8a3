//! Why a desk refuses an event.
ghost use Rattle.std.specs.Prelude.{◌≡◌};
ghost use Rattle.hx_desk.specs.Faults.{fault_of};
ghost use Rattle.hx_desk.specs.declared.fault.DeskError.TheVariants.{NoMemory as OutOfMemory};

use hx_market::PrepareError;
use hx_units::NoMemory;
use thiserror::Error;

/// Why a desk refuses an event. The checks come in the order `BadTime`, `NoMember`, `Limit`, and then `NoMemory` or
/// `Full`, whichever is met first.
#[derive(Clone, Copy, Debug, PartialEq, Eq, Drop, Error)]
pub enum DeskError {
    /// There is no memory for a growth.
    #[error("no memory")]
    NoMemory,
    /// The log has fewer free slots than the event has messages of the feed.
    #[error("{free} slots are free, {needed} are needed")]
    Full {
        /// The number of free slots.
        free: u64,
        /// The number of the event's messages of the feed.
        needed: u64,
    },
    /// Under this number, the member's or 0 for the operator, the limit of recorded events is reached.
    #[error("member {member} at limit")]
    Limit {
        /// The number.
        member: u16,
    },
    /// The setup has no such member.
    #[error("no such member")]
    NoMember,
    /// The time is not within the day.
    #[error("bad time")]
    BadTime,
}

impl From<NoMemory> for DeskError {
    ghost from_gives = { λ _ e. e ≡ OutOfMemory };

    fn from(_error: NoMemory) -> DeskError {
        DeskError::NoMemory
    }
}

impl From<PrepareError> for DeskError {
    ghost from_gives = { λ p e. e ≡ fault_of p };

    fn from(error: PrepareError) -> DeskError {
        match error {
            PrepareError::NoMemory => DeskError::NoMemory,
            PrepareError::Limit { member } => DeskError::Limit { member },
            PrepareError::NoMember => DeskError::NoMember,
            PrepareError::BadTime => DeskError::BadTime,
        }
    }
}
