//! Why the market refuses an event.
ghost use Rattle.std.specs.Prelude.{◌≡◌};
ghost use Rattle.hx_rules.specs.declared.fault.PrepareError.TheVariants.{NoMemory as OutOfMemory};

use hx_units::NoMemory;
use thiserror::Error;

/// Why an event is refused. The checks come in the order `BadTime`, `NoMember`, `Limit`, `NoMemory`.
#[derive(Clone, Copy, Debug, PartialEq, Eq, Drop, Error)]
pub enum PrepareError {
    /// A growth was refused.
    #[error("no memory")]
    NoMemory,
    /// The limit of events recorded under this number is reached: the member's, or 0 for the operator.
    #[error("member {member} at limit")]
    Limit {
        /// The number.
        member: u16,
    },
    /// The setup has no such member.
    #[error("no such member")]
    NoMember,
    /// The time is not within the day.
    #[error("bad time")]
    BadTime,
}

impl From<NoMemory> for PrepareError {
    ghost from_gives = { λ _ e. e ≡ OutOfMemory };

    fn from(_error: NoMemory) -> PrepareError {
        PrepareError::NoMemory
    }
}
