//! Why a connection ended before its login.

use std::fmt;
use std::fmt::{Display, Formatter};

/// Why a connection ended before its login.
#[derive(Clone, Copy, Debug, PartialEq, Eq)]
pub enum Left {
    /// It was closed at its other end.
    Gone,
    /// It sent something else than a login.
    NoLogin,
    /// It did not log in within its time.
    Late,
    /// No session slot was free within its time.
    NoSlot,
    /// More connections came than may be pending.
    Crowded,
    /// More connections of its address were there than there may be.
    TooMany,
    /// Logins of its address failed, and its time was over before the back-off after them.
    Paused,
    /// The day was over.
    DayEnd,
}

impl Display for Left {
    fn fmt<W: fmt::Write>(&self, f: &mut Formatter<W>) -> fmt::Result {
        f.write_str(match self {
            Left::Gone => "gone before its login",
            Left::NoLogin => "no login",
            Left::Late => "no login in time",
            Left::NoSlot => "no place is free",
            Left::Crowded => "too many wait at the door",
            Left::TooMany => "too many of one address",
            Left::Paused => "logins of its address failed",
            Left::DayEnd => "the day is over",
        })
    }
}
