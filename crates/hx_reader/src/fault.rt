//! Why a message is not applied to a book.
ghost use Rattle.std.specs.Prelude.{◌≡◌};
ghost use Rattle.hx_reader.specs.declared.fault.ApplyError.TheVariants as errors;

use std::alloc::AllocError;
use thiserror::Error;

/// Why a message was not applied. The book is as it was.
#[derive(Clone, Copy, Debug, PartialEq, Eq, Drop, Error)]
pub enum ApplyError {
    /// It names an order that is not in the book: the feed is no venue's.
    #[error("the message names an order that is not in the book")]
    Unknown,
    /// It adds an order under a reference that is in the book: the feed is no venue's.
    #[error("the message adds an order that is in the book")]
    Known,
    /// It takes more shares off an order than are open: the feed is no venue's.
    #[error("the message takes more shares than are open")]
    TooMany,
    /// A growth was refused, or a number of the book would pass 64 bits.
    #[error("no memory")]
    NoMemory,
}

/// Why a step of a screen hands out no message. The book is as it was.
#[derive(Clone, Copy, Debug, PartialEq, Eq, Drop, Error)]
pub enum ScreenError {
    /// The bytes are no message of TotalView-ITCH 5.0: they are passed over.
    #[error("the bytes are no message")]
    Unreadable,
    /// The message was not applied: if there is no memory it stays the next one, else it is passed over.
    #[error(transparent)]
    Apply(ApplyError),
}

impl From<AllocError> for ApplyError {
    ghost from_gives = { λ _ e. e ≡ errors.NoMemory };

    fn from(_error: AllocError) -> ApplyError {
        ApplyError::NoMemory
    }
}

impl From<hx_units::NoMemory> for ApplyError {
    ghost from_gives = { λ _ e. e ≡ errors.NoMemory };

    fn from(_error: hx_units::NoMemory) -> ApplyError {
        ApplyError::NoMemory
    }
}
