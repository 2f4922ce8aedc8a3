//! How a session ends.
use hx_engine::DeskError;
use thiserror::Error;

/// Why a session ended without a fault.
#[derive(Clone, Copy, Debug, PartialEq, Eq)]
pub enum Ended {
    /// The client logged out.
    Logout,
    /// The input ended.
    ReaderEnd,
    /// The day is over and all replies were sent.
    DayEnd,
}

/// Why a session ended with a fault.
#[derive(Debug, Drop, Error)]
pub enum Fault {
    /// The input failed.
    #[error("read failed")]
    Read,
    /// The output failed.
    #[error("write failed")]
    Write,
    /// The client broke the protocol.
    #[error("protocol broken")]
    Framing,
    /// The login was rejected.
    #[error("login rejected")]
    NotAuthorized {
        /// The letter of the rejection.
        reason: u8,
    },
    /// There was no memory for a growth, or no thread.
    #[error("no memory")]
    NoMemory,
    /// All reads, or all turns of the output, are used up.
    #[error("too many turns")]
    Turns,
    /// The exchange refused a message.
    #[error("{0}")]
    Refused(DeskError),
    /// The exchange's journal failed: nothing more is published.
    #[error("the journal failed")]
    Stopped,
}

/// Why a direction stopped.
#[derive(Drop)]
pub enum Stop {
    /// The other direction has ended.
    PeerStopped,
    /// It ended by itself.
    Ended(Ended),
    /// A fault.
    Faulted(Fault),
}
