//! Why a command over tapes ends without success.

use hx_members::SetupError;
use hx_replay::TapeError;
use hx_show::ShowError;
use hx_units::NoMemory;
use std::alloc::AllocError;

/// Why a command over tapes ends without success. What was written stands.
#[derive(Debug, Drop, thiserror::Error)]
pub enum RunError {
    /// The command line, which `clap` has answered.
    #[error("")]
    CommandLine,
    /// A word of the command line that is no text, which `clap` does not take.
    #[error("error: invalid UTF-8 was detected in one or more arguments")]
    NoText,
    /// The text of the setup.
    #[error(transparent)]
    Setup(SetupError),
    /// The tape, or a growth, a read or a write that failed.
    #[error(transparent)]
    Tape(TapeError),
}

impl RunError {
    /// The status that the program ends with.
    pub fn status(&self) -> u8 {
        match self {
            RunError::CommandLine | RunError::NoText => 2,
            RunError::Setup(SetupError::Bad { .. }) | RunError::Tape(TapeError::Line { .. }) => 1,
            RunError::Setup(SetupError::NoMemory) | RunError::Tape(TapeError::NoMemory) => 3,
            RunError::Tape(TapeError::Read | TapeError::Write | TapeError::Turns) => 4,
        }
    }
}

impl From<AllocError> for RunError {
    fn from(_e: AllocError) -> RunError {
        RunError::Tape(TapeError::NoMemory)
    }
}

impl From<NoMemory> for RunError {
    fn from(_e: NoMemory) -> RunError {
        RunError::Tape(TapeError::NoMemory)
    }
}

impl From<TapeError> for RunError {
    fn from(e: TapeError) -> RunError {
        RunError::Tape(e)
    }
}

impl From<ShowError> for RunError {
    fn from(e: ShowError) -> RunError {
        RunError::Tape(match e {
            ShowError::NoMemory => TapeError::NoMemory,
            ShowError::Read => TapeError::Read,
            ShowError::Write => TapeError::Write,
        })
    }
}
