//! Why a look at a journal, or a cut, ends without success.
ghost use Rattle.std.specs.Prelude.{◌≡◌};
ghost use Rattle.hx_journal_tool.specs.declared.fault.ToolError.TheVariants.{NoMemory as OutOfMemory};

use hx_journal::FileError;
use std::alloc::AllocError;
use std::io::ErrorKind;
use thiserror::Error;

/// Why a look at a journal, or a cut, ends without success. What was written stands.
#[derive(Clone, Copy, Debug, PartialEq, Eq, Drop, Error)]
pub enum ToolError {
    /// The file is not as the journal wrote it.
    #[error("damaged at byte {at}")]
    Damaged {
        /// The byte from which on it is not.
        at: usize,
    },
    /// The file does not begin as a journal does: it is not cut.
    #[error("no journal: not cut")]
    NoJournal,
    /// A growth was refused.
    #[error("no memory")]
    NoMemory,
    /// Another process has the journal open. Nothing was cut.
    #[error("journal in use")]
    InUse,
    /// The file could not be read.
    #[error("read failed")]
    Read,
    /// The output could not be written.
    #[error("write failed")]
    Write,
    /// The file could not be cut, or the cut not brought to the disk: it may be cut or not.
    #[error("journal failed")]
    Journal,
}

impl ToolError {
    /// The status that the program ends with.
    pub fn status(&self) -> u8 {
        match self {
            ToolError::Damaged { .. } | ToolError::NoJournal => 1,
            ToolError::NoMemory => 3,
            ToolError::InUse | ToolError::Read | ToolError::Write | ToolError::Journal => 4,
        }
    }
}

impl From<AllocError> for ToolError {
    ghost from_gives = { λ _ e. e ≡ OutOfMemory };

    fn from(_error: AllocError) -> ToolError {
        ToolError::NoMemory
    }
}

impl From<std::io::Error> for ToolError {
    fn from(error: std::io::Error) -> ToolError {
        match error.kind() {
            ErrorKind::OutOfMemory => ToolError::NoMemory,
            _ => ToolError::Read,
        }
    }
}

impl From<FileError> for ToolError {
    fn from(error: FileError) -> ToolError {
        match error {
            FileError::InUse => ToolError::InUse,
            FileError::Io(error) => ToolError::from(error),
        }
    }
}
