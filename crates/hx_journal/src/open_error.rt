//! Why a journal is not opened.
ghost use Rattle.std.specs.Prelude.{◌≡◌};
ghost use Rattle.hx_journal.specs.declared.error.JournalError.TheVariants.{Memory};
ghost use Rattle.hx_journal.specs.declared.open_error.OpenError.TheVariants.{Journal};

use crate::{HeadPart, JournalError};
use std::alloc::{AllocError, AllocFailed};

/// Why a journal is not opened.
#[derive(Clone, Copy, Debug, PartialEq, Eq, Drop)]
pub enum OpenError {
    /// Memory lacks, or the device failed: open the file again.
    Journal(JournalError),
    /// The file is not as the journal wrote it: the block whose first byte is at this offset, or
    /// what stands after the last whole block from there on. Nothing was written.
    Damaged { at: usize },
    /// The journal is that of another session, day or setup. Nothing was written.
    OtherHead(HeadPart),
}

impl From<AllocError> for OpenError {
    ghost from_gives = { λ _ e. e ≡ Journal Memory };

    fn from(_error: AllocError) -> Self {
        OpenError::Journal(JournalError::Memory)
    }
}

impl<T: Drop> From<AllocFailed<T>> for OpenError {
    ghost from_gives = { λ _ e. e ≡ Journal Memory };

    fn from(_error: AllocFailed<T>) -> Self {
        OpenError::Journal(JournalError::Memory)
    }
}

impl OpenError {
    ghost use Rattle.hx_journal.specs.Openings.{IsRefusal};

    /// The error at a first line that is not the one that is wanted: of another day by this part,
    /// or of none.
    pub(crate) fn of_head(part: Option<HeadPart>) -> OpenError
        ensures { IsRefusal result }
    {
        match part {
            Some(part) => OpenError::OtherHead(part),
            None => OpenError::Damaged { at: 0 },
        }
    }
}
