//! Why a day does not go on from its journal.

use hx_journal::{FileError, HeadError, HeadPart, JournalError, OpenError};
use hx_recovery::RecoveryError;
use std::alloc::{AllocError, AllocFailed};
use std::io;
use std::io::ErrorKind;
use thiserror::Error;

/// Why a day does not go on from its journal. Nothing was written then, but for a disk that failed meanwhile.
#[derive(Debug, Drop, Error)]
pub enum DayJournalError {
    /// Another process has the file.
    #[error("journal in use")]
    InUse,
    /// The journal is of another session.
    #[error("journal of another session")]
    OtherSession,
    /// It is of another day.
    #[error("journal of another day: name a new file, or end that day with --day")]
    OtherDay,
    /// It is of another setup.
    #[error("journal of another setup")]
    OtherSetup,
    /// It is not as it was written, at this byte, or from there on.
    #[error("journal damaged at byte {at}")]
    Damaged {
        /// The byte, counted from 0.
        at: usize,
    },
    /// A record of it is no event.
    #[error("journal record {record} is no event")]
    NoEvent {
        /// Its number, counted from 1.
        record: u64,
    },
    /// The file or its disk failed.
    #[error("journal failed")]
    Failed,
    /// The disk has no room for the first line.
    #[error("journal full")]
    NoRoom,
    /// A growth was refused.
    #[error("no memory")]
    NoMemory,
}

impl DayJournalError {
    /// The status that the program ends with.
    pub fn status(&self) -> u8 {
        match self {
            DayJournalError::OtherSession
            | DayJournalError::OtherDay
            | DayJournalError::OtherSetup
            | DayJournalError::Damaged { .. }
            | DayJournalError::NoEvent { .. } => 1,
            DayJournalError::NoMemory => 3,
            DayJournalError::InUse | DayJournalError::Failed | DayJournalError::NoRoom => 4,
        }
    }
}

impl From<AllocError> for DayJournalError {
    fn from(_e: AllocError) -> DayJournalError {
        DayJournalError::NoMemory
    }
}

impl<T: Drop> From<AllocFailed<T>> for DayJournalError {
    fn from(_e: AllocFailed<T>) -> DayJournalError {
        DayJournalError::NoMemory
    }
}

impl From<FileError> for DayJournalError {
    fn from(e: FileError) -> DayJournalError {
        match e {
            FileError::InUse => DayJournalError::InUse,
            FileError::Io(error) => fault_of(&error),
        }
    }
}

// The fault of a call of the file.
fn fault_of(error: &io::Error) -> DayJournalError {
    match error.kind() {
        ErrorKind::OutOfMemory => DayJournalError::NoMemory,
        ErrorKind::StorageFull | ErrorKind::QuotaExceeded => DayJournalError::NoRoom,
        _ => DayJournalError::Failed,
    }
}

impl From<HeadError> for DayJournalError {
    fn from(e: HeadError) -> DayJournalError {
        match e {
            HeadError::Memory => DayJournalError::NoMemory,
            HeadError::NoWord => DayJournalError::OtherSession,
        }
    }
}

impl From<RecoveryError> for DayJournalError {
    fn from(e: RecoveryError) -> DayJournalError {
        match e {
            RecoveryError::NoMemory => DayJournalError::NoMemory,
            RecoveryError::NoEvent { record } => DayJournalError::NoEvent { record },
            RecoveryError::Open(error) => of_open(error),
        }
    }
}

// The fault of a journal that is not opened.
fn of_open(error: OpenError) -> DayJournalError {
    match error {
        OpenError::Damaged { at } => DayJournalError::Damaged { at },
        OpenError::OtherHead(HeadPart::Session) => DayJournalError::OtherSession,
        OpenError::OtherHead(HeadPart::Day) => DayJournalError::OtherDay,
        OpenError::OtherHead(HeadPart::Setup) => DayJournalError::OtherSetup,
        OpenError::Journal(JournalError::Memory) => DayJournalError::NoMemory,
        OpenError::Journal(JournalError::NoRoom) => DayJournalError::NoRoom,
        OpenError::Journal(JournalError::Failed | JournalError::Full | JournalError::Closed) =>
            DayJournalError::Failed,
    }
}
