//! Why a day does not go on from its log.

use hx_desk::DeskError;
use hx_fenced_log::{KeepError, LogError};
use hx_journal::JournalError;
use hx_recovery::RecoveryError;
use std::alloc::{AllocError, AllocFailed};
use thiserror::Error;

/// Why a day does not go on from its log.
#[derive(Clone, Copy, Debug, PartialEq, Eq, Drop, Error)]
pub enum DayLogError {
    /// A record of it is no event.
    #[error("log record {record} is no event")]
    NoEvent {
        /// Its number among the lines that count, from 1.
        record: u64,
    },
    /// The market refuses an event of it: the setup is not the one that the day was recorded under.
    #[error(transparent)]
    Refused(DeskError),
    /// What stands at this number is no record of it.
    #[error("log damaged at number {number}")]
    Damaged {
        /// The number.
        number: u64,
    },
    /// The journal beside it has a record that is not the log's.
    #[error("journal record {record} is not the log's")]
    OtherJournal {
        /// Its number, from 1.
        record: u64,
    },
    /// The journal beside it failed.
    #[error("journal failed")]
    JournalFailed,
    /// The record of this number is trimmed: only copies of the log have it still.
    #[error("log trimmed at number {number}: begin with a copy of it")]
    Trimmed {
        /// The number.
        number: u64,
    },
    /// The copy that the log begins with can't be read, or has something else where the record of this number is due.
    #[error("copy damaged at number {number}")]
    BadCopy {
        /// The number.
        number: u64,
    },
    /// No node of the log can be asked.
    #[error("log unreachable")]
    Unreachable,
    /// No answer came to a record that was sent: it may stand there, now or later.
    #[error("log failed")]
    Failed,
    /// Others write to it all the time.
    #[error("log in use")]
    InUse,
    /// The tape could not be written.
    #[error("write failed")]
    Write,
    /// A growth was refused.
    #[error("no memory")]
    NoMemory,
}

impl DayLogError {
    /// The status that the program ends with.
    pub fn status(&self) -> u8 {
        match self {
            DayLogError::NoEvent { .. }
            | DayLogError::Damaged { .. }
            | DayLogError::BadCopy { .. }
            | DayLogError::OtherJournal { .. } => 1,
            DayLogError::NoMemory => 3,
            DayLogError::JournalFailed
            | DayLogError::Unreachable
            | DayLogError::Refused(_)
            | DayLogError::Failed
            | DayLogError::InUse
            | DayLogError::Trimmed { .. }
            | DayLogError::Write => 4,
        }
    }
}

impl From<AllocError> for DayLogError {
    fn from(_e: AllocError) -> DayLogError {
        DayLogError::NoMemory
    }
}

impl<T: Drop> From<AllocFailed<T>> for DayLogError {
    fn from(_e: AllocFailed<T>) -> DayLogError {
        DayLogError::NoMemory
    }
}

impl From<JournalError> for DayLogError {
    fn from(e: JournalError) -> DayLogError {
        match e {
            JournalError::Memory => DayLogError::NoMemory,
            JournalError::NoRoom
            | JournalError::Failed
            | JournalError::Full
            | JournalError::Closed => DayLogError::JournalFailed,
        }
    }
}

impl From<LogError> for DayLogError {
    fn from(e: LogError) -> DayLogError {
        match e {
            LogError::NoMemory => DayLogError::NoMemory,
            LogError::NoRecord { number } => DayLogError::Damaged { number },
            LogError::Trimmed { number } => DayLogError::Trimmed { number },
            LogError::BadCopy { number } => DayLogError::BadCopy { number },
            LogError::Unreachable => DayLogError::Unreachable,
            LogError::Taken => DayLogError::InUse,
            LogError::Gap | LogError::Unknown => DayLogError::Failed,
        }
    }
}

impl From<KeepError> for DayLogError {
    fn from(e: KeepError) -> DayLogError {
        match e {
            KeepError::Log(error) => DayLogError::from(error),
            KeepError::NotActive | KeepError::NoHead | KeepError::Lines(_) => DayLogError::Failed,
        }
    }
}

impl From<DeskError> for DayLogError {
    fn from(e: DeskError) -> DayLogError {
        match e {
            DeskError::NoMemory => DayLogError::NoMemory,
            other => DayLogError::Refused(other),
        }
    }
}

impl From<RecoveryError> for DayLogError {
    fn from(e: RecoveryError) -> DayLogError {
        match e {
            RecoveryError::NoMemory => DayLogError::NoMemory,
            RecoveryError::NoEvent { record } => DayLogError::NoEvent { record },
            RecoveryError::Open(_) => DayLogError::Failed,
        }
    }
}
