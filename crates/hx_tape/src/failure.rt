//! Why the program ends without success.

use hx_cli::RunError;
use hx_day_journal::DayJournalError;
use hx_day_log::DayLogError;
use hx_feed_clients::{RelayError, WatchError};
use hx_journal_tool::ToolError;
use hx_log_commands::LogCommandError;
use hx_operator::{OperateError, ScheduleError, SocketError};
use hx_serve::{ServeError, fault_of_resume};
use hx_units::NoMemory;
use std::alloc::{AllocError, AllocFailed};

/// Why the program ends without success.
#[derive(Debug, Drop, thiserror::Error)]
pub enum Failure {
    /// The feed would go to the port of requests.
    #[error("error: --feed and --requests are the same port")]
    SamePorts,
    /// A word that is neither a port nor an address, or an address of a day that is not open.
    #[error("error: {flag} takes a port, 1 to 65535, or with --open an address, ADDR:PORT")]
    NoAddress {
        /// The flag before it.
        flag: &'static str,
    },
    /// More addresses of the feed than there may be.
    #[error("error: --feed is given once, or with --open 16 times at most")]
    ManyFeeds,
    /// The file that the history would go to is there: it is not touched.
    #[error("write failed: {path} is there, and a history is never written over")]
    HistoryIsThere {
        /// Its name.
        path: String,
    },
    /// More sessions than a day that is not open has.
    #[error("error: --sessions is 1 to 63, or with --open 1 to 1000")]
    ManySessions,
    /// A word that is no drop copy.
    #[error("error: --drop-copy {word}: MEMBER=USER, of a member's number and the user of another one")]
    NoCopy {
        /// The word.
        word: String,
    },
    /// The metrics page could not be opened.
    #[error("network failed: --metrics")]
    NoMetrics,
    /// The page of a vendor's screen could not be opened.
    #[error("network failed: --web")]
    NoPage,
    /// The file of the schedule could not be read.
    #[error("read failed: --schedule")]
    NoSchedule,
    #[error(transparent)]
    Schedule(ScheduleError),
    #[error(transparent)]
    Socket(SocketError),
    #[error(transparent)]
    Operate(OperateError),
    /// A server refused its operator's words, and has said why.
    #[error("refused")]
    Refused,
    /// A feed that is relayed fell silent before its end, or some of it is missing.
    #[error("the end was not heard")]
    NoEnd,
    /// Another server has taken over.
    #[error("deposed")]
    Deposed,
    /// A growth was refused.
    #[error("no memory")]
    NoMemory,
    /// The day that is asked for.
    #[error("error: --day is no date YYYYMMDD")]
    NoDay,
    #[error(transparent)]
    Day(DayJournalError),
    #[error(transparent)]
    Log(DayLogError),
    #[error(transparent)]
    LogCommand(LogCommandError),
    #[error(transparent)]
    Run(RunError),
    #[error(transparent)]
    Serve(ServeError),
    #[error(transparent)]
    Watch(WatchError),
    #[error(transparent)]
    Journal(ToolError),
    #[error(transparent)]
    Relay(RelayError),
}

impl Failure {
    /// The status that the program ends with.
    pub fn status(&self) -> u8 {
        match self {
            Failure::SamePorts
            | Failure::NoAddress { .. }
            | Failure::ManyFeeds
            | Failure::ManySessions
            | Failure::NoCopy { .. }
            | Failure::NoDay => 2,
            Failure::Day(error) => error.status(),
            Failure::Log(error) => error.status(),
            Failure::LogCommand(error) => error.status(),
            Failure::Run(error) => error.status(),
            Failure::Serve(ServeError::Line { .. }) | Failure::Watch(WatchError::Screen { .. }) => {
                1
            }
            Failure::Serve(ServeError::NoMemory) | Failure::Watch(WatchError::NoMemory) => 3,
            Failure::HistoryIsThere { .. } => 4,
            Failure::Serve(
                ServeError::Read
                | ServeError::Write
                | ServeError::Network
                | ServeError::Full
                | ServeError::Journal
                | ServeError::HistoryIsThere
                | ServeError::Turns,
            ) => 4,
            Failure::Watch(WatchError::Network | WatchError::Write) => 4,
            Failure::Journal(error) => error.status(),
            Failure::NoMetrics | Failure::NoPage | Failure::NoSchedule => 4,
            Failure::Schedule(ScheduleError::Line { .. }) | Failure::Refused => 1,
            Failure::Schedule(ScheduleError::NoMemory)
            | Failure::Socket(SocketError::NoMemory)
            | Failure::NoMemory => 3,
            Failure::Socket(
                SocketError::InUse
                | SocketError::NoSocket
                | SocketError::Path
                | SocketError::Failed,
            ) => 4,
            Failure::Deposed => 5,
            Failure::NoEnd | Failure::Relay(RelayError::Network) => 4,
            Failure::Relay(RelayError::NoMemory) => 3,
            Failure::Operate(error) => error.status(),
        }
    }
}

impl From<AllocError> for Failure {
    fn from(e: AllocError) -> Failure {
        Failure::Run(RunError::from(e))
    }
}

impl<T: Drop> From<AllocFailed<T>> for Failure {
    fn from(e: AllocFailed<T>) -> Failure {
        Failure::from(AllocError::from(e))
    }
}

impl From<RelayError> for Failure {
    fn from(e: RelayError) -> Failure {
        Failure::Relay(e)
    }
}

impl From<DayJournalError> for Failure {
    fn from(e: DayJournalError) -> Failure {
        Failure::Day(e)
    }
}

impl From<DayLogError> for Failure {
    fn from(e: DayLogError) -> Failure {
        match e {
            DayLogError::Refused(error) => Failure::Serve(fault_of_resume(error)),
            other => Failure::Log(other),
        }
    }
}

impl From<LogCommandError> for Failure {
    fn from(e: LogCommandError) -> Failure {
        match e {
            LogCommandError::Log(error) => Failure::from(error),
            other => Failure::LogCommand(other),
        }
    }
}

impl From<NoMemory> for Failure {
    fn from(_e: NoMemory) -> Failure {
        Failure::NoMemory
    }
}

impl From<RunError> for Failure {
    fn from(e: RunError) -> Failure {
        Failure::Run(e)
    }
}

impl From<ServeError> for Failure {
    fn from(e: ServeError) -> Failure {
        Failure::Serve(e)
    }
}

impl From<WatchError> for Failure {
    fn from(e: WatchError) -> Failure {
        Failure::Watch(e)
    }
}

impl From<ToolError> for Failure {
    fn from(e: ToolError) -> Failure {
        Failure::Journal(e)
    }
}

impl From<ScheduleError> for Failure {
    fn from(e: ScheduleError) -> Failure {
        Failure::Schedule(e)
    }
}

impl From<SocketError> for Failure {
    fn from(e: SocketError) -> Failure {
        Failure::Socket(e)
    }
}

impl From<OperateError> for Failure {
    fn from(e: OperateError) -> Failure {
        Failure::Operate(e)
    }
}
