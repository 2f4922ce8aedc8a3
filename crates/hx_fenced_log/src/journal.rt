//! The journal of an exchange over a log, and the standby that reads the log and takes over.

mod follower;
mod log_journal;

pub use follower::Follower;
pub use log_journal::LogJournal;
