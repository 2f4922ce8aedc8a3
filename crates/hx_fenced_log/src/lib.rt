//! A log with fencing: several append to it, and of one at a time the records count. Its records and the rule of which
//! count; the log as a client sees it, a writer of it, and a log in memory; the journal of an exchange over it, and the
//! standby that takes over; and a journal with a mirror.
#![tactic(auto)]

mod journal;
pub mod laws;
mod log;
mod mirror;
mod terms;

pub use journal::{Follower, LogJournal};
pub use log::{KeepError, Log, LogError, LogWriter, MemoryLog};
pub use mirror::MirroredJournal;
pub use terms::{
    Head, LogRecord, Reading, RecordError, RecordsError, TextError, Verdict, WholeRecords,
    read_record, read_records,
};
