//! The journal of a day: records, each durable before it is published, many of them with one write
//! and one sync (group commit). The file is text, and a record is a line. What a crash leaves is a
//! beginning of the records that were appended, with all that were synced.
//!
//! What a crash may leave of a file is what `hx_disk` says of a `Device`. Against what that leaves
//! out there are only the sums of the blocks: they find most damage, and the journal is then not
//! opened.
#![tactic(auto)]

mod blocks;
mod cutting;
mod error;
mod file_journal;
mod head;
mod head_parts;
mod journal;
mod line_file;
mod mark;
mod measure;
mod null_journal;
mod open_error;
mod opening;
mod sum;
mod surveying;
mod tape;

pub use cutting::cut_off;
pub use error::JournalError;
pub use file_journal::FileJournal;
pub use head::{Head, HeadError, HeadPart};
pub use head_parts::HeadParts;
pub use hx_disk::{
    CallLog, Device, DeviceError, FileError, HostFile, MemoryFile, Noted, RawFile, open_file,
};
pub use journal::Journal;
pub use line_file::push_line;
pub use null_journal::NullJournal;
pub use open_error::OpenError;
pub use surveying::{Survey, survey_of};
