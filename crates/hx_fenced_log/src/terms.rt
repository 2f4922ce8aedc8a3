//! The records of a log that several append to, of whom one at a time counts, and the one rule by which every reader
//! knows which of them count.
//!
//! A record names its term (a fencing token), its writer and the index of its first line. A writer that takes over
//! appends an empty record of the next term. From then on the records of the terms before it are passed over, by every
//! reader alike, whenever they come.

mod copy;
mod head;
mod lines;
mod reading;
mod record;
mod text;

pub use copy::{RecordsError, WholeRecords, read_records};
pub use head::Head;
pub use reading::{Reading, Verdict};
pub use record::{LogRecord, RecordError};
pub use text::{TextError, read_record};
