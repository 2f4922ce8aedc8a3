//! The journal of a served day as an operator meets it: a file that waits for room, of one session, day and setup.
#![tactic(auto)]

mod date;
mod digest;
mod fault;
mod file;
mod opening;

pub use date::{date_of, day_of};
pub use digest::digest_of;
pub use fault::DayJournalError;
pub use file::{PatientFile, Syncs};
pub use opening::{DayFile, Wanted, last_time, open_journal};
