//! The operator of a served day: an operator's words, a schedule that speaks for the operator, the
//! socket on which a server reads the words, and its client.
#![tactic(auto)]

mod answers;
mod client;
mod command;
mod entry;
mod events;
mod fault;
mod marks;
mod names;
mod peer;
mod schedule;
mod socket;
mod times;
mod words;

pub use answers::{Answer, end_answer, read_answer};
pub use client::{OperateError, operate};
pub use command::{Command, HELP};
pub use entry::{Entry, Wrong};
pub use events::events_of;
pub use fault::WordError;
pub use peer::{Directed, LONGEST};
pub use schedule::{Schedule, ScheduleError, read_schedule};
pub use socket::{OperatorSocket, SocketError};
pub use words::{note_of, read_command};
