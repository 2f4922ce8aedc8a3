//! A log of records in an etcd of several nodes.
//!
//! What stands in the log is *defined* by what was noted: the records that answers have reported to stand there,
//! numbered from 1 on without a gap, each taken when it was first reported. A note costs nothing when the program runs.
//! So what `Log` demands holds whatever the nodes answer. Trusted, and not proved:
//!
//! - What one answer reports stands in etcd for good, or in its copies once it is trimmed, and every client gets the
//! same:
//!   etcd's transactions and reads are linearizable, and nobody writes over a key, or deletes one but by
//!   `Copies::trim`.
//! - A copy that a log begins with is one of this log.
//! - A node whose connection did not open took no byte of the request.
#![tactic(auto)]

mod appending;
mod asking;
mod copied;
mod finding;
mod heartbeats;
mod log;
mod nodes;
mod noted;
mod pages;
mod reading;
mod reported;
mod sockets;
mod trimming;
mod turns;

pub use copied::{CopiedLog, PageError, Pages};
pub use heartbeats::Heartbeats;
pub use log::EtcdLog;
pub use nodes::{AskError, Nodes};
pub use pages::TextPages;
pub use sockets::TcpNodes;
pub use trimming::{Copies, trim_index};
