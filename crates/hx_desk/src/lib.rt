//! The desk: the market with its history, the writer of its log, and the replies to each member.
//!
//! A desk is for one thread at a time; `hx_engine` puts it under a lock. An event is recorded whole or not at all: all
//! growths are made before anything changes.
#![tactic(auto)]

mod commit;
mod desk;
mod entry;
mod fault;
pub mod laws;
mod mark;
mod rows;

pub use desk::Desk;
pub use entry::{Done, Entry};
pub use fault::DeskError;
