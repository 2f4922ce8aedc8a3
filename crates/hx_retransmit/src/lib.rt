//! A publisher of numbered messages in MoldUDP64 packets, and a server of requests for them, over any list
//! of messages that may grow.
//!
//! Only the calls named `append` take memory.
#![tactic(auto)]

pub mod laws;
mod list;
mod log;
mod publisher;
mod server;

pub use list::ListMessages;
pub use log::LogMessages;
pub use publisher::Publisher;
pub use server::Server;
