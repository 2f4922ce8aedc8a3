//! Wakers: the thread that serves a connection sleeps until bytes come, or until another thread wakes it since there is
//! something to send.
#![tactic(auto)]

mod listeners;
mod source;
mod waker;
mod wakers;

pub use source::Source;
pub use waker::Waker;
pub use wakers::Wakers;
