//! Replays a tape with two threads: one applies its lines, the other reads lines ahead and writes the output of those
//! before.
#![tactic(auto)]

mod batch;
mod decoding;
mod io_thread;
mod market_thread;
mod replaying_ahead;
mod two_threads;

pub use replaying_ahead::replay_ahead;
