//! Entries of a history.

use hx_market::Event;

/// An entry of a history: an event, and the number of the pass that sent it.
#[derive(Drop)]
pub struct Entry {
    /// The pass, from 1.
    pub pass: u16,
    /// The event.
    pub event: Event,
}

/// The answer for a recorded event: its position in the history, and its messages of the feed.
#[derive(Clone, Copy, Debug, PartialEq, Eq)]
pub struct Done {
    /// Its position in the history, from 1.
    pub place: u64,
    /// The number, from 1, of its first message of the feed; if it has none, of the next message to come.
    pub first: u64,
    /// The number of its messages of the feed.
    pub count: u64,
}
