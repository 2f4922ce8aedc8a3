//! Points in a history.

/// A point in the history, with the state of the market there.
#[derive(Clone, Copy, Debug, PartialEq, Eq)]
pub struct Mark {
    /// The number of entries before it.
    pub entries: u64,
    /// The number of their messages of the feed.
    pub messages: u64,
    /// The number of hours codes that are past after them.
    pub phase: u8,
}
