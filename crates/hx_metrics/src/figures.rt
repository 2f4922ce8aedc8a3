//! The figures that a venue shows.

use crate::phase::Hours;

/// The figures that a venue shows at one moment. A total only grows while the process lives. What
/// is not known is none.
///
/// The events are all of them: who reads their number learns that somebody entered an order, also
/// one that is neither shown nor traded. So the figures are the operator's alone.
#[derive(Clone, Copy, Default)]
pub struct Figures {
    /// Sessions that are logged in.
    pub sessions: Option<u64>,
    /// Sessions that can be logged in at a time.
    pub slots: Option<u64>,
    /// Session slots that are free.
    pub slots_left: Option<u64>,
    /// Logins that were accepted, in total.
    pub logins_accepted: Option<u64>,
    /// Logins that were refused, in total.
    pub logins_refused: Option<u64>,
    /// Connections that the acceptor closed, in total.
    pub closed_at_acceptor: Option<u64>,
    /// Events that are recorded, in total.
    pub events: Option<u64>,
    /// Nanoseconds since the last event; none before the first.
    pub last_event_age: Option<u64>,
    /// Messages of the feed, in total.
    pub feed_messages: Option<u64>,
    /// Slots of the feed's log that are left.
    pub feed_slots_left: Option<u64>,
    /// Replies to members, in total.
    pub replies: Option<u64>,
    /// Requests for messages again that were answered, in total.
    pub requests_answered: Option<u64>,
    /// Requests for messages again that were not answered, in total.
    pub requests_refused: Option<u64>,
    /// Events that wait for the journal.
    pub journal_waiting: Option<u64>,
    /// Syncs of the journal, in total.
    pub journal_syncs: Option<u64>,
    /// Nanoseconds that the journal's syncs took, in total.
    pub journal_sync_time: Option<u64>,
    /// Whether the journal waits for room on its disk.
    pub journal_full: Option<bool>,
    /// The last code of the hours; none before the first.
    pub phase: Option<Hours>,
}
