//! What is counted of connections and logins.

use crate::left::Left;
use std::sync::atomic::{AtomicU64, Ordering};

/// What was counted of an open day's connections and logins since it began.
#[derive(Drop)]
pub struct Tally {
    /// Connections that came.
    pub taken: AtomicU64,
    /// Logins that were accepted.
    pub accepted: AtomicU64,
    /// Logins that were refused.
    pub refused: AtomicU64,
    gone: AtomicU64,
    no_login: AtomicU64,
    late: AtomicU64,
    no_slot: AtomicU64,
    crowded: AtomicU64,
    too_many: AtomicU64,
    paused: AtomicU64,
    day_end: AtomicU64,
}

impl Tally {
    /// Nothing was counted.
    pub fn new() -> Tally {
        Tally {
            taken: AtomicU64::new(0),
            accepted: AtomicU64::new(0),
            refused: AtomicU64::new(0),
            gone: AtomicU64::new(0),
            no_login: AtomicU64::new(0),
            late: AtomicU64::new(0),
            no_slot: AtomicU64::new(0),
            crowded: AtomicU64::new(0),
            too_many: AtomicU64::new(0),
            paused: AtomicU64::new(0),
            day_end: AtomicU64::new(0),
        }
    }

    /// Connections that the acceptor closed for this reason.
    pub fn closed(&self, why: Left) -> &AtomicU64 {
        match why {
            Left::Gone => &self.gone,
            Left::NoLogin => &self.no_login,
            Left::Late => &self.late,
            Left::NoSlot => &self.no_slot,
            Left::Crowded => &self.crowded,
            Left::TooMany => &self.too_many,
            Left::Paused => &self.paused,
            Left::DayEnd => &self.day_end,
        }
    }
}

/// Counts one more.
pub fn count(number: &AtomicU64) {
    number.fetch_add(1, Ordering::Relaxed);
}
