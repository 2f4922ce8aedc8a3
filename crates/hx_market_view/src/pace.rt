//! How often the web page gets changes.

use std::time::{Duration, Instant};

// The least time between two messages of changes to a browser, in milliseconds: 20 times a second.
pub const PACE: u64 = 50;

// The longest time between two messages of the feed's own figures, in milliseconds.
const BEAT: u64 = 1000;

// After each message to the web page the screen waits for four times the time that it took, but a second at most: so it
// spends a fifth of its time on the web page, if a message takes less than a quarter of a second.
const REST: u32 = 4;

/// When the web page was sent changes last, and how long that took.
#[derive(Drop)]
pub struct Pace {
    last: Option<Instant>,
    rest: Duration,
}

impl Pace {
    /// It was not sent anything.
    pub fn new() -> Pace {
        Pace {
            last: None,
            rest: Duration::from_millis(PACE),
        }
    }

    // Whether this time has passed.
    fn has_passed(&self, now: Instant, rest: Duration) -> bool {
        match &self.last {
            Some(last) => now.saturating_duration_since(*last) >= rest,
            None => true,
        }
    }

    /// Whether to send changes to the web page now.
    pub fn is_due(&self, now: Instant) -> bool {
        self.has_passed(now, self.rest)
    }

    /// Whether to send the web page word that nothing has changed.
    pub fn is_beat_due(&self, now: Instant) -> bool {
        self.has_passed(now, Duration::from_millis(BEAT))
    }

    /// Changes were sent to the web page, from one time to another.
    pub fn note(&mut self, from: Instant, to: Instant) {
        let took = to.saturating_duration_since(from);
        let rest = took.saturating_mul(REST);
        self.rest = rest
            .max(Duration::from_millis(PACE))
            .min(Duration::from_millis(BEAT));
        self.last = Some(to);
    }
}
