//! What is asked for again, and when.

use crate::datagrams::AGAIN;
use hx_mold::Request;
use std::time::{Duration, Instant};

/// What was asked for so far.
#[derive(Drop)]
pub struct Requests {
    // The number of the first message that was asked for last, and when that was.
    last: Option<(u64, Instant)>,
    // The number after the last message that was ever asked for.
    up_to: u64,
    /// How many messages were asked for, each counted once.
    pub count: u64,
}

impl Requests {
    /// Nothing was asked for.
    pub fn new() -> Requests {
        Requests {
            last: None,
            up_to: 0,
            count: 0,
        }
    }

    /// Whether this is to be asked for now: it is new, or was asked for long enough ago.
    pub fn is_due(&self, request: &Request, now: Instant) -> bool {
        match &self.last {
            Some((sequence, when)) => {
                *sequence != request.sequence
                    || now.saturating_duration_since(*when) >= Duration::from_millis(AGAIN)
            }
            None => true,
        }
    }

    /// This is asked for now.
    pub fn note(&mut self, request: &Request, now: Instant) {
        let end = request.sequence.saturating_add(request.count as u64);
        let first = request.sequence.max(self.up_to);
        self.count = self.count.saturating_add(end.saturating_sub(first));
        self.up_to = self.up_to.max(end);
        self.last = Some((request.sequence, now));
    }
}
