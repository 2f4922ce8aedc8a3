//! What is counted of a day while it runs.

use crate::notices::{Notice, NoticeSink};
use std::sync::atomic::{AtomicBool, AtomicU64, Ordering};

/// What is counted of a day while it runs: of its journal, and of the requests for messages again.
#[derive(Drop)]
pub struct Counters {
    /// How often the journal was brought to the disk.
    pub syncs: AtomicU64,
    /// How many nanoseconds that took.
    pub sync_time: AtomicU64,
    /// Whether the journal waits for room.
    pub waits: AtomicBool,
    /// How many requests were answered.
    pub answered: AtomicU64,
    /// How many were not: more came than are answered, or an answer could not be sent.
    pub unanswered: AtomicU64,
    /// When the last event was seen, in nanoseconds since 1970; 0 before the first.
    pub last_event: AtomicU64,
}

impl Counters {
    /// Nothing was counted.
    pub fn new() -> Counters {
        Counters {
            syncs: AtomicU64::new(0),
            sync_time: AtomicU64::new(0),
            waits: AtomicBool::new(false),
            answered: AtomicU64::new(0),
            unanswered: AtomicU64::new(0),
            last_event: AtomicU64::new(0),
        }
    }
}

/// A notice sink that counts what concerns the journal, and passes all notices on.
#[derive(Clone, Copy)]
pub struct Counted<'a, B> {
    /// Where notices go.
    pub notice_sink: &'a B,
    /// Where is counted.
    pub counters: &'a Counters,
}

impl<B: NoticeSink> NoticeSink for Counted<'_, B> {
    fn post(&self, notice: Notice) {
        match notice {
            Notice::JournalWaits => self.counters.waits.store(true, Ordering::SeqCst),
            Notice::JournalGoesOn => self.counters.waits.store(false, Ordering::SeqCst),
            _ => {}
        }
        self.notice_sink.post(notice);
    }

    fn synced(&self, nanoseconds: u64) {
        self.counters.syncs.fetch_add(1, Ordering::Relaxed);
        self.counters
            .sync_time
            .fetch_add(nanoseconds, Ordering::Relaxed);
        self.notice_sink.synced(nanoseconds);
    }
}
