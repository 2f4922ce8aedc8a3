//! A notice sink that counts its notices.

use hx_serve::{Left, Notice, NoticeSink, Refusal};
use std::sync::atomic::{AtomicU64, Ordering};

/// The number of notices of each kind.
#[derive(Drop)]
pub struct Counting {
    pub opened: AtomicU64,
    pub ended: AtomicU64,
    pub faulted: AtomicU64,
    /// Connections that did not log in in time.
    pub late: AtomicU64,
    /// Connections that sent something else than a login.
    pub strange: AtomicU64,
    /// Connections of which there were too many of one address.
    pub too_many: AtomicU64,
    /// Connections that were closed since the day was over.
    pub over: AtomicU64,
    /// Addresses that the feed did not get to.
    pub unsent: AtomicU64,
    /// That other machines can reach the day.
    pub warnings: AtomicU64,
    /// The operator's lines that are none.
    pub bad: AtomicU64,
    /// The operator's lines with a time that is not within the day.
    pub untimely: AtomicU64,
    pub unanswered: AtomicU64,
    pub crowds: AtomicU64,
    /// The end of the operator's input before code `C`.
    pub closings: AtomicU64,
    /// What the operator's socket and the clock did.
    pub directed: AtomicU64,
    /// That a day goes on, with how many events and messages of the feed the last time.
    pub resumed: AtomicU64,
    pub events: AtomicU64,
    pub feed: AtomicU64,
    /// That the journal has no room, and has room again.
    pub waits: AtomicU64,
}

impl Counting {
    pub fn new() -> Counting {
        Counting {
            opened: AtomicU64::new(0),
            ended: AtomicU64::new(0),
            faulted: AtomicU64::new(0),
            late: AtomicU64::new(0),
            strange: AtomicU64::new(0),
            too_many: AtomicU64::new(0),
            over: AtomicU64::new(0),
            unsent: AtomicU64::new(0),
            warnings: AtomicU64::new(0),
            bad: AtomicU64::new(0),
            untimely: AtomicU64::new(0),
            unanswered: AtomicU64::new(0),
            crowds: AtomicU64::new(0),
            closings: AtomicU64::new(0),
            directed: AtomicU64::new(0),
            resumed: AtomicU64::new(0),
            events: AtomicU64::new(0),
            feed: AtomicU64::new(0),
            waits: AtomicU64::new(0),
        }
    }
}

/// The number of notices of one kind.
pub fn outputs(count: &AtomicU64) -> u64 {
    count.load(Ordering::SeqCst)
}

impl NoticeSink for Counting {
    fn post(&self, notice: Notice) {
        let count = match notice {
            Notice::Opened { .. } => &self.opened,
            Notice::Ended { .. } => &self.ended,
            Notice::Faulted { .. } => &self.faulted,
            Notice::Left {
                why: Left::Late | Left::NoSlot,
                ..
            } => &self.late,
            Notice::Left {
                why: Left::NoLogin,
                ..
            } => &self.strange,
            Notice::Left {
                why: Left::TooMany,
                ..
            } => &self.too_many,
            Notice::Left { .. } => &self.over,
            Notice::Unsent { .. } => &self.unsent,
            Notice::OpenToOthers => &self.warnings,
            Notice::Refused {
                why: Refusal::Time,
                ..
            } => &self.untimely,
            Notice::Refused { .. } => &self.bad,
            Notice::Unanswered { .. } => &self.unanswered,
            Notice::Crowd => &self.crowds,
            Notice::Resumed { events, feed } => {
                self.events.store(events, Ordering::SeqCst);
                self.feed.store(feed, Ordering::SeqCst);
                &self.resumed
            }
            Notice::JournalWaits
            | Notice::JournalGoesOn
            | Notice::Reading { .. }
            | Notice::StandingBy
            | Notice::Active { .. } => &self.waits,
            Notice::Closing | Notice::StandardSetup => &self.closings,
            Notice::Scheduled { .. } | Notice::Dropped { .. } | Notice::Forbidden { .. } => {
                &self.directed
            }
        };
        count.fetch_add(1, Ordering::SeqCst);
    }
}
