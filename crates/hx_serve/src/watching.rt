//! What a venue shows of itself while it works.
ghost use Rattle.std.specs.Prelude.{◌≡◌};

use hx_blog::Reader;
use hx_day_context::{DayContext, since_1970};
use hx_engine::{Entry, Exchange, Journal, Venue};
use hx_listener::{Left, Tally};
use hx_metrics::{Figures, Health, Hours, Watched};
use std::marker::PhantomData;
use std::sync::atomic::{AtomicBool, AtomicU64, Ordering};
use std::sync::{Mutex, Wait};
use std::time::Clock;

// The reasons for which the acceptor closes a connection.
const REASONS: [Left; 8] = [
    Left::Gone,
    Left::NoLogin,
    Left::Late,
    Left::NoSlot,
    Left::Crowded,
    Left::TooMany,
    Left::Paused,
    Left::DayEnd,
];

/// A reader of a venue's log.
#[derive(Drop)]
pub struct Viewer<V: Venue> {
    reader: Reader<Entry>,
    of: PhantomData<V>,
    pub ghost belongs: { reader.log ≡ V.log },
}

impl<V: Venue> Viewer<V> {
    /// By this reader.
    pub fn new(reader: Reader<Entry>) -> Viewer<V>
        requires { reader.log ≡ V.log }
    {
        Viewer {
            reader,
            of: PhantomData,
        }
    }
}

/// A venue that works: what it shows is for its operator, since it counts orders that nobody else sees.
#[derive(Drop)]
pub struct Watch<'a, V: Venue, J: Journal + Drop, B, T> {
    /// The runtime.
    pub rt: &'a T,
    /// The exchange.
    pub exchange: &'a Exchange<V, J>,
    /// What its workers share.
    pub day_context: &'a DayContext<'a, B>,
    /// What was counted of connections and logins.
    pub tally: &'a Tally,
    /// The reader by which replies are counted.
    pub viewer: Mutex<Viewer<V>>,
    /// Whether its workers have ended.
    pub over: &'a AtomicBool,
}

fn read(number: &AtomicU64) -> Option<u64> {
    Some(number.load(Ordering::Relaxed))
}

impl<V: Venue, J: Journal + Drop, B, T: Wait + Clock> Watch<'_, V, J, B, T> {
    // How many replies all members have.
    fn replies(&self) -> u64 {
        let mut viewer = self.viewer.lock(self.rt);
        let mut replies: u64 = 0;
        for member in self.day_context.setup.members() {
            let news = self
                .exchange
                .news(self.rt, &mut viewer.reader, member.number);
            replies = replies.saturating_add(news.replies);
        }
        replies
    }

    // How many connections the acceptor closed.
    fn closed(&self) -> u64 {
        let mut closed: u64 = 0;
        for why in REASONS {
            closed = closed.saturating_add(self.tally.closed(why).load(Ordering::Relaxed));
        }
        closed
    }

    // For how many nanoseconds nothing has happened.
    fn quiet(&self) -> Option<u64> {
        match self.day_context.counters.last_event.load(Ordering::Relaxed) {
            0 => None,
            last => Some(since_1970(self.rt).saturating_sub(last)),
        }
    }
}

impl<V: Venue, J: Journal + Drop, B, T: Wait + Clock> Watched for Watch<'_, V, J, B, T> {
    ghost shows = { λ watch figures. Unit {0} };

    ghost is_in = { λ watch health. Unit {0} };

    fn figures(&self) -> Figures {
        let counts = self.exchange.counts(self.rt);
        let (session_slots, counters) = (self.day_context.session_slots, self.day_context.counters);
        let (taken, places) = (session_slots.taken(self.rt), session_slots.len() as u64);
        Figures {
            sessions: Some(taken),
            slots: Some(places),
            slots_left: Some(places.saturating_sub(taken)),
            logins_accepted: read(&self.tally.accepted),
            logins_refused: read(&self.tally.refused),
            closed_at_acceptor: Some(self.closed()),
            events: Some(counts.recorded),
            last_event_age: self.quiet(),
            feed_messages: Some(counts.feed),
            feed_slots_left: Some(self.day_context.capacity.saturating_sub(counts.feed)),
            replies: Some(self.replies()),
            requests_answered: read(&counters.answered),
            requests_refused: read(&counters.unanswered),
            journal_waiting: Some(counts.recorded.saturating_sub(counts.published_end)),
            journal_syncs: read(&counters.syncs),
            journal_sync_time: read(&counters.sync_time),
            journal_full: Some(counters.waits.load(Ordering::SeqCst)),
            phase: Hours::last_of(self.day_context.trading_status.past()),
        }
    }

    fn health(&self) -> Health {
        if self.exchange.failure(self.rt).is_some() {
            return Health::Stopped;
        }
        if self.day_context.counters.waits.load(Ordering::SeqCst) {
            return Health::Waiting;
        }
        Health::Ready
    }

    fn is_over(&self) -> bool {
        self.over.load(Ordering::SeqCst)
    }
}
