//! Two members that send at once over a journal whose sync is slow: nothing is published that is not synced.
ghost use Rattle.std.specs.Prelude.{◌≡◌, []};
ghost use Rattle.hx_engine.specs.Opening.{IsNewLog};
ghost use Rattle.hx_rules.specs.declared.event.Event.{Event};

use super::{equal, holds};
use hx_blog::Reader;
use hx_engine::{Entry, Exchange, Pass, Venue};
use hx_engine_testing::ground::{Ground, ground_of};
use hx_engine_testing::witnessed::{Witness, Witnessed};
use hx_members::Setup;
use hx_testing::sending::{BUY, Order, enter};
use hx_units::MemberNo;
use std::alloc::Global;
use std::marker::Brand;
use std::process::Abort;
use std::sync::Wait;
use std::sync::atomic::{AtomicU64, Ordering};
use std::test::*;
use std::thread;
use std::thread::Threads;

// The number of orders that each member sends.
const EACH: u8 = 20;

// Holds the number of synced records.
#[derive(Drop)]
struct Counter<'a> {
    synced: &'a AtomicU64,
}

impl Witness for Counter<'_> {
    fn synced(&self, count: usize) {
        self.synced.store(count as u64, Ordering::SeqCst);
    }
}

// A journal whose number of synced records is known.
type Counted<'a> = Witnessed<Counter<'a>>;

// A member with its pass and its reader, and the number of synced records.
#[derive(Drop)]
struct Sender<'a, V: Venue> {
    member: u16,
    pass: Pass<V>,
    reader: Reader<Entry>,
    synced: &'a AtomicU64,
    ghost belongs: { reader.log ≡ V.log },
}

// The order of a member with this number: it is displayed and does not trade, so it has one reply.
fn order_of(member: u16, number: u8) -> Order {
    Order {
        member,
        token: [b'A', b'A'.saturating_add(number)],
        ..BUY
    }
}

impl<V: Venue> Sender<'_, V> {
    // The number of replies that the two members have.
    fn replies<R: Wait + Abort>(&mut self, rt: &R, exchange: &Exchange<V, Counted>) -> u64 {
        let first = self.replies_to(rt, exchange, 1);
        let second = self.replies_to(rt, exchange, 2);
        first.checked_add(second).expect(rt, "a sum")
    }

    fn replies_to<R: Wait + Abort>(
        &mut self,
        rt: &R,
        exchange: &Exchange<V, Counted>,
        member: u16,
    ) -> u64 {
        let member = MemberNo::of(member).expect(rt, "a member");
        exchange.news(rt, &mut self.reader, member).replies
    }

    // Sends the member's orders: none is answered, and no reply published, before its record is synced.
    fn session<R: Wait + Abort>(&mut self, rt: &R, alloc: Global, exchange: &Exchange<V, Counted>) {
        for number in 0..EACH {
            let event = enter(alloc, &order_of(self.member, number)).expect(rt, "an order");
            let done = exchange
                .submit(rt, &mut self.pass, &event)
                .expect(rt, "an answer");
            holds(rt, self.synced.load(Ordering::SeqCst) >= done.place);
            let replies = self.replies(rt, exchange);
            holds(rt, self.synced.load(Ordering::SeqCst) >= replies);
        }
    }
}

// The number of events that may be admitted and not published, and the least number of syncs.
#[derive(Clone, Copy)]
struct Bounds {
    ahead: u64,
    syncs: u64,
}

// Both send at once, within these bounds: all is answered, durable and published, by at most one sync per order.
fn two_senders<V: Venue + Send + Sync, R: Threads + Wait + Abort + Sync>(
    rt: &R,
    alloc: Global,
    ground: Ground,
    synced: &AtomicU64,
    bounds: Bounds,
)
    requires feed { IsNewLog V.log ground.logs.feed }
    requires admitted { IsNewLog V.admitted ground.logs.admitted }
    requires durable { IsNewLog V.durable ground.logs.durable }
    requires of_setup { ground.setup ≡ V.setup }
    requires before { V.before ≡ [] }
    requires reader { ground.reader.log ≡ V.log }
    requires blank { (ground.blank.name ≡ V.name) × (ground.blank.parts ≡ V.parts) × (V.parts ≡ 2) }
{
    let Ground {
        setup,
        logs,
        blank,
        reader,
    } = ground;
    let journal = Witnessed::new(alloc, 1000, false, Counter { synced });
    let (exchange, mut passes) = Exchange::<V, Counted>::new(
        alloc, setup, logs, journal, blank, 2,
    ).expect(rt, "an exchange");
    let exchange = exchange.at_most_ahead(bounds.ahead);
    let mut reader = reader;
    let mut first = Sender {
        member: 1,
        pass: passes.pop().expect(rt, "a pass"),
        reader: reader.split(exchange.feed_log()),
        synced,
    };
    let mut second = Sender {
        member: 2,
        pass: passes.pop().expect(rt, "a pass"),
        reader,
        synced,
    };
    let shared = &exchange;
    thread::join(
        rt,
        || first.session(rt, alloc, shared),
        || second.session(rt, alloc, shared),
    );
    let both = 2 * u64::from(EACH);
    equal(rt, first.replies(rt, &exchange), both);
    passes.push(first.pass).expect(rt, "a place");
    passes.push(second.pass).expect(rt, "a place");
    expect_durable(rt, exchange, passes, both, bounds.syncs);
}

// The exchange ends with this number of entries, all of them synced, by at most one sync per entry, and at least
// `least` syncs.
fn expect_durable<V: Venue, R: Abort>(
    rt: &R,
    exchange: Exchange<V, Counted>,
    passes: Vec<Pass<V>>,
    count: u64,
    least: u64,
) {
    let finished = exchange.finish(passes).ok().expect(rt, "all passes");
    let Some(journal) = &finished.journal else {
        panic!(rt; "a journal");
    };
    equal(rt, finished.history.len() as u64, count);
    equal(rt, finished.feed, count);
    equal(rt, journal.memory.synced as u64, count);
    holds(
        rt,
        journal.memory.syncs <= count && journal.memory.syncs >= least,
    );
}

// Both send at once at a new exchange, within these bounds.
fn send_within<R: AllocGlobal + Threads + Wait + Abort + Sync>(
    rt: &R,
    bounds: Bounds,
) -> Result<(), Fail> {
    let alloc = rt.alloc();
    let setup = Setup::standard(alloc).expect(rt, "a setup");
    let ground = ground_of(alloc, setup, 100, 2)?;
    let synced = AtomicU64::new(0);
    two_senders::<Brand, _>(rt, alloc, ground, &synced, bounds);
    Ok(())
}

#[test]
fn two_members_send_at_once(rt: HostRuntime) -> Result<(), Fail> {
    let bounds = Bounds {
        ahead: u64::MAX,
        syncs: 1,
    };
    send_within(&rt, bounds)
}

// If one event may be admitted that is not published, each is synced alone.
#[test]
fn one_waits_for_the_other(rt: HostRuntime) -> Result<(), Fail> {
    let bounds = Bounds {
        ahead: 1,
        syncs: 40,
    };
    send_within(&rt, bounds)
}
