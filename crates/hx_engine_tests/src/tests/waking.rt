//! Which threads are woken by what is published: only those that have news.
ghost use Rattle.std.specs.Prelude.{◌≡◌, [], true};
ghost use Rattle.hx_engine.specs.Opening.{IsNewLog};

use super::exchanges::ends;
use super::{entered, equal, holds, member_of};
use hx_blog::{Log, Reader};
use hx_engine::{Entry, Exchange, Journal, Logs, Pass, Venue};
use hx_engine_testing::ground::logs_of;
use hx_engine_testing::memory::Memory;
use hx_journal::NullJournal;
use hx_members::Setup;
use hx_testing::sending::{BUY, Order, SELL};
use hx_wake::Waker;
use std::alloc::Global;
use std::marker::Brand;
use std::process::Abort;
use std::sync::Wait;
use std::sync::ledger::Blank;
use std::test::*;
use std::time::{Clock, Duration, Instant};

// The time for which a test waits for a wake, in milliseconds.
const SHORT: u64 = 5;

// Whether a waker that was armed has woken.
fn has_woken<R: Clock + Abort>(rt: &R, waker: &Waker) -> bool {
    let short = Duration::from_millis(SHORT);
    let start = Instant::now(rt).expect(rt, "the time before");
    waker.sleep(short);
    start.elapsed(rt).expect(rt, "the time behind") < short
}

// Two sessions, of the first two members, and the exchange that they are at.
#[derive(Drop)]
struct Room<V: Venue, J: Journal> {
    alloc: Global,
    exchange: Exchange<V, J>,
    first: Pass<V>,
    second: Pass<V>,
}

impl<V: Venue, J: Journal + Drop> Room<V, J> {
    // Which threads are woken by an order of the first pass: the first member's session, the second's, and the
    // publisher.
    fn woken<R: Wait + Clock + Abort>(&mut self, rt: &R, order: &Order) -> [bool; 3] {
        let event = entered(rt, self.alloc, order);
        self.exchange.waker(&self.first).arm();
        self.exchange.waker(&self.second).arm();
        self.exchange.feed_waker().arm();
        holds(
            rt,
            self.exchange.submit(rt, &mut self.first, &event).is_ok(),
        );
        [
            has_woken(rt, self.exchange.waker(&self.first)),
            has_woken(rt, self.exchange.waker(&self.second)),
            has_woken(rt, self.exchange.feed_waker()),
        ]
    }
}

// Both sessions listen, each to its member.
fn room_of<V: Venue, J: Journal + Drop, R: Wait + Abort>(
    rt: &R,
    alloc: Global,
    exchange: Exchange<V, J>,
    mut passes: Vec<Pass<V>>,
) -> Room<V, J> {
    let second = passes.pop().expect(rt, "a pass");
    let first = passes.pop().expect(rt, "a pass");
    exchange.listen(rt, &first, member_of(rt, 1));
    exchange.listen(rt, &second, member_of(rt, 2));
    Room {
        alloc,
        exchange,
        first,
        second,
    }
}

// Orders that are not displayed wake their member alone, and those that are displayed the publisher too.
fn own_orders<V: Venue, J: Journal + Drop, R: Wait + Clock + Abort>(rt: &R, room: &mut Room<V, J>) {
    let hidden = Order {
        token: *b"H1",
        display: b'N',
        ..BUY
    };
    let others = Order {
        member: 2,
        token: *b"H2",
        price: 90_000,
        ..hidden
    };
    equal(rt, room.woken(rt, &hidden), [true, false, false]);
    equal(rt, room.woken(rt, &BUY), [true, false, true]);
    equal(rt, room.woken(rt, &others), [false, true, false]);
}

// An execution wakes both; a session that has left is not woken.
fn an_execution<V: Venue, J: Journal + Drop, R: Wait + Clock + Abort>(
    rt: &R,
    room: &mut Room<V, J>,
) {
    let crossing = Order {
        member: 2,
        token: *b"S1",
        ..SELL
    };
    let later = Order {
        token: *b"T2",
        ..BUY
    };
    equal(rt, room.woken(rt, &crossing), [true, true, true]);
    room.exchange.leave(rt, &room.first, member_of(rt, 1));
    equal(rt, room.woken(rt, &later), [false, false, true]);
}

// The publisher is woken by `submit_all` itself if a journal is written, and else by `wake_feed`, once.
fn a_late_wake<V: Venue, J: Journal + Drop, R: Wait + Clock + Abort>(
    rt: &R,
    room: &mut Room<V, J>,
    is_late: bool,
) {
    let last = Order {
        token: *b"T3",
        ..BUY
    };
    let event = entered(rt, room.alloc, &last);
    let events = vec![in room.alloc; event].expect(rt, "events");
    room.exchange.feed_waker().arm();
    let done = room.exchange.submit_all(rt, &mut room.first, events);
    holds(rt, done.is_ok());
    equal(rt, has_woken(rt, room.exchange.feed_waker()), !is_late);
    room.exchange.feed_waker().arm();
    room.exchange.wake_feed();
    equal(rt, has_woken(rt, room.exchange.feed_waker()), is_late);
    room.exchange.feed_waker().arm();
    room.exchange.wake_feed();
    holds(rt, !has_woken(rt, room.exchange.feed_waker()));
}

fn wake<V: Venue, J: Journal + Drop, R: Wait + Clock + Abort>(
    rt: &R,
    alloc: Global,
    setup: Setup,
    logs: Logs,
    journal: J,
    blank: Blank,
    mut reader: Reader<Entry>,
)
    requires feed { IsNewLog V.log logs.feed }
    requires admitted { IsNewLog V.admitted logs.admitted }
    requires durable { IsNewLog V.durable logs.durable }
    requires of_setup { setup ≡ V.setup }
    requires before { V.before ≡ [] }
    requires reader { reader.log ≡ V.log }
    requires journal { J.appended journal ≡ [] }
    requires safe { (J.durable journal ≡ J.appended journal) × (J.is_open journal ≡ true) }
    requires blank { (blank.name ≡ V.name) × (blank.parts ≡ V.parts) × (V.parts ≡ 2) }
{
    let is_late = journal.is_quick();
    let (exchange, passes) = Exchange::<V, J>::new(alloc, setup, logs, journal, blank, 2).expect(
        rt,
        "an exchange",
    );
    equal(rt, reader.look(exchange.feed_log()), 0);
    let mut room = room_of(rt, alloc, exchange, passes);
    own_orders(rt, &mut room);
    an_execution(rt, &mut room);
    a_late_wake(rt, &mut room, is_late);
    let passes = vec![in alloc; room.first, room.second].expect(rt, "passes");
    ends(rt, room.exchange, passes, 6, 4);
}

fn wake_at<J: Journal + Drop, R: Wait + Clock + Abort>(
    rt: &R,
    alloc: Global,
    journal: J,
) -> Result<(), Fail>
    requires journal { J.appended journal ≡ [] }
    requires safe { (J.durable journal ≡ J.appended journal) × (J.is_open journal ≡ true) }
{
    let setup = Setup::standard(alloc).expect(rt, "a setup");
    let (log, writer, reader) = Log::<Entry>::new(alloc, 100).expect(rt, "a log");
    let logs = logs_of(alloc, log, writer)?;
    wake::<Brand, J, R>(rt, alloc, setup, logs, journal, Blank::new(2), reader);
    Ok(())
}

#[test]
fn only_who_has_news_is_woken(rt: HostRuntime) -> Result<(), Fail> {
    wake_at(&rt, rt.alloc(), Memory::new(rt.alloc(), 10_000))
}

#[test]
fn the_publisher_is_woken_last(rt: HostRuntime) -> Result<(), Fail> {
    wake_at(&rt, rt.alloc(), NullJournal::new())
}
