//! One thread at an exchange: fresh replies, the hours of a day, and a pass that is missing at the end.
ghost use Rattle.std.specs.Prelude.{◌≡◌, []};
ghost use Rattle.hx_rules.specs.declared.event.Event.{Event};

use super::scenario::{Scenario, apply};
use super::{entered, equal, holds, member_of};
use hx_blog::Reader;
use hx_engine::{Entry, Exchange, FinishError, Journal, Pass, Venue};
use hx_engine_testing::memory::Memory;
use hx_market::Event;
use hx_members::Setup;
use hx_testing::sending::{BUY, Order, SELL};
use hx_testing::shorthand::{Reply, private, read_reply};
use std::alloc::Global;
use std::process::Abort;
use std::sync::Wait;
use std::test::*;
use std::thread::Threads;
use std::time::Clock;

// The order is entered, and accepted.
fn send<V: Venue, R: Wait + Abort>(
    rt: &R,
    alloc: Global,
    exchange: &Exchange<V, Memory>,
    pass: &mut Pass<V>,
    order: &Order,
) {
    let event = entered(rt, alloc, order);
    holds(rt, exchange.submit(rt, pass, &event).is_ok());
}

// A reader that learnt nothing gets these replies to a member, from this number on.
fn expect_replies<V: Venue, R: Wait + Abort>(
    rt: &R,
    exchange: &Exchange<V, Memory>,
    reader: &mut Reader<Entry>,
    member: u16,
    from: u64,
    wanted: &[Reply],
)
    requires { reader.old.log ≡ V.log }
    ensures { reader.new.log ≡ V.log }
{
    let member = member_of(rt, member);
    let replies = exchange
        .replies(rt, reader, member, from)
        .expect(rt, "replies");
    equal(rt, replies.len(), wanted.len());
    for (reply, want) in replies.iter().zip(wanted) {
        equal(rt, read_reply(reply.as_slice()), *want);
    }
}

// A hidden order of the first member, a displayed one of the second at the same price, and a sell order of the third:
// each reply stands as soon as its event is recorded, also that to the hidden order, which has no message of the feed.
struct DisplayBeatsTime;

impl Scenario for DisplayBeatsTime {
    fn apply<V: Venue + Send + Sync, R: Threads + Wait + Clock + Abort + Sync>(
        rt: &R,
        alloc: Global,
        exchange: Exchange<V, Memory>,
        mut passes: Vec<Pass<V>>,
        mut reader: Reader<Entry>,
    ) {
        let mut pass = passes.pop().expect(rt, "a pass");
        let hidden = Order {
            time: 10,
            token: *b"H1",
            display: b'N',
            ..BUY
        };
        send(rt, alloc, &exchange, &mut pass, &hidden);
        let first = [Reply::Accepted(*b"H1", 100, private(1, 1))];
        expect_replies(rt, &exchange, &mut reader, 1, 1, &first);
        let shown = Order {
            time: 20,
            member: 2,
            ..BUY
        };
        send(rt, alloc, &exchange, &mut pass, &shown);
        let sell = Order {
            time: 30,
            member: 3,
            token: *b"S1",
            ..SELL
        };
        send(rt, alloc, &exchange, &mut pass, &sell);
        let second = [
            Reply::Accepted(*b"T1", 100, 1),
            Reply::Executed(*b"T1", 100, 100_000, b'A', 1),
        ];
        expect_replies(rt, &exchange, &mut reader, 2, 1, &second);
        expect_replies(rt, &exchange, &mut reader, 1, 1, &first);
        expect_replies(rt, &exchange, &mut reader, 2, 2, &second[1..]);
    }
}

#[test]
fn display_beats_time_and_replies_are_fresh(rt: HostRuntime) -> Result<(), Fail> {
    let alloc = rt.alloc();
    let setup = Setup::standard(alloc).expect(&rt, "a setup");
    apply::<DisplayBeatsTime, _>(&rt, alloc, setup, 100, 1)
}

// The first and the third of three passes are not enough; all three are.
struct OnePassMissing;

impl Scenario for OnePassMissing {
    fn apply<V: Venue + Send + Sync, R: Threads + Wait + Clock + Abort + Sync>(
        rt: &R,
        alloc: Global,
        exchange: Exchange<V, Memory>,
        mut passes: Vec<Pass<V>>,
        _reader: Reader<Entry>,
    ) {
        let third = passes.pop().expect(rt, "a pass");
        let second = passes.pop().expect(rt, "a pass");
        let mut first = passes.pop().expect(rt, "a pass");
        send(rt, alloc, &exchange, &mut first, &BUY);
        passes.push(first).expect(rt, "a place");
        passes.push(third).expect(rt, "a place");
        let Err(
            FinishError::Missing {
                number,
                exchange,
                mut passes,
            },
        ) = exchange.finish(passes)
        else {
            panic!(rt; "a pass is missing");
        };
        equal(rt, number, 2);
        equal(rt, passes.len(), 2);
        passes.push(second).expect(rt, "a place");
        ends(rt, exchange, passes, 1, 1);
    }
}

/// The exchange ends with `entries` entries, and `messages` messages of the feed.
pub fn ends<V: Venue, J: Journal + Drop, R: Abort>(
    rt: &R,
    exchange: Exchange<V, J>,
    passes: Vec<Pass<V>>,
    entries: usize,
    messages: u64,
) {
    let Ok(finished) = exchange.finish(passes) else {
        panic!(rt; "all passes are there");
    };
    equal(rt, finished.history.len(), entries);
    equal(rt, finished.feed, messages);
}

#[test]
fn a_pass_is_missing(rt: HostRuntime) -> Result<(), Fail> {
    let alloc = rt.alloc();
    let setup = Setup::standard(alloc).expect(&rt, "a setup");
    apply::<OnePassMissing, _>(&rt, alloc, setup, 100, 3)
}

const CLOSED: &[u8] = b"session HX00000002\n\
     start closed\n\
     stock ABCD 5120000000644e435a20502020314e000000004e\n\
     member 1 FMA1 ALPHA PWALPHA 1000\n\
     member 2 FMB2 BRAVO PWBRAVO 1000\n";

// The codes of a day come one after the other, with orders between them: the day is over after the last, and not
// before.
struct HoursOfADay;

// The events of the day: five orders and codes of which one comes too early.
fn day_event<R: Abort>(rt: &R, alloc: Global, time: u64) -> Event {
    let first = Order {
        time,
        token: *b"T0",
        ..BUY
    };
    let code = match time {
        2 => return entered(rt, alloc, &first),
        4 => return entered(rt, alloc, &until_close(time, *b"T1")),
        5 => return entered(rt, alloc, &hidden_of_second(time)),
        9 => return entered(rt, alloc, &until_close(time, *b"T2")),
        1 => b'O',
        3 => b'S',
        7 => b'Q',
        10 => b'E',
        11 => b'C',
        _ => b'M',
    };
    Event::Hours { time, code }
}

fn until_close(time: u64, token: [u8; 2]) -> Order {
    Order {
        time,
        token,
        time_in_force: 99_998,
        ..BUY
    }
}

fn hidden_of_second(time: u64) -> Order {
    Order {
        time,
        member: 2,
        token: *b"H1",
        display: b'N',
        ..BUY
    }
}

impl Scenario for HoursOfADay {
    fn apply<V: Venue + Send + Sync, R: Threads + Wait + Clock + Abort + Sync>(
        rt: &R,
        alloc: Global,
        exchange: Exchange<V, Memory>,
        mut passes: Vec<Pass<V>>,
        mut reader: Reader<Entry>,
    ) {
        let mut pass = passes.pop().expect(rt, "a pass");
        holds(rt, !exchange.is_over(rt, &mut reader));
        for time in 1..=11 {
            holds(rt, !exchange.ended(rt));
            let event = day_event(rt, alloc, time);
            holds(rt, exchange.submit(rt, &mut pass, &event).is_ok());
        }
        holds(rt, exchange.ended(rt));
        holds(rt, exchange.is_over(rt, &mut reader));
        let first = [
            Reply::Rejected(*b"T0", b'C'),
            Reply::System(b'S'),
            Reply::Accepted(*b"T1", 100, 1),
            Reply::Canceled(*b"T1", 100, b'T'),
            Reply::Rejected(*b"T2", b'C'),
            Reply::System(b'E'),
        ];
        expect_replies(rt, &exchange, &mut reader, 1, 0, &first);
        let second = [
            Reply::System(b'S'),
            Reply::Accepted(*b"H1", 100, private(2, 1)),
            Reply::System(b'E'),
            Reply::Canceled(*b"H1", 100, b'T'),
        ];
        expect_replies(rt, &exchange, &mut reader, 2, 0, &second);
        passes.push(pass).expect(rt, "a place");
        ends(rt, exchange, passes, 11, 9);
    }
}

#[test]
fn the_day_ends_after_its_last_code(rt: HostRuntime) -> Result<(), Fail> {
    let alloc = rt.alloc();
    let setup = Setup::read(alloc, CLOSED).expect(&rt, "a setup");
    apply::<HoursOfADay, _>(&rt, alloc, setup, 100, 1)
}
