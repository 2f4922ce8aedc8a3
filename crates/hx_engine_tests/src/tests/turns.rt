//! A turn at the lock ends early if the market passes over many orders.

use super::exchanges::ends;
use super::scenario::{Scenario, apply};
use super::{equal, holds};
use hx_blog::Reader;
use hx_engine::{Entry, Exchange, Pass, Venue};
use hx_engine_testing::memory::Memory;
use hx_market::Event;
use hx_members::Setup;
use hx_ouch::{Enter, Inbound, encode_in};
use hx_testing::sending::message;
use hx_units::{Firm, Symbol, Token};
use std::alloc::Global;
use std::process::Abort;
use std::sync::Wait;
use std::test::*;
use std::thread::Threads;
use std::time::Clock;

// Members who may send many messages.
const SETUP: &[u8] = b"session HX00000002\n\
     start open\n\
     stock ABCD 5120000000644e435a20502020314e000000004e\n\
     member 1 FMA1 ALPHA PWALPHA 10000\n\
     member 2 FMB2 BRAVO PWBRAVO 10000\n";

// The number of orders of one share that stand before one of a hundred shares.
const SMALL: u32 = 4_096;

// A hidden order at 10 dollars: the member that enters it, the number of its token, its side, its shares, its minimum
// and its life.
#[derive(Clone, Copy)]
struct Hidden {
    member: u16,
    number: u32,
    side: u8,
    shares: u32,
    minimum: u32,
    life: u32,
}

// An order that rests.
const RESTING: Hidden = Hidden {
    member: 1,
    number: 0,
    side: b'S',
    shares: 1,
    minimum: 0,
    life: 99_999,
};

// An order that is executed at once, all of it against one other, or not at all.
const AT_ONCE: Hidden = Hidden {
    member: 2,
    number: 0,
    side: b'B',
    shares: 100,
    minimum: 100,
    life: 0,
};

// The token of a number: its six last digits.
fn token_of(number: u32) -> Token {
    let mut token = *b"T0000000000000";
    let mut left = number;
    for index in 0..6 {
        token[13 - index] = b'0' + (left % 10) as u8;
        left /= 10;
    }
    Token(token)
}

fn entered<R: Abort>(rt: &R, alloc: Global, order: Hidden) -> Event {
    let bytes = encode_in(&Inbound::Enter(Enter {
        token: token_of(order.number),
        side: order.side,
        shares: order.shares,
        stock: Symbol(*b"ABCD    "),
        price: 100_000,
        time_in_force: order.life,
        firm: Firm(*b"    "),
        display: b'N',
        capacity: b'O',
        intermarket_sweep: b'N',
        minimum_quantity: order.minimum,
        cross_type: b'N',
        customer_type: b'R',
    }));
    message(alloc, order.member, 1_000, bytes.as_slice()).expect(rt, "an order")
}

// The small orders, and the one after them.
fn resting<R: Abort>(rt: &R, alloc: Global) -> Vec<Event> {
    let mut events = Vec::new(alloc);
    for number in 0..SMALL {
        let small = entered(rt, alloc, Hidden { number, ..RESTING });
        events.push(small).expect(rt, "a place");
    }
    let large = Hidden {
        number: SMALL,
        shares: 100,
        ..RESTING
    };
    let last = entered(rt, alloc, large);
    events.push(last).expect(rt, "a place");
    events
}

// Two orders that pass over all of the small ones.
fn incoming<R: Abort>(rt: &R, alloc: Global) -> Vec<Event> {
    let first = entered(rt, alloc, AT_ONCE);
    let second = entered(
        rt,
        alloc,
        Hidden {
            number: 1,
            ..AT_ONCE
        },
    );
    vec![in alloc; first, second].expect(rt, "events")
}

// One turn: the events that it leaves, and the number of orders that the market has passed over.
fn turn<V: Venue, R: Wait + Abort>(
    rt: &R,
    exchange: &Exchange<V, Memory>,
    pass: &mut Pass<V>,
    events: Vec<Event>,
) -> (Vec<Event>, u64) {
    if events.is_empty() {
        panic!(rt; "there are events");
    }
    let Ok(submitted) = exchange.submit_all(rt, pass, events) else {
        panic!(rt; "an event is refused");
    };
    exchange.wake_feed();
    (submitted.rest, pass.take_passed())
}

struct ManySmallOrders;

impl Scenario for ManySmallOrders {
    fn apply<V: Venue + Send + Sync, R: Threads + Wait + Clock + Abort + Sync>(
        rt: &R,
        alloc: Global,
        exchange: Exchange<V, Memory>,
        passes: Vec<Pass<V>>,
        _reader: Reader<Entry>,
    ) {
        let mut passes = passes;
        let mut pass = passes.pop().expect(rt, "a pass");
        let (rest, passed) = turn(rt, &exchange, &mut pass, resting(rt, alloc));
        equal(rt, rest.len(), 0);
        equal(rt, passed, 0);
        let (rest, passed) = turn(rt, &exchange, &mut pass, incoming(rt, alloc));
        equal(rt, rest.len(), 1);
        holds(rt, passed >= 4_096);
        let (rest, passed) = turn(rt, &exchange, &mut pass, rest);
        equal(rt, rest.len(), 0);
        holds(rt, passed >= 4_096);
        let passes = vec![in alloc; pass].expect(rt, "passes");
        ends(rt, exchange, passes, 4_099, 1);
    }
}

// The first order passes over all small ones and is executed against the large one, as a trade of the feed; the second waits
// for another turn, and passes over the same for nothing.
#[test]
fn a_turn_ends_after_many_orders(rt: HostRuntime) -> Result<(), Fail> {
    let alloc = rt.alloc();
    let setup = Setup::read(alloc, SETUP).expect(&rt, "a setup");
    apply::<ManySmallOrders, _>(&rt, alloc, setup, 100, 1)
}
