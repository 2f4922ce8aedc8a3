//! Events that an exchange refuses: the pass is as before, and sends others then.
ghost use Rattle.std.specs.Prelude.{◌≡◌, []};
ghost use Rattle.hx_rules.specs.declared.event.Event.{Event};

use super::exchanges::ends;
use super::scenario::{Scenario, apply};
use super::{entered, equal, holds};
use hx_blog::Reader;
use hx_engine::{DeskError, Done, Entry, Exchange, Pass, SubmitError, Venue};
use hx_engine_testing::memory::Memory;
use hx_market::Event;
use hx_members::Setup;
use hx_testing::sending::{BUY, Order};
use std::alloc::Global;
use std::process::Abort;
use std::sync::Wait;
use std::test::*;
use std::thread::Threads;
use std::time::Clock;

// The first member may send two messages, the second one many.
const FEW: &[u8] = b"session HX00000003\n\
     start open\n\
     stock ABCD 5120000000644e435a20502020314e000000004e\n\
     member 1 FMA1 ALPHA PWALPHA 2\n\
     member 2 FMB2 BRAVO PWBRAVO 1000\n";

// The order of a member under this token, refused or not.
fn submit<V: Venue, R: Wait + Abort>(
    rt: &R,
    alloc: Global,
    exchange: &Exchange<V, Memory>,
    pass: &mut Pass<V>,
    member: u16,
    token: [u8; 2],
) -> Result<Done, SubmitError> {
    let order = Order {
        member,
        token,
        ..BUY
    };
    let event = entered(rt, alloc, &order);
    exchange.submit(rt, pass, &event)
}

// The pass sent events with these positions in the history, in this order.
fn expect_sent<V: Venue, R: Abort>(rt: &R, pass: &Pass<V>, positions: &[u64]) {
    equal(rt, pass.sent().len(), positions.len());
    for ((position, event), wanted) in pass.sent().iter().zip(positions) {
        equal(rt, *position, *wanted);
        holds(rt, matches!(event, Event::Message { .. }));
    }
}

// The third message of the first member is beyond its limit; one of the second member goes on after it.
struct BeyondTheLimit;

impl Scenario for BeyondTheLimit {
    fn apply<V: Venue + Send + Sync, R: Threads + Wait + Clock + Abort + Sync>(
        rt: &R,
        alloc: Global,
        exchange: Exchange<V, Memory>,
        mut passes: Vec<Pass<V>>,
        _reader: Reader<Entry>,
    ) {
        let mut pass = passes.pop().expect(rt, "a pass");
        holds(
            rt,
            submit(rt, alloc, &exchange, &mut pass, 1, *b"T1").is_ok(),
        );
        holds(
            rt,
            submit(rt, alloc, &exchange, &mut pass, 1, *b"T2").is_ok(),
        );
        let refused = submit(rt, alloc, &exchange, &mut pass, 1, *b"T3");
        let limit = DeskError::Limit { member: 1 };
        equal(rt, refused, Err(SubmitError::Refused(limit)));
        expect_sent(rt, &pass, &[1, 2]);
        holds(
            rt,
            submit(rt, alloc, &exchange, &mut pass, 2, *b"T4").is_ok(),
        );
        expect_sent(rt, &pass, &[1, 2, 3]);
        passes.push(pass).expect(rt, "a place");
        ends(rt, exchange, passes, 3, 3);
    }
}

#[test]
fn a_message_beyond_the_limit(rt: HostRuntime) -> Result<(), Fail> {
    let alloc = rt.alloc();
    let setup = Setup::read(alloc, FEW).expect(&rt, "a setup");
    apply::<BeyondTheLimit, _>(&rt, alloc, setup, 100, 1)
}

// Three orders; one that lacks memory is sent again, and stands once. Here there is all the memory that they need.
struct LacksMemory;

impl Scenario for LacksMemory {
    fn apply<V: Venue + Send + Sync, R: Threads + Wait + Clock + Abort + Sync>(
        rt: &R,
        alloc: Global,
        exchange: Exchange<V, Memory>,
        mut passes: Vec<Pass<V>>,
        _reader: Reader<Entry>,
    ) {
        let mut pass = passes.pop().expect(rt, "a pass");
        let positions = [1, 2, 3];
        for (before, token) in [*b"T1", *b"T2", *b"T3"].into_iter().enumerate() {
            let mut done = submit(rt, alloc, &exchange, &mut pass, 1, token);
            if done == Err(SubmitError::Refused(DeskError::NoMemory)) {
                expect_sent(rt, &pass, positions.get(..before).expect(rt, "a front"));
                done = submit(rt, alloc, &exchange, &mut pass, 1, token);
            }
            holds(rt, done.is_ok());
        }
        expect_sent(rt, &pass, &positions);
        passes.push(pass).expect(rt, "a place");
        ends(rt, exchange, passes, 3, 3);
    }
}

#[test]
fn an_event_that_lacks_memory(rt: HostRuntime) -> Result<(), Fail> {
    let alloc = rt.alloc();
    let setup = Setup::standard(alloc).expect(&rt, "a setup");
    apply::<LacksMemory, _>(&rt, alloc, setup, 100, 1)
}
