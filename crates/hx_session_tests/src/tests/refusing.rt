//! Messages that the exchange refuses, and sessions that lack memory.

use super::client::{Client, End, Want};
use super::cutting::{two_orders, two_replies};
use super::packets::{ACCEPTED, ALPHA, SHOWN, one_order, one_reply};
use super::stage::{Day, apply, apply_by};
use hx_members::Setup;
use hx_testing::memory::{Input, Output};
use std::alloc::Global;
use std::process::Abort;
use std::sync::atomic::AtomicU64;

const ONE_MESSAGE: &[u8] = b"session HX00000001
start open
stock ABCD 5120000000644e435a20502020314e000000004e
member 1 FMA1 ALPHA PWALPHA 1
member 2 FMB2 BRAVO PWBRAVO 1000
";

// The member may send one message: of its two orders the second one is refused, and ends its session. The gate is
// called around both.
#[test]
fn a_message_beyond_the_limit(rt: HostRuntime) {
    let alloc = rt.alloc();
    let bytes = two_orders(&rt, alloc);
    let replies = one_reply(&rt, alloc, &SHOWN, *b"FMA1", 1);
    let count = AtomicU64::new(0);
    let client = Client {
        input: Input::new(&bytes),
        output: Output::new(alloc, &count),
        want: Want {
            least: ACCEPTED,
            ..Want::new(End::Refused, 1, &replies)
        },
    };
    let day = Day {
        submits: Some(2),
        left: Some((1, 1)),
        ..Day::of_one(&rt, alloc, client)
    };
    let setup = Setup::read(alloc, ONE_MESSAGE).expect(&rt, "a setup");
    apply_by(&rt, alloc, setup, day);
}

// The gate is called around each of two submits.
#[test]
fn the_gate_is_called_round_each_submit(rt: HostRuntime) {
    let alloc = rt.alloc();
    let (bytes, replies) = (two_orders(&rt, alloc), two_replies(&rt, alloc));
    let count = AtomicU64::new(0);
    let client = Client::of(alloc, &bytes, &count, Want::new(End::Logout, 2, &replies));
    let day = Day {
        submits: Some(2),
        ..Day::of_one(&rt, alloc, client)
    };
    apply(&rt, alloc, day);
}

// An output that has room for all that comes.
fn roomy<'a, R: Abort>(rt: &R, alloc: Global, count: &'a AtomicU64) -> Output<'a> {
    Output {
        taken: Vec::with_capacity(alloc, 4096).expect(rt, "room"),
        ..Output::new(alloc, count)
    }
}

// A session that may lack memory, and one after it with the same pass that sends the same order again: a token counts
// once, so one reply is there in any case, and comes whole the second time. Here there is all the memory that both
// need; if an allocation is refused, the first one may end for lack of it.
#[test]
fn a_session_that_lacks_memory(rt: HostRuntime) {
    let alloc = rt.alloc();
    let order = one_order(&rt, alloc, ALPHA, &SHOWN);
    let replies = one_reply(&rt, alloc, &SHOWN, *b"FMA1", 1);
    let count = AtomicU64::new(0);
    let first = Client {
        input: Input::new(&order),
        output: roomy(&rt, alloc, &count),
        want: Want {
            may_lack: true,
            ..Want::new(End::Logout, 1, &replies)
        },
    };
    let second = Client {
        input: Input::new(&order),
        output: roomy(&rt, alloc, &count),
        want: Want {
            sent: (1, 2),
            ..Want::new(End::Logout, 1, &replies)
        },
    };
    let mut day = Day::of_one(&rt, alloc, first);
    day.later.push(second).expect(&rt, "a place");
    apply(&rt, alloc, day);
}
