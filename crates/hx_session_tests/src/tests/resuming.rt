//! A member that comes again, that comes twice at once, and that comes to thousands of replies.

use super::client::{Client, End, Want};
use super::packets::{
    ACCEPTED, ALPHA, LOGOUT, Order, SHOWN, copy_of, one_order, one_reply, put, put_accepted,
    put_order,
};
use super::stage::{Day, apply, apply_by};
use hx_members::Setup;
use hx_testing::memory::{After, Input, Output};
use std::alloc::Global;
use std::process::Abort;
use std::sync::atomic::AtomicU64;

// A login for all replies, and a logout.
fn nothing_more<R: Abort>(rt: &R, alloc: Global) -> Vec<u8> {
    let mut bytes = copy_of(rt, alloc, ALPHA);
    put(rt, &mut bytes, LOGOUT);
    bytes
}

// The later session has the pass of the first one, by which one message was sent.
#[test]
fn a_later_session_gets_the_same_bytes(rt: HostRuntime) {
    let alloc = rt.alloc();
    let order = one_order(&rt, alloc, ALPHA, &SHOWN);
    let again = nothing_more(&rt, alloc);
    let replies = one_reply(&rt, alloc, &SHOWN, *b"FMA1", 1);
    let count = AtomicU64::new(0);
    let first = Client::of(alloc, &order, &count, Want::new(End::Logout, 1, &replies));
    let second = Client::of(alloc, &again, &count, Want::new(End::Logout, 1, &replies));
    let mut day = Day::of_one(&rt, alloc, first);
    day.later.push(second).expect(&rt, "a place");
    day.left = Some((1, 1));
    apply(&rt, alloc, day);
}

// Both log out once they have the reply to the order that one of them sends.
#[test]
fn two_sessions_of_one_member(rt: HostRuntime) {
    let alloc = rt.alloc();
    let mut order = copy_of(&rt, alloc, ALPHA);
    put_order(&rt, &mut order, &SHOWN);
    let replies = one_reply(&rt, alloc, &SHOWN, *b"FMA1", 1);
    let counts = [AtomicU64::new(0), AtomicU64::new(0)];
    let mut clients = Vec::new(alloc);
    for ((bytes, sent), count) in [(order.as_slice(), 1), (ALPHA, 0)].into_iter().zip(&counts) {
        let after = After::Waits {
            count,
            wanted: replies.len() as u64,
            last: LOGOUT,
        };
        let client = Client {
            input: Input {
                after,
                ..Input::new(bytes)
            },
            output: Output::new(alloc, count),
            want: Want::new(End::Logout, sent, &replies),
        };
        clients.push(client).expect(&rt, "a client");
    }
    apply(&rt, alloc, Day::of(alloc, clients));
}

// The number of orders that are there before the member comes.
const MANY: u64 = 3000;

const MANY_MESSAGES: &[u8] = b"session HX00000001
start open
stock ABCD 5120000000644e435a20502020314e000000004e
member 1 FMA1 ALPHA PWALPHA 3000
";

// The order of this number.
fn numbered(number: u64) -> Order {
    let mut token = *b"T     ";
    let mut rest = number;
    for digit in &mut token[1..] {
        *digit = b'0' + (rest % 10) as u8;
        rest /= 10;
    }
    Order { token, ..SHOWN }
}

// That many orders, and the answer to the login with all replies to them.
fn many<R: Abort>(rt: &R, alloc: Global) -> (Vec<Order>, Vec<u8>) {
    let mut orders = Vec::new(alloc);
    let mut replies = copy_of(rt, alloc, ACCEPTED);
    for number in 1..=MANY {
        let order = numbered(number);
        orders.push(order).expect(rt, "a place");
        put_accepted(rt, &mut replies, &order, *b"FMA1", number);
    }
    (orders, replies)
}

// The session has a turn for each reply, and a few. They go out 64 by one write: the last ones after the logout, and
// the answer to the login before all.
#[test]
fn thousands_of_replies(rt: HostRuntime) {
    let alloc = rt.alloc();
    let bytes = nothing_more(&rt, alloc);
    let (orders, replies) = many(&rt, alloc);
    let count = AtomicU64::new(0);
    let client = Client {
        input: Input::new(&bytes),
        output: Output::new(alloc, &count),
        want: Want {
            writes: 50,
            ..Want::new(End::Logout, 0, &replies)
        },
    };
    let day = Day {
        before: orders,
        turns: MANY + 100,
        ..Day::of_one(&rt, alloc, client)
    };
    let setup = Setup::read(alloc, MANY_MESSAGES).expect(&rt, "a setup");
    apply_by(&rt, alloc, setup, day);
}
