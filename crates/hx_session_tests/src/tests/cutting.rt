//! A stream of packets that comes in pieces, whatever they are, and goes out in pieces.

use super::client::{Client, End, Want, alone};
use super::equal;
use super::packets::{
    ACCEPTED, ALPHA, HIDDEN, LOGOUT, SHOWN, copy_of, first_private, one_reply, put, put_accepted,
    put_order,
};
use super::stage::{Day, apply};
use hx_testing::memory::{Input, Output};
use std::alloc::Global;
use std::process::Abort;
use std::sync::atomic::AtomicU64;

/// A login, two orders and a logout: 156 bytes.
pub fn two_orders<R: Abort>(rt: &R, alloc: Global) -> Vec<u8> {
    let mut bytes = copy_of(rt, alloc, ALPHA);
    put_order(rt, &mut bytes, &SHOWN);
    put_order(rt, &mut bytes, &HIDDEN);
    put(rt, &mut bytes, LOGOUT);
    bytes
}

/// The answer to the login, and both replies.
pub fn two_replies<R: Abort>(rt: &R, alloc: Global) -> Vec<u8> {
    let mut bytes = copy_of(rt, alloc, ACCEPTED);
    put_accepted(rt, &mut bytes, &SHOWN, *b"FMA1", 1);
    put_accepted(rt, &mut bytes, &HIDDEN, *b"FMA1", first_private(1));
    bytes
}

#[test]
fn a_stream_cut_at_each_byte(rt: HostRuntime) {
    let alloc = rt.alloc();
    let (bytes, replies) = (two_orders(&rt, alloc), two_replies(&rt, alloc));
    equal(&rt, bytes.len(), 156);
    let want = Want::new(End::Logout, 2, &replies);
    for cut in 0..156 {
        let input = Input {
            cut,
            ..Input::new(&bytes)
        };
        alone(&rt, alloc, input, want);
    }
}

// After the login all comes by one read: both orders are one submit, and one by one they are two.
#[test]
fn messages_of_one_read_are_one_submit(rt: HostRuntime) {
    let alloc = rt.alloc();
    let (bytes, replies) = (two_orders(&rt, alloc), two_replies(&rt, alloc));
    let count = AtomicU64::new(0);
    for (most, at_once) in [(usize::MAX, 2), (49, 1)] {
        let client = Client {
            input: Input {
                most,
                ..Input::new(&bytes)
            },
            output: Output::new(alloc, &count),
            want: Want::new(End::Logout, 2, &replies),
        };
        let day = Day {
            submits: Some(2),
            at_once: Some(at_once),
            ..Day::of_one(&rt, alloc, client)
        };
        apply(&rt, alloc, day);
    }
}

// No other thread is at the lock, so 2,048 bytes come at once: 39 orders of 52 bytes each. The token of all but the
// first is used.
#[test]
fn a_session_alone_takes_little_at_once(rt: HostRuntime) {
    let alloc = rt.alloc();
    let mut bytes = copy_of(&rt, alloc, ALPHA);
    for _ in 0..100 {
        put_order(&rt, &mut bytes, &SHOWN);
    }
    put(&rt, &mut bytes, LOGOUT);
    let replies = one_reply(&rt, alloc, &SHOWN, *b"FMA1", 1);
    let count = AtomicU64::new(0);
    let client = Client::of(alloc, &bytes, &count, Want::new(End::Logout, 100, &replies));
    let day = Day {
        submits: Some(100),
        at_once: Some(39),
        ..Day::of_one(&rt, alloc, client)
    };
    apply(&rt, alloc, day);
}

#[test]
fn a_stream_byte_by_byte(rt: HostRuntime) {
    let alloc = rt.alloc();
    let (bytes, replies) = (two_orders(&rt, alloc), two_replies(&rt, alloc));
    let count = AtomicU64::new(0);
    for most in [1, 2, 7, 48, 50] {
        let client = Client {
            input: Input {
                most,
                ..Input::new(&bytes)
            },
            output: Output {
                most,
                ..Output::new(alloc, &count)
            },
            want: Want::new(End::Logout, 2, &replies),
        };
        apply(&rt, alloc, Day::of_one(&rt, alloc, client));
    }
}
