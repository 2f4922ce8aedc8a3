//! The end of the day ends a session, once all replies have gone out; a client that has not logged in then is sent
//! away.

use super::client::{Client, End, Want};
use super::packets::{
    ALPHA, END_OF_SESSION, SHOWN, one_reply, put, put_end_of_hours, put_timed_out,
};
use super::stage::{Day, apply};
use hx_testing::memory::{After, Input, Output};
use std::io::ErrorKind;
use std::process::Abort;
use std::sync::Wait;
use std::sync::atomic::AtomicU64;
use std::thread::Threads;
use std::time::Clock;

// The day ends after an order that lives until then; the client says nothing after its login.
#[test]
fn the_day_ends_after_the_last_reply(rt: HostRuntime) {
    let alloc = rt.alloc();
    let mut replies = one_reply(&rt, alloc, &SHOWN, *b"FMA1", 1);
    put_end_of_hours(&rt, &mut replies);
    put_timed_out(&rt, &mut replies, &SHOWN);
    put(&rt, &mut replies, END_OF_SESSION);
    let count = AtomicU64::new(0);
    let client = Client {
        input: Input {
            after: After::Fails(ErrorKind::WouldBlock),
            ..Input::new(ALPHA)
        },
        output: Output::new(alloc, &count),
        want: Want::new(End::DayEnd, 0, &replies),
    };
    let day = Day {
        before: vec![in alloc; SHOWN].expect(&rt, "orders"),
        codes: b"QMEC",
        turns: 1_000_000_000,
        ..Day::of_one(&rt, alloc, client)
    };
    apply(&rt, alloc, day);
}

// The beginning of a login.
const HALF: &[u8] = b"\0\x2fLalpha pwalpha    ";

// A client that sends this, and nothing more: how its session ends after these hours codes.
fn expect_silent<R: AllocGlobal + Threads + Wait + Clock + Abort + Sync>(
    rt: &R,
    codes: &'static [u8],
    end: End,
    bytes: &[u8],
    kind: ErrorKind,
) {
    let alloc = rt.alloc();
    let count = AtomicU64::new(0);
    let client = Client {
        input: Input {
            after: After::Fails(kind),
            ..Input::new(bytes)
        },
        output: Output::new(alloc, &count),
        want: Want::new(end, 0, b""),
    };
    let day = Day {
        codes,
        turns: 1000,
        ..Day::of_one(rt, alloc, client)
    };
    apply(rt, alloc, day);
}

#[test]
fn who_has_not_logged_in_keeps_no_day(rt: HostRuntime) {
    expect_silent(&rt, b"QMEC", End::DayEnd, b"", ErrorKind::WouldBlock);
    expect_silent(&rt, b"QMEC", End::DayEnd, HALF, ErrorKind::TimedOut);
}

#[test]
fn he_may_still_log_in_before_its_end(rt: HostRuntime) {
    expect_silent(&rt, b"QME", End::Turns, b"", ErrorKind::TimedOut);
    expect_silent(&rt, b"QME", End::Turns, HALF, ErrorKind::WouldBlock);
}
