//! Reads and writes that fail in the midst of a session.

use super::client::{Client, End, Want};
use super::cutting::{two_orders, two_replies};
use super::equal;
use super::packets::ACCEPTED;
use super::stage::{Day, apply};
use hx_testing::memory::{Bad, Input, NONE_BAD, Output};
use std::io::ErrorKind;
use std::process::Abort;
use std::sync::Wait;
use std::sync::atomic::AtomicU64;
use std::thread::Threads;
use std::time::Clock;

// How a session ends, what it submits at least and at most, and how many bytes it writes at least and at most.
type Outcome = (End, (usize, usize), (usize, usize));

// A session of two orders, whose bytes come in 40 at a time: the login in two reads, then three more. A write takes the
// answer to the login, or one reply.
fn expect<R: AllocGlobal + Threads + Wait + Clock + Abort + Sync>(
    rt: &R,
    read: Bad,
    write: Bad,
    outcome: &Outcome,
) {
    let alloc = rt.alloc();
    let (bytes, replies) = (two_orders(rt, alloc), two_replies(rt, alloc));
    let count = AtomicU64::new(0);
    let (end, sent, (least, most)) = *outcome;
    let client = Client {
        input: Input {
            most: 40,
            bad: read,
            ..Input::new(&bytes)
        },
        output: Output {
            most: ONE - LOGIN,
            bad: write,
            ..Output::new(alloc, &count)
        },
        want: Want {
            end,
            sent,
            least: replies.get(..least).expect(rt, "a front"),
            whole: replies.get(..most).expect(rt, "a front"),
            may_lack: false,
            writes: u64::MAX,
        },
    };
    apply(rt, alloc, Day::of_one(rt, alloc, client));
}

// Each read of these numbers fails so, and this comes of it.
fn expect_reads<R: AllocGlobal + Threads + Wait + Clock + Abort + Sync>(
    rt: &R,
    kind: Option<ErrorKind>,
    outcomes: &[Outcome],
) {
    for (call, outcome) in (1..).zip(outcomes) {
        expect(rt, Bad { call, kind }, NONE_BAD, outcome);
    }
}

// The same of each write.
fn expect_writes<R: AllocGlobal + Threads + Wait + Clock + Abort + Sync>(
    rt: &R,
    kind: Option<ErrorKind>,
    outcomes: &[Outcome],
) {
    for (call, outcome) in (1..).zip(outcomes) {
        expect(rt, NONE_BAD, Bad { call, kind }, outcome);
    }
}

// The bytes of the answer to the login, of this and the first reply, and of this and both.
const LOGIN: usize = 33;

const ONE: usize = 102;

const BOTH: usize = 171;

// All is done.
const DONE: Outcome = (End::Logout, (2, 2), (BOTH, BOTH));

#[test]
fn a_session_writes_so_many_bytes(rt: HostRuntime) {
    equal(&rt, ACCEPTED.len(), LOGIN);
    equal(&rt, two_replies(&rt, rt.alloc()).len(), BOTH);
}

#[test]
fn reads_that_may_be_tried_again(rt: HostRuntime) {
    for kind in [
        ErrorKind::Interrupted,
        ErrorKind::WouldBlock,
        ErrorKind::TimedOut,
    ] {
        expect_reads(&rt, Some(kind), &[DONE; 6]);
    }
}

// What a session has done before its reads of these numbers, if the last of them is never asked for.
fn before_reads(end: End) -> [Outcome; 6] {
    [
        (end, (0, 0), (0, 0)),
        (end, (0, 0), (0, 0)),
        (end, (0, 0), (LOGIN, LOGIN)),
        (end, (0, 0), (LOGIN, LOGIN)),
        (end, (1, 1), (LOGIN, ONE)),
        DONE,
    ]
}

#[test]
fn reads_that_fail(rt: HostRuntime) {
    for kind in [
        ErrorKind::BrokenPipe,
        ErrorKind::ConnectionReset,
        ErrorKind::Other,
    ] {
        expect_reads(&rt, Some(kind), &before_reads(End::Read));
    }
    expect_reads(&rt, None, &before_reads(End::ReaderEnd));
}

#[test]
fn a_write_that_is_interrupted(rt: HostRuntime) {
    expect_writes(&rt, Some(ErrorKind::Interrupted), &[DONE; 4]);
}

#[test]
fn writes_that_fail(rt: HostRuntime) {
    let outcomes = [
        (End::Write, (0, 0), (0, 0)),
        (End::Write, (1, 2), (LOGIN, LOGIN)),
        (End::Write, (2, 2), (ONE, ONE)),
        DONE,
    ];
    let kinds = [
        Some(ErrorKind::WouldBlock),
        Some(ErrorKind::TimedOut),
        Some(ErrorKind::BrokenPipe),
        Some(ErrorKind::Other),
        None,
    ];
    for kind in kinds {
        expect_writes(&rt, kind, &outcomes);
    }
}
