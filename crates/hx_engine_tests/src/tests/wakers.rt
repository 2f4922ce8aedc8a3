//! What no clause says of wakers: which threads are woken, and which sleep on.

use super::{equal, holds, member_of};
use hx_units::MemberNo;
use hx_wake::{Waker, Wakers};
use std::alloc::Global;
use std::process::Abort;
use std::sync::Wait;
use std::thread::{Threads, join};
use std::time::{Clock, Duration, Instant};

// Longer than any test takes, in milliseconds.
const LONG: u64 = 20_000;

const SHORT: u64 = 5;

fn long() -> Duration {
    Duration::from_millis(LONG)
}

fn short() -> Duration {
    Duration::from_millis(SHORT)
}

fn wakers_for<R: Abort>(rt: &R, alloc: Global, slots: u16) -> Wakers {
    Wakers::new(alloc, slots).expect(rt, "memory")
}

fn now<R: Clock + Abort>(rt: &R) -> Instant {
    Instant::now(rt).expect(rt, "the time")
}

fn since<R: Clock + Abort>(rt: &R, start: Instant) -> Duration {
    start.elapsed(rt).expect(rt, "the time")
}

#[test]
fn a_wake_ends_the_wait_that_comes(rt: HostRuntime) {
    let start = now(&rt);
    let waker = Waker::new();
    waker.arm();
    waker.wake();
    waker.wake();
    waker.sleep(long());
    holds(&rt, since(&rt, start) < long());
}

#[test]
fn a_wake_ends_the_wait_that_is_under_way(rt: HostRuntime) {
    let start = now(&rt);
    let waker = &Waker::new();
    waker.arm();
    let clock = &rt;
    join(
        &rt,
        move || waker.sleep(long()),
        move || {
            std::thread::sleep(clock, short());
            waker.wake();
        },
    );
    holds(&rt, since(&rt, start) < long());
}

// Nor does a waker for which no thread waited.
#[test]
fn a_wake_ends_one_wait(rt: HostRuntime) {
    let waker = Waker::new();
    waker.wake();
    waker.arm();
    waker.wake();
    waker.sleep(long());
    waker.arm();
    let start = now(&rt);
    waker.sleep(short());
    holds(&rt, short() <= since(&rt, start));
}

// Whether a waker that was armed has woken.
fn has_woken<R: Clock + Abort>(rt: &R, waker: &Waker) -> bool {
    let start = now(rt);
    waker.sleep(short());
    since(rt, start) < short()
}

// Of the wakers of slots 1 to 3 these wake for members.
fn wakes<R: Wait + Clock + Abort>(rt: &R, wakers: &Wakers, who: &[MemberNo], wanted: [bool; 3]) {
    wakers.waker(1).arm();
    wakers.waker(2).arm();
    wakers.waker(3).arm();
    wakers.wake(rt, who);
    let woken = [
        has_woken(rt, wakers.waker(1)),
        has_woken(rt, wakers.waker(2)),
        has_woken(rt, wakers.waker(3)),
    ];
    equal(rt, woken, wanted);
}

#[test]
fn only_who_listens_is_woken(rt: HostRuntime) {
    let (first, second) = (member_of(&rt, 1), member_of(&rt, 4095));
    let wakers = wakers_for(&rt, rt.alloc(), 3);
    wakes(&rt, &wakers, &[first], [false, false, false]);
    wakers.listen(&rt, 1, first);
    wakers.listen(&rt, 2, second);
    wakers.listen(&rt, 3, first);
    wakes(&rt, &wakers, &[], [false, false, false]);
    wakes(&rt, &wakers, &[first], [true, false, true]);
    wakes(&rt, &wakers, &[second, second], [false, true, false]);
    wakes(&rt, &wakers, &[first, second, first], [true, true, true]);
    wakers.leave(&rt, 1, first);
    wakes(&rt, &wakers, &[first], [false, false, true]);
    wakers.listen(&rt, 1, second);
    wakers.leave(&rt, 3, first);
    wakes(&rt, &wakers, &[first], [false, false, false]);
    wakes(&rt, &wakers, &[second], [true, true, false]);
    wakers.wake_all();
}

#[test]
fn slots_that_are_none(rt: HostRuntime) {
    let wakers = wakers_for(&rt, rt.alloc(), 2);
    wakers.waker(0).arm();
    wakers.waker(3).arm();
    wakers.wake_all();
    holds(&rt, !has_woken(&rt, wakers.waker(0)));
    holds(&rt, !has_woken(&rt, wakers.waker(3)));
    let first = member_of(&rt, 1);
    wakers.listen(&rt, 9, first);
    wakers.wake(&rt, &[first]);
    wakers.leave(&rt, 9, first);
    holds(&rt, Wakers::new(rt.alloc(), 0).is_ok());
}
