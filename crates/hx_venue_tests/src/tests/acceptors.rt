//! What no clause says of acceptors: words that are addresses, the table of failed logins, and rates.

use crate::tests::{equal, holds};
use hx_listener::*;
use std::alloc::Global;
use std::fmt::Display;
use std::net::{IpAddr, SocketAddr};
use std::process::Abort;
use std::sync::atomic::Ordering;

// What is shown reads so, or the test ends.
fn reads<R: Abort, D: Display + Drop>(rt: &R, alloc: Global, shown: D, words: &str) {
    let text = format!(in alloc; "{shown}").expect(rt, "memory");
    assert!(rt; text.as_str() == words, "{text} is not {words}");
}

fn ip<R: Abort>(rt: &R, text: &str) -> IpAddr {
    text.parse::<IpAddr>().expect(rt, text)
}

// Where a word says.
fn address<R: Abort>(rt: &R, word: &str) -> SocketAddr {
    address_of(word).expect(rt, word)
}

fn is_no_address<R: Abort>(rt: &R, word: &str) {
    assert!(rt; address_of(word).is_none(), "{word}");
}

#[test]
fn words_that_are_addresses(rt: HostRuntime) {
    for (word, wanted) in [
        ("9001", "127.0.0.1:9001"),
        ("10.0.0.5:9001", "10.0.0.5:9001"),
        ("0.0.0.0:1", "0.0.0.0:1"),
        ("239.1.2.3:65535", "239.1.2.3:65535"),
        ("[::1]:9001", "[::1]:9001"),
        ("[fd00::5]:9001", "[fd00::5]:9001"),
    ] {
        reads(&rt, rt.alloc(), address(&rt, word), wanted);
    }
    for word in [
        "",
        "65536",
        "localhost:9001",
        "10.0.0.5",
        "10.0.0.256:1",
        "::1:9001",
        "1:2",
    ] {
        is_no_address(&rt, word);
    }
}

// Where a feed goes that is sent to these.
fn feeds_to<R: Abort>(rt: &R, alloc: Global, words: &[&str]) -> Vec<SocketAddr> {
    let mut feeds = Vec::new(alloc);
    for word in words {
        feeds.push(address(rt, word)).expect(rt, "memory");
    }
    feeds
}

#[test]
fn addresses_of_a_day(rt: HostRuntime) {
    let alloc = rt.alloc();
    let (listen, requests) = (address(&rt, "[::1]:9001"), address(&rt, "9003"));
    let feeds = feeds_to(&rt, alloc, &["9002", "239.1.2.3:9002"]);
    let addresses = Addresses::of(listen, feeds, requests, 4).expect(&rt, "addresses");
    holds(&rt, !addresses.are_loopback());
    let feeds = feeds_to(&rt, alloc, &["10.0.0.5:9003"]);
    holds(&rt, Addresses::of(listen, feeds, requests, 4).is_none());
    holds(
        &rt,
        Addresses::of(listen, Vec::new(alloc), requests, 4).is_none(),
    );
}

fn counts_for<R: Abort>(rt: &R, address: &str, source: &str) {
    let (from, wanted) = (ip(rt, address), ip(rt, source));
    assert!(rt; source_of(from) == wanted, "{address}");
}

#[test]
fn whom_a_connection_counts_for(rt: HostRuntime) {
    for (address, source) in [
        ("10.0.0.5", "10.0.0.5"),
        ("::ffff:10.0.0.5", "10.0.0.5"),
        ("2001:db8:1:2:3:4:5:6", "2001:db8:1:2::"),
        ("2001:db8:1:2::1", "2001:db8:1:2::"),
        ("::1", "::"),
    ] {
        counts_for(&rt, address, source);
    }
}

// One address fails whenever its back-off is over. The back-offs are 1, 2, 4, 8, 16 and 30 seconds, and 30 from there
// on; another address waits for nothing; after a good login, or five minutes, nothing is left of it.
#[test]
fn backoffs_grow_and_are_forgotten(rt: HostRuntime) {
    let mut backoffs = Backoffs::new(rt.alloc()).expect(&rt, "memory");
    let (one, other) = (ip(&rt, "10.0.0.5"), ip(&rt, "10.0.0.6"));
    for (now, end) in [
        (500, 1_500),
        (1_500, 3_500),
        (3_500, 7_500),
        (7_500, 15_500),
        (15_500, 31_500),
        (31_500, 61_500),
        (61_500, 91_500),
    ] {
        backoffs.fail(one, now);
        equal(&rt, (backoffs.end(one), backoffs.end(other)), (end, 0));
    }
    backoffs.forget(one);
    equal(&rt, backoffs.end(one), 0);
    backoffs.fail(one, 100_000);
    backoffs.fail(one, 400_000);
    equal(&rt, backoffs.end(one), 401_000);
}

// 1,024 addresses are known. One more, and the one that failed the longest time ago is forgotten.
#[test]
fn the_oldest_failure_makes_room(rt: HostRuntime) {
    let mut backoffs = Backoffs::new(rt.alloc()).expect(&rt, "memory");
    let address = |n: u16| IpAddr::from([10, 0, n.to_be_bytes()[0], n.to_be_bytes()[1]]);
    for n in 0..1_024 {
        backoffs.fail(address(n), u64::from(n));
    }
    backoffs.fail(address(0), 2_000);
    backoffs.fail(address(5_000), 2_001);
    equal(&rt, backoffs.end(address(0)), 4_000);
    equal(&rt, backoffs.end(address(1)), 0);
    equal(&rt, backoffs.end(address(2)), 1_002);
    equal(&rt, backoffs.end(address(5_000)), 3_001);
}

#[test]
fn reasons_read_well(rt: HostRuntime) {
    for (why, words) in [
        (Left::Gone, "gone before its login"),
        (Left::NoLogin, "no login"),
        (Left::Late, "no login in time"),
        (Left::NoSlot, "no place is free"),
        (Left::Crowded, "too many wait at the door"),
        (Left::TooMany, "too many of one address"),
        (Left::Paused, "logins of its address failed"),
        (Left::DayEnd, "the day is over"),
    ] {
        reads(&rt, rt.alloc(), why, words);
    }
}

#[test]
fn each_reason_is_counted_for_itself(rt: HostRuntime) {
    let tally = Tally::new();
    let reasons = [
        Left::Gone,
        Left::NoLogin,
        Left::Late,
        Left::NoSlot,
        Left::Crowded,
        Left::TooMany,
        Left::Paused,
        Left::DayEnd,
    ];
    for (before, why) in reasons.into_iter().enumerate() {
        for _ in 0..before {
            count(tally.closed(why));
        }
    }
    for (before, why) in reasons.into_iter().enumerate() {
        equal(&rt, tally.closed(why).load(Ordering::SeqCst), before as u64);
    }
}
