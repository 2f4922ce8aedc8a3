//! A session that has nothing to do.

use super::client::{Client, End, Want};
use super::equal;
use super::packets::{ACCEPTED, ALPHA, copy_of, put};
use super::stage::{Day, apply};
use hx_testing::memory::{After, Input, Output, Rest};
use std::sync::atomic::AtomicU64;

// A heartbeat of the server (SoupBinTCP 3.00, Server Heartbeat Packet).
const HEARTBEAT: &[u8] = b"\0\x01H";

// The time at which the input ends, in nanoseconds: after nine heartbeats.
const END: u64 = 9_500_000_000;

// It sleeps until its next heartbeat, each time: in nine seconds and a half it sends nine, and sleeps ten times.
#[test]
fn an_idle_session_sleeps(rt: HostRuntime) {
    let alloc = rt.alloc();
    let rest = Rest::new(END);
    let count = AtomicU64::new(0);
    let mut whole = copy_of(&rt, alloc, ACCEPTED);
    for _ in 0..9 {
        put(&rt, &mut whole, HEARTBEAT);
    }
    let client = Client {
        input: Input {
            after: After::Rests(&rest),
            ..Input::new(ALPHA)
        },
        output: Output::new(alloc, &count),
        want: Want::new(End::ReaderEnd, 0, &whole),
    };
    apply(&rt, alloc, Day::of_one(&rt, alloc, client));
    equal(&rt, rest.sleeps(), 10);
}
