//! Drop copies: the second member's login gets the replies to the first.

use super::client::{Client, End, Want};
use super::packets::{ACCEPTED, BRAVO, HIDDEN, LOGOUT, SHOWN, copy_of, one_order, one_reply, put};
use super::stage::{Day, apply};
use hx_sessions::DropCopy;
use hx_units::MemberNo;
use std::alloc::Global;
use std::process::Abort;
use std::sync::atomic::AtomicU64;

// The second member is a copy of the first.
fn copy<R: Abort>(rt: &R, alloc: Global) -> Vec<DropCopy> {
    let login = MemberNo::of(2).expect(rt, "a member");
    let member = MemberNo::of(1).expect(rt, "a member");
    vec![in alloc; DropCopy { login, member }].expect(rt, "a copy")
}

// The one order of the day is the first member's, and it is there before the login.
#[test]
fn a_copy_gets_the_replies_to_another_member(rt: HostRuntime) {
    let alloc = rt.alloc();
    let mut bytes = copy_of(&rt, alloc, BRAVO);
    put(&rt, &mut bytes, LOGOUT);
    let replies = one_reply(&rt, alloc, &SHOWN, *b"FMA1", 1);
    let count = AtomicU64::new(0);
    let client = Client::of(alloc, &bytes, &count, Want::new(End::Logout, 0, &replies));
    let mut day = Day::of_one(&rt, alloc, client);
    day.before.push(SHOWN).expect(&rt, "a place");
    day.copies = copy(&rt, alloc);
    day.left = Some((1, 1));
    apply(&rt, alloc, day);
}

// Its session ends, nothing is recorded, and nothing is published.
#[test]
fn a_message_of_a_copy_goes_nowhere(rt: HostRuntime) {
    let alloc = rt.alloc();
    let bytes = one_order(&rt, alloc, BRAVO, &HIDDEN);
    let count = AtomicU64::new(0);
    let client = Client::of(alloc, &bytes, &count, Want::new(End::Framing, 0, ACCEPTED));
    let mut day = Day::of_one(&rt, alloc, client);
    day.copies = copy(&rt, alloc);
    day.submits = Some(0);
    day.left = Some((0, 0));
    apply(&rt, alloc, day);
}
