//! Sessions run at the same time: each member's first submit waits for the other's.

use super::client::{Client, End, Want};
use super::packets::{ALPHA, BRAVO, HIDDEN, SHOWN, first_private, one_order, one_reply};
use super::stage::{Day, apply};
use hx_sessions::Gate;
use hx_testing::memory::wait_for;
use hx_units::MemberNo;
use std::sync::atomic::{AtomicU64, Ordering};

/// Holds the first submit of each of two members until the other's is there, and looks whether it is called once before
/// each message and once after it, each time in their order.
#[derive(Drop)]
pub struct Meeting {
    first: AtomicU64,
    second: AtomicU64,
    in_vain: AtomicU64,
    // The number of the last message that it was called before, and after, of the first member and of any other.
    begun: [AtomicU64; 2],
    ended: [AtomicU64; 2],
    // Whether it was called out of this order.
    astray: AtomicU64,
    submits: AtomicU64,
    // The number of messages in the first submit that was over last: the number of its member's messages before which
    // the gate was called by then.
    at_once: AtomicU64,
}

impl Meeting {
    /// Two members are expected.
    pub fn of_two() -> Self {
        Meeting::with(0)
    }

    /// No session waits.
    pub fn of_nobody() -> Self {
        Meeting::with(1)
    }

    // For both members: 1 if the first submit counts as there from the start, else 0.
    fn with(published_end: u64) -> Self {
        Meeting {
            first: AtomicU64::new(published_end),
            second: AtomicU64::new(published_end),
            in_vain: AtomicU64::new(0),
            begun: [AtomicU64::new(0), AtomicU64::new(0)],
            ended: [AtomicU64::new(0), AtomicU64::new(0)],
            astray: AtomicU64::new(0),
            submits: AtomicU64::new(0),
            at_once: AtomicU64::new(0),
        }
    }

    /// The number of messages in the first submit that was over last.
    pub fn at_once(&self) -> u64 {
        self.at_once.load(Ordering::SeqCst)
    }

    /// Whether no session waited in vain.
    pub fn was_in_time(&self) -> bool {
        self.in_vain.load(Ordering::SeqCst) == 0
    }

    /// The number of messages that were submitted, if the gate was called once before and once after each of them, with
    /// its number.
    pub fn submits(&self) -> Option<u64> {
        for i in 0..2 {
            if self.begun[i].load(Ordering::SeqCst) != self.ended[i].load(Ordering::SeqCst) {
                return None;
            }
        }
        if self.astray.load(Ordering::SeqCst) != 0 {
            return None;
        }
        Some(self.submits.load(Ordering::SeqCst))
    }

    // Each number follows the one before it, or is the first one of a session, and none comes after its submit that did not
    // come before it. Returns how many came before theirs.
    fn count(&self, counts: &[AtomicU64; 2], member: MemberNo, number: u64) -> u64 {
        let i = if member.get() == 1 { 0 } else { 1 };
        let before = counts[i].swap(number, Ordering::SeqCst);
        let begun = self.begun[i].load(Ordering::SeqCst);
        let follows = number == 1 || before.saturating_add(1) == number;
        if !follows || begun < number {
            self.astray.store(1, Ordering::SeqCst);
        }
        begun
    }
}

impl Gate for Meeting {
    fn before(&self, member: MemberNo, number: u64) {
        let _ = self.count(&self.begun, member, number);
        if number != 1 {
            return;
        }
        let (own, other) = if member.get() == 1 {
            (&self.first, &self.second)
        } else {
            (&self.second, &self.first)
        };
        own.store(1, Ordering::SeqCst);
        if !wait_for(other, 1) {
            self.in_vain.store(1, Ordering::SeqCst);
        }
    }

    fn after(&self, member: MemberNo, number: u64) {
        let begun = self.count(&self.ended, member, number);
        if number == 1 {
            self.at_once.store(begun, Ordering::SeqCst);
        }
        self.submits.fetch_add(1, Ordering::SeqCst);
    }
}

#[test]
fn sessions_overlap(rt: HostRuntime) {
    let alloc = rt.alloc();
    let (first, second) = (
        one_order(&rt, alloc, ALPHA, &SHOWN),
        one_order(&rt, alloc, BRAVO, &HIDDEN),
    );
    let to_first = one_reply(&rt, alloc, &SHOWN, *b"FMA1", 1);
    let to_second = one_reply(&rt, alloc, &HIDDEN, *b"FMB2", first_private(2));
    let count = AtomicU64::new(0);
    let clients = vec![in alloc;
        Client::of(alloc, &first, &count, Want::new(End::Logout, 1, &to_first)),
        Client::of(
            alloc,
            &second,
            &count,
            Want::new(End::Logout, 1, &to_second)
        ),
    ]
    .expect(&rt, "clients");
    let day = Day {
        gate: Meeting::of_two(),
        submits: Some(2),
        left: Some((2, 1)),
        ..Day::of(alloc, clients)
    };
    apply(&rt, alloc, day);
}
