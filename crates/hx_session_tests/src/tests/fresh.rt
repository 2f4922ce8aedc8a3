//! A session sends replies as soon as they are there, and not at its end.

use super::client::{Client, End, Want};
use super::packets::{
    ACCEPTED, BRAVO, CHARLI, HIDDEN, LOGOUT, SALE, SHOWN, copy_of, put_accepted, put_executed,
    put_order,
};
use super::stage::{Day, apply};
use hx_testing::memory::{After, Input, Output};
use std::sync::atomic::AtomicU64;

// The first member has a hidden order. The second one sends a displayed one at its price, and logs out only once both
// its replies have gone out. The third member's order, which brings the second of these, comes once the first is out.
#[test]
fn replies_before_the_logout(rt: HostRuntime) {
    let alloc = rt.alloc();
    let mut order = copy_of(&rt, alloc, BRAVO);
    put_order(&rt, &mut order, &SHOWN);
    let mut sale = Vec::new(alloc);
    put_order(&rt, &mut sale, &SALE);
    let mut replies = copy_of(&rt, alloc, ACCEPTED);
    put_accepted(&rt, &mut replies, &SHOWN, *b"FMB2", 1);
    let first = replies.len() as u64;
    put_executed(&rt, &mut replies, &SHOWN, b'A');
    let mut to_third = copy_of(&rt, alloc, ACCEPTED);
    put_accepted(&rt, &mut to_third, &SALE, *b"FMC3", 2);
    put_executed(&rt, &mut to_third, &SALE, b'R');
    let counts = [AtomicU64::new(0), AtomicU64::new(0)];
    let buyer = Client {
        input: Input {
            after: After::Waits {
                count: &counts[0],
                wanted: replies.len() as u64,
                last: LOGOUT,
            },
            ..Input::new(&order)
        },
        output: Output::new(alloc, &counts[0]),
        want: Want::new(End::Logout, 1, &replies),
    };
    let seller = Client {
        input: Input {
            after: After::Waits {
                count: &counts[0],
                wanted: first,
                last: &sale,
            },
            ..Input::new(CHARLI)
        },
        output: Output::new(alloc, &counts[1]),
        want: Want {
            least: ACCEPTED,
            ..Want::new(End::ReaderEnd, 1, &to_third)
        },
    };
    let day = Day {
        before: vec![in alloc; HIDDEN].expect(&rt, "orders"),
        left: Some((3, 2)),
        ..Day::of(alloc, vec![in alloc; buyer, seller].expect(&rt, "clients"))
    };
    apply(&rt, alloc, day);
}
