//! Two members at once, one of which fails; and the exchange after them.

use super::client::{Client, End, Want};
use super::packets::{
    ACCEPTED, ALPHA, BRAVO, HIDDEN, SHOWN, copy_of, first_private, one_order, one_reply, put_order,
};
use super::stage::{Day, apply};
use hx_testing::memory::{After, Input, Output};
use std::io::ErrorKind;
use std::sync::atomic::AtomicU64;

#[test]
fn a_session_that_fails(rt: HostRuntime) {
    let alloc = rt.alloc();
    let mut first = copy_of(&rt, alloc, ALPHA);
    put_order(&rt, &mut first, &SHOWN);
    let second = one_order(&rt, alloc, BRAVO, &HIDDEN);
    let to_first = one_reply(&rt, alloc, &SHOWN, *b"FMA1", 1);
    let to_second = one_reply(&rt, alloc, &HIDDEN, *b"FMB2", first_private(2));
    let count = AtomicU64::new(0);
    let clients = vec![in alloc;
        Client {
            input: Input {
                after: After::Fails(ErrorKind::ConnectionReset),
                ..Input::new(&first)
            },
            output: Output::new(alloc, &count),
            want: Want {
                least: ACCEPTED,
                ..Want::new(End::Read, 1, &to_first)
            },
        },
        Client::of(
            alloc,
            &second,
            &count,
            Want::new(End::Logout, 1, &to_second)
        ),
    ]
    .expect(&rt, "clients");
    let day = Day {
        left: Some((2, 1)),
        ..Day::of(alloc, clients)
    };
    apply(&rt, alloc, day);
}

#[test]
fn no_session_at_all(rt: HostRuntime) {
    let alloc = rt.alloc();
    let day = Day {
        left: Some((0, 0)),
        ..Day::of(alloc, Vec::new(alloc))
    };
    apply(&rt, alloc, day);
}
