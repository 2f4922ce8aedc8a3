//! Logins that are taken, rejected or broken, and what is no login.

use super::client::{Client, End, Want, alone};
use super::equal;
use super::packets::{
    ACCEPTED, ALPHA, HIDDEN, LOGOUT, SHOWN, copy_of, first_private, put, put_accepted, put_order,
    put_packet,
};
use super::stage::{Day, apply};
use arrayvec::ArrayVec;
use hx_soup::SoupPacket;
use hx_testing::memory::{After, Input, Output};
use std::sync::atomic::AtomicU64;

#[test]
fn rejected_logins(rt: HostRuntime) {
    let (stranger, elsewhere) = (b"\0\x02JA".as_slice(), b"\0\x02JS".as_slice());
    let rows: [(&[u8; 46], u8, &[u8]); 5] = [
        (
            b"delta pwalpha                                1",
            b'A',
            stranger,
        ),
        (
            b"alpha pwbravo                                1",
            b'A',
            stranger,
        ),
        (
            b"alpha                                         ",
            b'A',
            stranger,
        ),
        (
            b"alpha pwalpha   HX00000002                   1",
            b'S',
            elsewhere,
        ),
        (
            b"alpha pwalpha   hx00000001                   1",
            b'S',
            elsewhere,
        ),
    ];
    for (login, reason, answer) in rows {
        let mut input = Vec::new(rt.alloc());
        put_packet(&rt, &mut input, b'L', login);
        put_order(&rt, &mut input, &SHOWN);
        let want = Want::new(End::NotAuthorized(reason), 0, answer);
        alone(&rt, rt.alloc(), Input::new(&input), want);
    }
}

#[test]
fn what_is_no_login(rt: HostRuntime) {
    let rows: [(&[u8], End); 8] = [
        (b"", End::ReaderEnd),
        (
            b"\0\x2eLalpha pwalpha                               1",
            End::Framing,
        ),
        (
            b"\0\x30Lalpha pwalpha                                 1",
            End::Framing,
        ),
        (
            b"\0\x2fLalpha pwalpha                               1x",
            End::Framing,
        ),
        (
            b"\0\x01R\0\x2fLalpha pwalpha                                1",
            End::Framing,
        ),
        (b"\0\0", End::Framing),
        (b"\x04\x01L", End::Framing),
        (b"\0\x2fLalpha pwalpha", End::ReaderEnd),
    ];
    for (input, end) in rows {
        alone(&rt, rt.alloc(), Input::new(input), Want::new(end, 0, b""));
    }
}

#[test]
fn a_second_login(rt: HostRuntime) {
    let mut input = copy_of(&rt, rt.alloc(), ALPHA);
    put(&rt, &mut input, ALPHA);
    put_order(&rt, &mut input, &SHOWN);
    alone(
        &rt,
        rt.alloc(),
        Input::new(&input),
        Want::new(End::Framing, 0, ACCEPTED),
    );
}

// If there are two replies: the number that is asked for, the one that is answered, and which of the replies come.
#[test]
fn numbers_that_are_asked_for(rt: HostRuntime) {
    let alloc = rt.alloc();
    let count = AtomicU64::new(0);
    let rows: [(&[u8; 46], &[u8; 33], bool, bool); 6] = [
        (
            b"ALPHA PWALPHA                                1",
            b"\0\x1fAHX00000001                   1",
            true,
            true,
        ),
        (
            b"alpha pwalpha   HX0000000100002               ",
            b"\0\x1fAHX00000001                   2",
            false,
            true,
        ),
        (
            b"alpha pwalpha   HX00000001                   2",
            b"\0\x1fAHX00000001                   2",
            false,
            true,
        ),
        (
            b"alpha pwalpha                                3",
            b"\0\x1fAHX00000001                   3",
            false,
            false,
        ),
        (
            b"alpha pwalpha                                0",
            b"\0\x1fAHX00000001                   3",
            false,
            false,
        ),
        (
            b"alpha pwalpha             18446744073709551615",
            b"\0\x1fAHX00000001                   3",
            false,
            false,
        ),
    ];
    for (login, answer, first, second) in rows {
        let mut input = Vec::new(alloc);
        put_packet(&rt, &mut input, b'L', login);
        put(&rt, &mut input, LOGOUT);
        let mut output = copy_of(&rt, alloc, answer);
        if first {
            put_accepted(&rt, &mut output, &SHOWN, *b"FMA1", 1);
        }
        if second {
            put_accepted(&rt, &mut output, &HIDDEN, *b"FMA1", first_private(1));
        }
        let client = Client::of(alloc, &input, &count, Want::new(End::Logout, 0, &output));
        let day = Day {
            before: vec![in alloc; SHOWN, HIDDEN].expect(&rt, "orders"),
            ..Day::of_one(&rt, alloc, client)
        };
        apply(&rt, alloc, day);
    }
}

#[test]
fn heartbeats_for_ever(rt: HostRuntime) {
    let alloc = rt.alloc();
    let count = AtomicU64::new(0);
    let client = Client {
        input: Input {
            after: After::Heartbeats,
            ..Input::new(ALPHA)
        },
        output: Output::new(alloc, &count),
        want: Want::new(End::Turns, 0, ACCEPTED),
    };
    let day = Day {
        turns: 1000,
        ..Day::of_one(&rt, alloc, client)
    };
    apply(&rt, alloc, day);
}

// What came whole before a framing fault is acted on; a logout among it ends the session.
#[test]
fn packets_before_a_framing_fault(rt: HostRuntime) {
    let alloc = rt.alloc();
    let mut whole = copy_of(&rt, alloc, ACCEPTED);
    put_accepted(&rt, &mut whole, &SHOWN, *b"FMA1", 1);
    let mut order = copy_of(&rt, alloc, ALPHA);
    put_order(&rt, &mut order, &SHOWN);
    for fault in [
        b"\0\0".as_slice(),
        b"\x04\x01".as_slice(),
        b"\0\x01S".as_slice(),
    ] {
        let mut input = copy_of(&rt, alloc, &order);
        put(&rt, &mut input, fault);
        put_order(&rt, &mut input, &HIDDEN);
        let want = Want {
            least: ACCEPTED,
            ..Want::new(End::Framing, 1, &whole)
        };
        alone(&rt, alloc, Input::new(&input), want);
        let mut input = copy_of(&rt, alloc, &order);
        put(&rt, &mut input, LOGOUT);
        put(&rt, &mut input, fault);
        alone(
            &rt,
            alloc,
            Input::new(&input),
            Want::new(End::Logout, 1, &whole),
        );
    }
}

// An empty message, heartbeats and debug packets ask for nothing.
#[test]
fn packets_that_ask_for_nothing(rt: HostRuntime) {
    let mut input = copy_of(&rt, rt.alloc(), ALPHA);
    put(
        &rt,
        &mut input,
        b"\0\x01U\0\x01R\0\x02+x\0\x01+\0\x02Rx\0\x02Ox",
    );
    put_order(&rt, &mut input, &SHOWN);
    alone(
        &rt,
        rt.alloc(),
        Input::new(&input),
        Want::new(End::Logout, 0, ACCEPTED),
    );
}

#[test]
fn no_password_in_a_printed_packet(rt: HostRuntime) {
    let mut payload = ArrayVec::new();
    let _ = payload.try_extend_from_slice(&ALPHA[3..]);
    let packet = SoupPacket {
        kind: b'L',
        payload,
    };
    let text = format!(in rt.alloc(); "{packet:?}").expect(&rt, "a text");
    equal(&rt, text.as_str(), "SoupPacket { kind: 76, .. }");
}
