//! Packets and logins byte for byte (SoupBinTCP 3.00).
use super::{count, equal, holds};
use hx_members::Setup;
use hx_soup::{
    Framer, FramerError, LoginRequest, NOT_AUTHORIZED, SESSION_NOT_AVAILABLE, accepted,
    decode_login, frame, rejected, trimmed,
};

// A login as ALPHA, an order's first bytes, a heartbeat, and a logout with a payload.
const STREAM: [u8; 61] =
    *b"\0\x2fLalpha pwalpha                                3\0\x03UO1\0\x01R\0\x02Ox";

#[test]
fn packets_byte_by_byte(rt: HostRuntime) {
    let alloc = rt.alloc();
    let mut framer = Framer::new();
    holds(
        &rt,
        framer.feed(alloc, &[0]).expect(&rt, "packets").is_empty(),
    );
    holds(
        &rt,
        framer.feed(alloc, &[1]).expect(&rt, "packets").is_empty(),
    );
    let packets = framer.feed(alloc, b"R").expect(&rt, "packets");
    count(&rt, packets.len(), 1);
    equal(&rt, packets[0].kind, b'R');
    holds(&rt, packets[0].payload.as_slice().is_empty());
    holds(
        &rt,
        framer.feed(alloc, &[0]).expect(&rt, "packets").is_empty(),
    );
    let Err(FramerError::Empty { before }) = framer.feed(alloc, &[0]) else {
        panic!(rt; "a length of 0");
    };
    holds(&rt, before.is_empty());
    holds(
        &rt,
        matches!(framer.feed(alloc, b"R"), Err(FramerError::Failed)),
    );
    holds(
        &rt,
        matches!(framer.feed(alloc, &[]), Err(FramerError::Failed)),
    );
}

#[test]
fn a_length_above_1024(rt: HostRuntime) {
    let alloc = rt.alloc();
    let Err(FramerError::TooLong { length, before }) = Framer::new().feed(alloc, &[4, 1]) else {
        panic!(rt; "a length of 1,025");
    };
    equal(&rt, length, 1025);
    holds(&rt, before.is_empty());
    let Err(FramerError::TooLong { length, before }) = Framer::new().feed(
        alloc,
        b"\0\x02U7\xff\xff\0",
    ) else {
        panic!(rt; "a length of 65,535");
    };
    equal(&rt, length, 65_535);
    count(&rt, before.len(), 1);
    equal(&rt, before[0].payload.as_slice(), b"7".as_slice());
}

#[test]
fn the_longest_packet(rt: HostRuntime) {
    let bytes = frame(b'+', &[b'x'; 1023]);
    holds(&rt, bytes.starts_with(b"\x04\0+x"));
    let packets = Framer::new()
        .feed(rt.alloc(), bytes.as_slice())
        .expect(&rt, "packets");
    count(&rt, packets.len(), 1);
    equal(&rt, packets[0].payload.as_slice(), [b'x'; 1023].as_slice());
}

#[test]
fn every_cut_of_a_stream(rt: HostRuntime) {
    let alloc = rt.alloc();
    let whole = Framer::new().feed(alloc, &STREAM).expect(&rt, "packets");
    count(&rt, whole.len(), 4);
    equal(&rt, whole[1].payload.as_slice(), b"O1".as_slice());
    equal(&rt, whole[3].kind, b'O');
    for at in 0..STREAM.len() {
        let (front, back) = STREAM.split_at(at);
        let mut framer = Framer::new();
        let mut packets = framer.feed(alloc, front).expect(&rt, "packets");
        for packet in framer.feed(alloc, back).expect(&rt, "packets") {
            packets.push(packet).expect(&rt, "memory");
        }
        equal(&rt, packets.len(), whole.len());
        for (packet, wanted) in packets.iter().zip(&whole) {
            equal(&rt, packet.kind, wanted.kind);
            equal(&rt, packet.payload.as_slice(), wanted.payload.as_slice());
        }
    }
}

#[test]
fn logins(rt: HostRuntime) {
    let read: [(&[u8], u64); 5] = [
        (b"alpha pwalpha                                3", 3),
        (b"alpha pwalpha              3                  ", 3),
        (b"alpha pwalpha                     0003        ", 3),
        (b"alpha pwalpha                                 ", 0),
        (
            b"alpha pwalpha             18446744073709551615",
            18_446_744_073_709_551_615,
        ),
    ];
    for (payload, sequence) in read {
        let login = LoginRequest {
            user: *b"alpha ",
            password: *b"pwalpha   ",
            session: *b"          ",
            sequence,
        };
        equal(&rt, decode_login(payload), Some(login));
    }
}

#[test]
fn what_is_no_login(rt: HostRuntime) {
    let bad: [&[u8]; 8] = [
        b"alpha pwalpha             18446744073709551616",
        b"alpha pwalpha             99999999999999999999",
        b"alpha pwalpha                              1 2",
        b"alpha pwalpha                               +3",
        b"alpha pwalpha                               3x",
        b"alpha pwalpha                               3",
        b"alpha pwalpha                                 3",
        b"",
    ];
    for payload in bad {
        holds(&rt, decode_login(payload).is_none());
    }
}

#[test]
fn answers_to_a_login(rt: HostRuntime) {
    equal(
        &rt,
        accepted(*b"HX00000001", 3).as_slice(),
        b"\0\x1fAHX00000001                   3".as_slice(),
    );
    equal(
        &rt,
        accepted(*b"HX00000001", 18_446_744_073_709_551_615).as_slice(),
        b"\0\x1fAHX0000000118446744073709551615".as_slice(),
    );
    equal(
        &rt,
        rejected(NOT_AUTHORIZED).as_slice(),
        b"\0\x02JA".as_slice(),
    );
    equal(
        &rt,
        rejected(SESSION_NOT_AVAILABLE).as_slice(),
        b"\0\x02JS".as_slice(),
    );
    equal(&rt, trimmed(b"  a b "), b"a b".as_slice());
}

// What a login or a member is printed as for debugging has no password.
#[test]
fn no_password_is_printed(rt: HostRuntime) {
    let login = LoginRequest {
        user: *b"alpha ",
        password: *b"pwalpha   ",
        session: *b"          ",
        sequence: 3,
    };
    let text = format!(in rt.alloc(); "{login:?}").expect(&rt, "memory");
    holds(&rt, text.starts_with("LoginRequest {"));
    holds(&rt, !text.contains("password"));
    let setup = Setup::standard(rt.alloc()).expect(&rt, "memory");
    for member in setup.members() {
        let text = format!(in rt.alloc(); "{member:?}").expect(&rt, "memory");
        holds(&rt, text.starts_with("Member {"));
        holds(&rt, !text.contains("password"));
    }
}
