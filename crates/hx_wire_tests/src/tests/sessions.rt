//! A session from its login to its end, byte for byte (SoupBinTCP 3.00), in the standard setup.
use super::{equal, holds};
use arrayvec::ArrayVec;
use hx_members::Setup;
use hx_sessions::{Action, Delivery, Intake, Turn, start};
use hx_soup::{LoginRequest, SoupPacket, accepted};
use hx_units::MemberNo;

// What a packet asks for.
fn asked(intake: &mut Intake, kind: u8, payload: &[u8]) -> Action {
    let mut bytes = ArrayVec::new();
    let _ = bytes.try_extend_from_slice(payload);
    intake.packet(&SoupPacket {
        kind,
        payload: bytes,
    })
}

// A reply of one byte.
fn reply(letter: u8) -> ArrayVec<u8, 80> {
    let mut bytes = ArrayVec::new();
    bytes.push(letter);
    bytes
}

// The payload of a login.
const PAYLOAD: &[u8; 46] = b"alpha pwalpha                                3";

// The same login: as the first member, with spaces for the session.
const LOGIN: LoginRequest = LoginRequest {
    user: *b"alpha ",
    password: *b"pwalpha   ",
    session: *b"          ",
    sequence: 3,
};

#[test]
fn a_login_for_the_third_reply(rt: HostRuntime) {
    let setup = Setup::standard(rt.alloc()).expect(&rt, "memory");
    equal(
        &rt,
        asked(&mut Intake::new(), b'L', PAYLOAD),
        Action::Login(LOGIN),
    );
    let start = start(&setup, &LOGIN, 5).expect(&rt, "accepted");
    equal(&rt, Some(start.member), MemberNo::of(1));
    equal(
        &rt,
        accepted(*setup.session(), start.first).as_slice(),
        b"\0\x1fAHX00000001                   3".as_slice(),
    );
}

#[test]
fn replies_from_the_third_on(rt: HostRuntime) {
    let mut delivery = Delivery::new(3, 0);
    for letter in *b"345" {
        assert!(rt; delivery.next() < 6);
        let Turn::Frame(frame) = delivery.turn(&[reply(letter)], false, 0) else {
            panic!(rt; "a reply");
        };
        equal(&rt, frame.as_slice(), [0, 2, b'S', letter].as_slice());
    }
    equal(&rt, delivery.next(), 6);
}

#[test]
fn a_number_above_the_next(rt: HostRuntime) {
    let setup = Setup::standard(rt.alloc()).expect(&rt, "memory");
    for (asked, first) in [(0, 6), (1, 1), (5, 5), (6, 6), (7, 6), (9, 6)] {
        let login = LoginRequest {
            sequence: asked,
            ..LOGIN
        };
        let start = start(&setup, &login, 5).expect(&rt, "accepted");
        equal(&rt, start.first, first);
    }
}

#[test]
fn letters_of_rejected_logins(rt: HostRuntime) {
    let setup = Setup::standard(rt.alloc()).expect(&rt, "memory");
    let sessions = [
        (*b"HX00000001", None),
        (*b"hx00000001", Some(b'S')),
        (*b"HX00000002", Some(b'S')),
        (*b" HX0000001", Some(b'S')),
    ];
    for (session, letter) in sessions {
        let login = LoginRequest { session, ..LOGIN };
        equal(&rt, start(&setup, &login, 5).err(), letter);
    }
    let stranger = LoginRequest {
        user: *b"BRAVO ",
        session: *b"HX00000002",
        ..LOGIN
    };
    equal(&rt, start(&setup, &stranger, 5).err(), Some(b'A'));
}

#[test]
fn packets_of_a_client(rt: HostRuntime) {
    let mut intake = Intake::new();
    equal(&rt, asked(&mut intake, b'L', PAYLOAD), Action::Login(LOGIN));
    equal(&rt, asked(&mut intake, b'U', b"O"), Action::Submit);
    let ignored: [(u8, &[u8]); 3] = [(b'U', b""), (b'R', b"x"), (b'+', b"")];
    for (kind, payload) in ignored {
        equal(&rt, asked(&mut intake, kind, payload), Action::Ignore);
    }
    equal(&rt, asked(&mut intake, b'O', b"x"), Action::Logout);
    equal(&rt, asked(&mut intake, b'U', b"O"), Action::Ignore);
}

#[test]
fn packets_that_are_faults(rt: HostRuntime) {
    equal(
        &rt,
        asked(&mut Intake::new(), b'L', &PAYLOAD[..45]),
        Action::Fault,
    );
    equal(&rt, asked(&mut Intake::new(), b'R', b""), Action::Fault);
    let mut intake = Intake::new();
    equal(&rt, asked(&mut intake, b'L', PAYLOAD), Action::Login(LOGIN));
    equal(&rt, asked(&mut intake, b'L', PAYLOAD), Action::Fault);
    equal(&rt, asked(&mut intake, b'L', PAYLOAD), Action::Ignore);
    let mut intake = Intake::Open;
    equal(&rt, asked(&mut intake, b'S', b"O"), Action::Fault);
}

#[test]
fn heartbeats_and_the_end(rt: HostRuntime) {
    let mut delivery = Delivery::new(6, 5);
    holds(
        &rt,
        matches!(delivery.turn(&[], false, 1_000_000_004), Turn::Idle),
    );
    let turns: [(u64, bool, &[u8]); 3] = [
        (1_000_000_005, false, b"\0\x01H"),
        (5, false, b"\0\x01H"),
        (5, true, b"\0\x01Z"),
    ];
    for (now, ended, bytes) in turns {
        assert_eq!(rt; delivery.next(), 6);
        let Turn::Frame(frame) = delivery.turn(&[], ended, now) else {
            panic!(rt; "a packet");
        };
        equal(&rt, frame.as_slice(), bytes);
    }
    assert_eq!(rt; delivery.next(), 6);
    holds(
        &rt,
        matches!(delivery.turn(&[reply(b'6')], true, 5), Turn::Over),
    );
}
