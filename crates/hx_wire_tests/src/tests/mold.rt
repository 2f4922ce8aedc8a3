//! Packets and requests byte for byte (MoldUDP64 1.00), under the session HX00000001.
use super::packets::{SESSION, first_packet, last_packet, numbered};
use super::{count, equal, holds};
use arrayvec::ArrayVec;
use hx_mold::{
    Blocks, Messages, MoldPacket, Request, cut, decode_packet, decode_request, end_of_session,
    heartbeat,
};
use hx_units::NoMemory;
use std::alloc::Global;

#[test]
fn packets_without_messages(rt: HostRuntime) {
    let pulse = b"HX00000001\0\0\0\0\0\0\0\x29\0\0";
    let end = b"HX00000001\0\0\0\0\0\0\0\x29\xff\xff";
    equal(&rt, heartbeat(SESSION, 41).as_slice(), pulse.as_slice());
    equal(&rt, end_of_session(SESSION, 41).as_slice(), end.as_slice());
    let Some(MoldPacket::Heartbeat { session, next }) = decode_packet(pulse) else {
        panic!(rt; "a heartbeat");
    };
    equal(&rt, session, SESSION);
    equal(&rt, next, 41);
    let Some(MoldPacket::EndOfSession { session, next }) = decode_packet(end) else {
        panic!(rt; "an end of session");
    };
    equal(&rt, session, SESSION);
    equal(&rt, next, 41);
}

#[test]
fn what_is_no_packet(rt: HostRuntime) {
    let bad: [&[u8]; 7] = [
        b"",
        b"HX00000001\0\0\0\0\0\0\0\x29\0",
        b"HX00000001\0\0\0\0\0\0\0\x29\0\0\0",
        b"HX00000001\0\0\0\0\0\0\0\x29\xff\xff\0",
        b"HX00000001\0\0\0\0\0\0\0\x29\0\x01\0",
        b"HX00000001\0\0\0\0\0\0\0\x29\0\x01\0\x02A",
        b"HX00000001\0\0\0\0\0\0\0\x29\0\x01\0\x02ABC",
    ];
    for bytes in bad {
        holds(&rt, decode_packet(bytes).is_none());
    }
}

#[test]
fn messages_of_a_packet(rt: HostRuntime) {
    let bytes = b"HX00000001\0\0\0\0\0\0\0\x29\0\x03\0\x02AB\0\0\0\x01C";
    let Some(
        MoldPacket::Blocks {
            session,
            sequence,
            mut messages,
        },
    ) = decode_packet(bytes)
    else {
        panic!(rt; "messages");
    };
    equal(&rt, session, SESSION);
    equal(&rt, sequence, 41);
    equal(&rt, messages.next(), Some(b"AB".as_slice()));
    equal(&rt, messages.next(), Some(b"".as_slice()));
    equal(&rt, messages.next(), Some(b"C".as_slice()));
    equal(&rt, messages.next(), None);
}

#[test]
fn requests(rt: HostRuntime) {
    let request = Request {
        session: SESSION,
        sequence: 37,
        count: 65_535,
    };
    equal(
        &rt,
        decode_request(b"HX00000001\0\0\0\0\0\0\0\x25\xff\xff"),
        Some(request),
    );
    equal(
        &rt,
        decode_request(b"HX00000001\0\0\0\0\0\0\0\x25\xff"),
        None,
    );
    equal(
        &rt,
        decode_request(b"HX00000001\0\0\0\0\0\0\0\x25\xff\xff\0"),
        None,
    );
}

#[test]
fn forty_messages_in_packets(rt: HostRuntime) {
    let alloc = rt.alloc();
    let list = numbered(alloc, 0, 40).expect(&rt, "memory");
    let packets = cut(alloc, SESSION, 1, &list).expect(&rt, "memory");
    count(&rt, packets.len(), 2);
    equal(&rt, packets[0].len(), 1388);
    equal(&rt, packets[1].len(), 172);
    equal(
        &rt,
        packets[0].as_slice(),
        first_packet(alloc).expect(&rt, "memory").as_slice(),
    );
    equal(
        &rt,
        packets[1].as_slice(),
        last_packet(alloc).expect(&rt, "memory").as_slice(),
    );
    equal(
        &rt,
        cut(alloc, SESSION, 1, &[]).expect(&rt, "memory").len(),
        0,
    );
}
