//! What a relay retains when packets are lost, and how it answers.

use crate::tests::equal;
use arrayvec::ArrayVec;
use hx_feed_clients::Relay;
use hx_mold::{Request, cut, encode_request};
use std::alloc::Global;
use std::process::Abort;

const SESSION: [u8; 10] = *b"HX00000001";

// A message of one letter.
fn message(letter: u8) -> ArrayVec<u8, 44> {
    let mut message = ArrayVec::new();
    let _ = message.try_push(letter);
    message
}

// The packet of this message under this number.
fn packet<R: Abort>(rt: &R, alloc: Global, number: u8) -> ArrayVec<u8, 1400> {
    let mut packets = cut(
        alloc,
        SESSION,
        number as u64,
        &[message(b'@' + number % 32)],
    )
    .expect(rt, "memory");
    packets.pop().expect(rt, "a packet")
}

// The request for `count` messages from a number on.
fn request(sequence: u64, count: u16) -> Request {
    Request {
        session: SESSION,
        sequence,
        count,
    }
}

#[test]
fn what_is_lost_is_asked_for_and_then_answered(rt: HostRuntime) {
    let alloc = rt.alloc();
    let mut relay = Relay::new(alloc, SESSION, 16).expect(&rt, "memory");
    for number in [1, 3] {
        let packet = packet(&rt, alloc, number);
        relay.receive(packet.as_slice()).expect(&rt, "memory");
    }
    // Message 2 is missing: nothing after it is answered yet.
    equal(&rt, relay.request(), Some(request(2, 1)));
    let third = encode_request(request(3, 1));
    equal(&rt, relay.answer(third.as_slice()).is_none(), true);
    // It comes, as an answer from the source.
    let second = packet(&rt, alloc, 2);
    relay.receive(second.as_slice()).expect(&rt, "memory");
    equal(&rt, relay.request(), None);
    let all = encode_request(request(1, 3));
    let answer = relay.answer(all.as_slice()).expect(&rt, "an answer");
    let wanted = cut(
        alloc,
        SESSION,
        1,
        &[message(b'A'), message(b'B'), message(b'C')],
    )
    .expect(&rt, "memory");
    equal(&rt, wanted.len(), 1);
    equal(&rt, answer.as_slice(), wanted[0].as_slice());
}

#[test]
fn packets_of_another_session_and_bad_bytes_change_nothing(rt: HostRuntime) {
    let alloc = rt.alloc();
    let mut relay = Relay::new(alloc, SESSION, 16).expect(&rt, "memory");
    let others = cut(alloc, *b"HX00000002", 1, &[message(b'A')]).expect(&rt, "memory");
    for bytes in [others[0].as_slice(), b"", b"HX00000001"] {
        relay.receive(bytes).expect(&rt, "memory");
    }
    let first = encode_request(request(1, 1));
    equal(&rt, relay.answer(first.as_slice()).is_none(), true);
    equal(&rt, relay.request(), None);
}

#[test]
fn a_large_feed_is_retained(rt: HostRuntime) {
    let alloc = rt.alloc();
    let mut relay = Relay::new(alloc, SESSION, 512).expect(&rt, "memory");
    let mut messages = Vec::new(alloc);
    for number in 0..50_000u32 {
        messages
            .push(message(b'A' + (number % 26) as u8))
            .expect(&rt, "memory");
    }
    for packet in cut(alloc, SESSION, 1, &messages).expect(&rt, "memory") {
        relay.receive(packet.as_slice()).expect(&rt, "memory");
    }
    let last = encode_request(request(50_000, 1));
    let answer = relay.answer(last.as_slice()).expect(&rt, "an answer");
    // The 50,000th letter is the second of the alphabet: 49,999 = 1,923 x 26 + 1.
    let wanted = cut(alloc, SESSION, 50_000, &[message(b'B')]).expect(&rt, "memory");
    equal(&rt, answer.as_slice(), wanted[0].as_slice());
}
