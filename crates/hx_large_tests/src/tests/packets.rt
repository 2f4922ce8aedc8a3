//! A feed of 2,520 messages of 36 bytes, in packets of 36 messages: a packet of 37 would have 20 + 37 * 38 = 1,426 bytes,
//! and 1,400 are the most.

use super::{equal, holds};
use arrayvec::ArrayVec;
use hx_mold::{Request, cut, encode_request};
use hx_retransmit::{ListMessages, Publisher, Server};
use std::alloc::Global;
use std::process::Abort;

/// The session of the packets.
pub const SESSION: [u8; 10] = *b"HX00000001";

const MESSAGES: u64 = 2_520;

// A message: its number, and an A 28 times.
fn message(number: u64) -> ArrayVec<u8, 44> {
    let mut message = ArrayVec::new();
    let _ = message.try_extend_from_slice(&number.to_be_bytes());
    let _ = message.try_extend_from_slice(&[b'A'; 28]);
    message
}

fn messages<R: Abort>(rt: &R, alloc: Global) -> Vec<ArrayVec<u8, 44>> {
    let mut messages = Vec::new(alloc);
    for number in 1..=MESSAGES {
        messages.push(message(number)).expect(rt, "a message");
    }
    messages
}

fn put<R: Abort>(rt: &R, bytes: &mut Vec<u8>, others: &[u8]) {
    bytes.extend_from_slice(others).expect(rt, "more bytes");
}

// The packet of `count` messages from number `first` on: session, number, count, and each message after its length.
fn packet<R: Abort>(rt: &R, alloc: Global, first: u64, count: u16) -> Vec<u8> {
    let mut bytes = Vec::new(alloc);
    put(rt, &mut bytes, &SESSION);
    put(rt, &mut bytes, &first.to_be_bytes());
    put(rt, &mut bytes, &count.to_be_bytes());
    for index in 0..u64::from(count) {
        put(rt, &mut bytes, b"\0\x24");
        put(
            rt,
            &mut bytes,
            message(first.saturating_add(index)).as_slice(),
        );
    }
    bytes
}

#[test]
fn seventy_packets(rt: HostRuntime) {
    let alloc = rt.alloc();
    let list = messages(&rt, alloc);
    let packets = cut(alloc, SESSION, 1, &list).expect(&rt, "packets");
    let mut publisher = Publisher::new(SESSION, ListMessages::new(alloc), 0);
    publisher.append(&list).expect(&rt, "messages");
    let mut first = 1;
    for made in &packets {
        let want = packet(&rt, alloc, first, 36);
        equal(&rt, made.as_slice(), want.as_slice());
        let sent = publisher.turn(0).expect(&rt, "a packet");
        equal(&rt, sent.as_slice(), want.as_slice());
        first = first.saturating_add(36);
    }
    equal(&rt, packets.len(), 70);
    holds(&rt, publisher.turn(0).is_none());
}

// The number of the first message that is asked for, and how many are sent.
const ANSWERS: [(u64, u16); 5] = [(1, 36), (1_000, 36), (2_485, 36), (2_486, 35), (2_520, 1)];

#[test]
fn the_largest_count(rt: HostRuntime) {
    let alloc = rt.alloc();
    let mut server = Server::new(SESSION, ListMessages::new(alloc));
    server.append(&messages(&rt, alloc)).expect(&rt, "messages");
    for (sequence, count) in ANSWERS {
        let request = encode_request(Request {
            session: SESSION,
            sequence,
            count: 65_535,
        });
        let answer = server.answer(request.as_slice()).expect(&rt, "an answer");
        let want = packet(&rt, alloc, sequence, count);
        equal(&rt, answer.as_slice(), want.as_slice());
    }
}
