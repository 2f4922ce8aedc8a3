//! Forty messages asked for again, and a publisher's turns, byte for byte (MoldUDP64 1.00), under the session
//! HX00000001: of a list of messages, and of a log.
ghost use Rattle.std.specs.Prelude.{◌≡◌};

use super::packets::{SESSION, first_packet, last_packet, numbered};
use super::{equal, holds};
use arrayvec::ArrayVec;
use hx_blog::{Log, Writer};
use hx_mold::{Messages, Request, answer};
use hx_retransmit::{ListMessages, LogMessages, Publisher, Server};
use std::process::Abort;

// Requests that are not answered: for no message, for one that is not there, for number 0, of another session, and two
// that are no request.
const NOTHING: [&[u8]; 6] = [
    b"HX00000001\0\0\0\0\0\0\0\x01\0\0",
    b"HX00000001\0\0\0\0\0\0\0\x29\0\x01",
    b"HX00000001\0\0\0\0\0\0\0\0\0\x01",
    b"HX00000002\0\0\0\0\0\0\0\x01\0\x01",
    b"HX00000001\0\0\0\0\0\0\0\x01\0",
    b"HX00000001\0\0\0\0\0\0\0\x01\0\x01\0",
];

// The request is answered by this packet.
fn expect_answer<M: Messages>(
    rt: &impl Abort,
    server: &mut Server<M>,
    request: &[u8],
    packet: &[u8],
) {
    let answer = server.answer(request).expect(rt, "an answer");
    equal(rt, answer.as_slice(), packet);
}

// A server of forty messages.
fn expect_answers<M: Messages, R: AllocGlobal + Abort>(rt: &R, server: &mut Server<M>) {
    let first = first_packet(rt.alloc()).expect(rt, "memory");
    let last = last_packet(rt.alloc()).expect(rt, "memory");
    equal(rt, (first.len(), last.len()), (1388, 172));
    for request in NOTHING {
        holds(rt, server.answer(request).is_none());
    }
    expect_answer(rt, server, b"HX00000001\0\0\0\0\0\0\0\x01\xff\xff", &first);
    expect_answer(rt, server, b"HX00000001\0\0\0\0\0\0\0\x25\xff\xff", &last);
}

// The packet of a turn.
fn expect_turn<M: Messages>(
    rt: &impl Abort,
    publisher: &mut Publisher<M>,
    now: u64,
    packet: &[u8],
) {
    let sent = publisher.turn(now).expect(rt, "a packet");
    equal(rt, sent.as_slice(), packet);
}

// A publisher of forty messages, made at 0.
fn expect_turns<M: Messages, R: AllocGlobal + Abort>(rt: &R, publisher: &mut Publisher<M>) {
    let pulse = b"HX00000001\0\0\0\0\0\0\0\x29\0\0";
    let end = b"HX00000001\0\0\0\0\0\0\0\x29\xff\xff".as_slice();
    expect_turn(
        rt,
        publisher,
        0,
        &first_packet(rt.alloc()).expect(rt, "memory"),
    );
    expect_turn(
        rt,
        publisher,
        0,
        &last_packet(rt.alloc()).expect(rt, "memory"),
    );
    for now in [0, 999_999_999] {
        holds(rt, publisher.turn(now).is_none());
    }
    for now in [1_000_000_000, 5] {
        expect_turn(rt, publisher, now, pulse);
    }
    equal(rt, publisher.end().as_slice(), end);
}

// Publishes messages under one event.
fn publish(rt: &impl Abort, log: &Log<u8>, writer: &mut Writer<u8>, messages: &[ArrayVec<u8, 44>])
    requires { writer.old.log ≡ log.now }
    ensures { writer.new.log ≡ writer.old.log }
{
    for message in messages {
        if writer.stage(log, message).is_err() {
            panic!(rt; "no slot is free");
        }
    }
    writer.publish(log, &1);
}

#[test]
fn answers_of_a_list(rt: HostRuntime) {
    let mut server = Server::new(SESSION, ListMessages::new(rt.alloc()));
    server
        .append(&numbered(rt.alloc(), 0, 40).expect(&rt, "memory"))
        .expect(&rt, "memory");
    expect_answers(&rt, &mut server);
}

#[test]
fn turns_over_a_list(rt: HostRuntime) {
    let mut publisher = Publisher::new(SESSION, ListMessages::new(rt.alloc()), 0);
    publisher
        .append(&numbered(rt.alloc(), 0, 40).expect(&rt, "memory"))
        .expect(&rt, "memory");
    expect_turns(&rt, &mut publisher);
}

#[test]
fn answers_and_turns_of_a_log(rt: HostRuntime) {
    let (log, mut writer, mut reader) = Log::new(rt.alloc(), 40).expect(&rt, "a log");
    let other = reader.split(&log);
    let mut server = Server::new(SESSION, LogMessages::new(&log, other));
    let mut publisher = Publisher::new(SESSION, LogMessages::new(&log, reader), 0);
    holds(&rt, publisher.turn(0).is_none());
    publish(
        &rt,
        &log,
        &mut writer,
        &numbered(rt.alloc(), 0, 40).expect(&rt, "memory"),
    );
    expect_answers(&rt, &mut server);
    expect_turns(&rt, &mut publisher);
}

#[test]
fn a_receipt_is_sent_to_its_end(rt: HostRuntime) {
    let (log, mut writer, reader) = Log::new(rt.alloc(), 40).expect(&rt, "a log");
    let mut publisher = Publisher::new(SESSION, LogMessages::new(&log, reader), 0);
    publish(
        &rt,
        &log,
        &mut writer,
        &numbered(rt.alloc(), 0, 40).expect(&rt, "memory"),
    );
    publisher.learn(writer.receipt(&log));
    expect_turns(&rt, &mut publisher);
}

#[test]
fn messages_of_a_list(rt: HostRuntime) {
    let alloc = rt.alloc();
    let mut messages = ListMessages::new(alloc);
    equal(&rt, messages.count(), 0);
    messages
        .append(&numbered(alloc, 0, 2).expect(&rt, "memory"))
        .expect(&rt, "memory");
    equal(&rt, messages.count(), 2);
    holds(&rt, messages.get(0).is_none());
    holds(&rt, messages.get(3).is_none());
    let second = messages.get(2).expect(&rt, "a message");
    holds(&rt, second.as_slice().ends_with(b"AA\x01"));
    let request = Request {
        session: SESSION,
        sequence: 2,
        count: 1,
    };
    let packet = answer(SESSION, &mut messages, &request).expect(&rt, "an answer");
    equal(&rt, packet.len(), 58);
}
