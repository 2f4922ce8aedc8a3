//! A screen that follows a feed of datagrams, and asks for what it missed.

use super::network::Network;
use crate::tests::{equal, holds};
use arrayvec::ArrayVec;
use hx_itch::decode;
use hx_mold::{answer, cut, end_of_session};
use hx_reader::{FeedBook, Screen};
use hx_retransmit::ListMessages;
use std::alloc::Global;
use std::process::Abort;
use std::test::*;

pub type Message = ArrayVec<u8, 44>;

pub type Packet = ArrayVec<u8, 1400>;

const SESSION: [u8; 10] = *b"HX00000001";

// How many messages a screen stores that came too early.
const INDICES: usize = 256;

// How many stocks there are.
const STOCKS: u16 = 2;

/// A feed, and its packets.
#[derive(Drop)]
pub struct Sent {
    /// Its messages.
    pub feed: Vec<Message>,
    packets: Vec<Packet>,
    server: ListMessages,
}

// The packets of a feed, each of `size` messages except the last.
fn packets_of(rt: &impl Abort, alloc: Global, feed: &[Message], size: usize) -> Vec<Packet> {
    let mut packets = Vec::new(alloc);
    for index in (0..feed.len()).step_by(size.max(1)) {
        let end = feed.len().min(index.saturating_add(size));
        for packet in cut(alloc, SESSION, index as u64 + 1, &feed[index..end]).expect(
            rt, "memory",
        ) {
            packets.push(packet).expect(rt, "memory");
        }
    }
    packets
}

impl Sent {
    /// A feed in packets of `size` messages, except the last.
    pub fn of(rt: &impl Abort, alloc: Global, feed: Vec<Message>, size: usize) -> Sent {
        let packets = packets_of(rt, alloc, &feed, size);
        let mut server = ListMessages::new(alloc);
        server.append(&feed).expect(rt, "memory");
        Sent {
            feed,
            packets,
            server,
        }
    }

    /// How many packets there are.
    pub fn count(&self) -> usize {
        self.packets.len()
    }
}

// Hands out what has come: the next messages of the feed, after the first `given`. It returns how many were handed out
// in all.
fn hand_out<R: Abort>(rt: &R, screen: &mut Screen, feed: &[Message], given: usize) -> usize {
    for index in given..usize::MAX {
        let Some(message) = screen.step().expect(rt, "a step") else {
            return index;
        };
        let wanted = feed.get(index).expect(rt, "a message of the feed");
        holds(rt, decode(wanted.as_slice()) == Some(message));
    }
    usize::MAX
}

// Asks for what is missing until nothing is.
fn ask<R: Abort>(
    rt: &R,
    screen: &mut Screen,
    feed: &[Message],
    server: &mut ListMessages,
    given: usize,
) -> usize {
    let mut given = given;
    for _ in 0..u64::MAX {
        let Some(request) = screen.reader.request() else {
            break;
        };
        let packet = answer(SESSION, server, &request).expect(rt, "an answer");
        screen.receive(packet.as_slice());
        given = hand_out(rt, screen, feed, given);
    }
    given
}

// The book of all messages, applied one by one.
fn book_of(rt: &impl Abort, alloc: Global, feed: &[Message]) -> FeedBook {
    let mut book = FeedBook::new(alloc);
    for message in feed {
        let message = decode(message.as_slice()).expect(rt, "a message");
        book.apply(&message).expect(rt, "memory");
    }
    book
}

// Both books have the same best prices of each stock.
fn expect_best<R: Abort>(rt: &R, book: &FeedBook, wanted: &FeedBook) {
    for locate in 1..=STOCKS {
        holds(rt, book.bid(locate, None) == wanted.bid(locate, None));
        holds(rt, book.offer(locate, None) == wanted.offer(locate, None));
    }
}

/// The feed comes over the network to a screen, which asks for what it missed after every `often` packets and in the
/// end. All messages were handed out then, in order, each once, and the book is that of the feed.
pub fn expect_all<R: AllocGlobal + Abort>(rt: &R, sent: &mut Sent, network: Network, often: usize) {
    let mut screen = Screen::new(rt.alloc(), SESSION, INDICES).expect(rt, "a screen");
    let mut given = 0;
    for index in 0..sent.packets.len() + 1 {
        for at in network.pass(index) {
            if let Some(packet) = at.and_then(|at| sent.packets.get(at)) {
                screen.receive(packet.as_slice());
            }
        }
        given = hand_out(rt, &mut screen, &sent.feed, given);
        if index % often.max(1) == 0 {
            given = ask(rt, &mut screen, &sent.feed, &mut sent.server, given);
        }
    }
    screen.receive(end_of_session(SESSION, sent.feed.len() as u64 + 1).as_slice());
    given = ask(rt, &mut screen, &sent.feed, &mut sent.server, given);
    holds(rt, screen.reader.is_whole());
    equal(rt, given, sent.feed.len());
    expect_best(rt, &screen.book, &book_of(rt, rt.alloc(), &sent.feed));
}
