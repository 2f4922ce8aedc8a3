//! The transports alone: a stream of member packets framed, and a feed published in packets.

use crate::failure::Failure;
use crate::report::report;
use arrayvec::ArrayVec;
use hx_itch::{AddOrder, Feed, encode};
use hx_retransmit::{ListMessages, Publisher};
use hx_soup::{Framer, frame};
use hx_units::{NoMemory, Symbol};
use std::alloc::Global;
use std::io;
use std::time::{Clock, Instant};

const SESSION: [u8; 10] = *b"HX00000001";

// The bytes of an Enter Order Message, those of its packet, and those of one read of a socket.
const ENTER: usize = 49;

const PACKET: usize = ENTER + 3;

const READ: usize = 8_192;

// A stream of packets, each of which carries the number of bytes of an Enter Order Message.
fn stream(alloc: Global, packets: u64) -> Result<Vec<u8>, NoMemory> {
    let packet = frame(b'U', &[b'O'; ENTER]);
    let mut bytes = Vec::new(alloc);
    for _ in 0..packets {
        bytes.extend_from_slice(packet.as_slice())?;
    }
    Ok(bytes)
}

// The number of packets that a framer gives of a stream.
fn framed(alloc: Global, bytes: &[u8]) -> u64 {
    let mut framer = Framer::new();
    let mut count = 0u64;
    for piece in bytes.chunks(READ) {
        if let Ok(packets) = framer.feed(alloc, piece) {
            count = count.saturating_add(packets.len() as u64);
        }
    }
    count
}

fn message(reference: u64) -> ArrayVec<u8, 44> {
    encode(&Feed::AddOrder(AddOrder {
        locate: 1,
        time: 5,
        reference,
        side: b'B',
        shares: 100,
        stock: Symbol(*b"ABCD    "),
        price: 100_000,
    }))
}

// A publisher of this number of messages.
fn publisher(alloc: Global, count: u64) -> Result<Publisher<ListMessages>, NoMemory> {
    let mut messages = ListMessages::new(alloc);
    for reference in 0..count {
        messages.append(&[message(reference)])?;
    }
    Ok(Publisher::new(SESSION, messages, 0))
}

// The number of packets that a publisher sends until it has sent all.
fn published(publisher: &mut Publisher<ListMessages>) -> u64 {
    let mut count = 0u64;
    for _ in 0..u64::MAX {
        if publisher.turn(0).is_none() {
            break;
        }
        count = count.saturating_add(1);
    }
    count
}

// The rate of a framer.
fn framer_rate<R: Print + Eprint + Clock>(rt: &R, alloc: Global, bytes: &[u8]) -> io::Result<()> {
    let begun = Instant::now(rt)?;
    let packets = framed(alloc, bytes);
    report(rt, begun, "framed", packets, "messages")
}

// The rate of a publisher of this number of messages.
fn publisher_rate<R: Print + Eprint + Clock>(
    rt: &R,
    sender: &mut Publisher<ListMessages>,
    messages: u64,
) -> io::Result<()> {
    let begun = Instant::now(rt)?;
    let packets = published(sender);
    report(rt, begun, "published", messages, "messages")?;
    println!(rt; "in {packets} packets")
}

/// The rates of a framer and of a publisher, for this number of messages.
pub fn transport_rates<R: Print + Eprint + Clock>(
    rt: &R,
    alloc: Global,
    messages: u64,
) -> Result<(), Failure> {
    framer_rate(rt, alloc, &stream(alloc, messages)?)?;
    publisher_rate(rt, &mut publisher(alloc, messages)?, messages)?;
    Ok(())
}
