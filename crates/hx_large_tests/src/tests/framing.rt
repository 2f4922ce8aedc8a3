//! 200,070 bytes of a stream, from a reader that gives one at a time: 195 packets of the largest length. 70 of them in
//! one piece.

use super::{equal, holds};
use hx_soup::{Framer, SoupPacket, frame};
use hx_testing::memory::Input;
use std::alloc::{AllocError, Global};
use std::io::Read;
use std::process::Abort;

const PACKETS: u8 = 195;

// The packets of these numbers, of 1,023 bytes each, all of which are the packet's number.
fn stream(alloc: Global) -> Result<Vec<u8>, AllocError> {
    let mut bytes = Vec::new(alloc);
    for number in 0..PACKETS {
        bytes.extend_from_slice(frame(b'U', &[number; 1_023]).as_slice())?;
    }
    Ok(bytes)
}

#[test]
fn byte_by_byte(rt: HostRuntime) {
    let bytes = stream(rt.alloc()).expect(&rt, "a stream");
    equal(&rt, bytes.len(), 200_070);
    let mut input = Input {
        most: 1,
        ..Input::new(&bytes)
    };
    let mut framer = Framer::new();
    let mut space = [0; 4_096];
    let mut number: u8 = 0;
    for call in 1..=200_070 {
        let count = input.read(&mut space).expect(&rt, "a byte");
        equal(&rt, count, 1);
        for packet in framer.feed(rt.alloc(), &space[..1]).expect(&rt, "packets") {
            expect_packet(&rt, &packet, number);
            number = number.saturating_add(1);
            // Each comes with its last byte, the 1,026th.
            equal(&rt, call, 1_026 * u64::from(number));
        }
    }
    equal(&rt, number, PACKETS);
}

// The packet of this number.
fn expect_packet<R: Abort>(rt: &R, packet: &SoupPacket, number: u8) {
    equal(rt, packet.kind, b'U');
    equal(rt, packet.payload.as_slice(), [number; 1_023].as_slice());
}

#[test]
fn seventy_in_one_piece(rt: HostRuntime) {
    let bytes = stream(rt.alloc()).expect(&rt, "a stream");
    let piece = bytes.get(..70 * 1_026).expect(&rt, "70 packets");
    let mut framer = Framer::new();
    let packets = framer.feed(rt.alloc(), piece).expect(&rt, "packets");
    equal(&rt, packets.len(), 70);
    for (packet, number) in packets.iter().zip(0..70) {
        expect_packet(&rt, packet, number);
    }
    let length = bytes.get(..2).expect(&rt, "a length");
    let none = framer.feed(rt.alloc(), length).expect(&rt, "no packet");
    holds(&rt, none.is_empty());
}
