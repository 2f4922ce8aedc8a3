//! A framer is fed a piece again if it lacks memory for it: nothing of the first time is left.
//!
//! Here it has all the memory that it needs. `tests/refusals` refuses each growth of this test in turn.

use crate::tests::equal;
use hx_soup::{Framer, FramerError, SoupPacket};
use std::alloc::Global;

// A login as ALPHA, an order's first bytes, two heartbeats, and a logout with a payload.
const STREAM: [u8; 64] =
    *b"\0\x2fLalpha pwalpha                                3\0\x03UO1\0\x01R\0\x01R\0\x02Ox";

// The piece is fed, and again if there was no memory for its packets.
fn feed_again(
    alloc: Global,
    framer: &mut Framer,
    piece: &[u8],
) -> Result<Vec<SoupPacket>, FramerError> {
    match framer.feed(alloc, piece) {
        Err(FramerError::NoMemory) => framer.feed(alloc, piece),
        answer => answer,
    }
}

#[test]
fn a_stream_in_pieces(rt: HostRuntime) {
    for size in [1, 3, 10, 64] {
        let mut framer = Framer::new();
        let mut kinds = Vec::new(rt.alloc());
        for piece in STREAM.chunks(size) {
            let packets = feed_again(rt.alloc(), &mut framer, piece).expect(&rt, "packets");
            for packet in packets {
                kinds.push(packet.kind).expect(&rt, "a place");
            }
        }
        equal(&rt, kinds.as_slice(), b"LURRO".as_slice());
    }
}
