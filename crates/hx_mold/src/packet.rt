//! Downstream packets (MoldUDP64 1.00, Downstream Packet).
ghost use Rattle.std.specs.Prelude.{◌≡◌, ◌≤◌, Some, length, IfSome};
ghost use Rattle.hx_mold.specs.declared.packet.MoldPacket.{MoldPacket};
ghost use Rattle.hx_mold.specs.Packets.{header, SpellsPacket};
ghost use Rattle.hx_mold.specs.Reading.{packet_of};

use crate::blocks::{Blocks, are_blocks};
use arrayvec::ArrayVec;
use hx_units::fields::{array_at, put, u16_at, u16_bytes, u64_at, u64_bytes};

// The message count that ends a session.
const END: u16 = 65_535;

/// A packet of the feed (MoldUDP64 1.00, Downstream Packet). The first message of a session has number 1.
#[derive(Drop)]
pub enum MoldPacket<'a> {
    /// Messages: from 1 to 65,534 of them, each of 0 to 65,535 bytes.
    Blocks {
        /// The session (Session).
        session: [u8; 10],
        /// The number of the first message (Sequence Number).
        sequence: u64,
        /// The messages, in order.
        messages: Blocks<'a>,
    },
    /// No message: the message count is 0.
    Heartbeat {
        /// The session (Session).
        session: [u8; 10],
        /// The number of the next message (Sequence Number).
        next: u64,
    },
    /// No message, now or later: the message count is 65,535.
    EndOfSession {
        /// The session (Session).
        session: [u8; 10],
        /// The number that the next message would have (Sequence Number).
        next: u64,
    },
}

/// The packet that the bytes are, or none if they are no packet: if the header or a block is cut, or bytes follow the
/// last block, or the header of a heartbeat or an end of session (MoldUDP64 1.00, Downstream Packet).
pub fn decode_packet(bytes: &[u8]) -> Option<MoldPacket<'_>>
    ensures found { IfSome result (λ p. SpellsPacket bytes.now p) }
    ensures only { (p : MoldPacket) → SpellsPacket bytes.now p → result ≡ Some p }
    ensures exact { result ≡ packet_of bytes.now }
{
    read(bytes)
}

// The packet, as a function of the bytes.
fn read(bytes: &[u8]) -> Option<MoldPacket<'_>>
    ensures { result ≡ packet_of bytes.now }
{
    if bytes.len() < 20 {
        return None;
    }
    let session = array_at(bytes, 0);
    let sequence = u64_at(bytes, 10);
    let count = u16_at(bytes, 18);
    let rest = &bytes[20..];
    if count == 0 {
        return if rest.is_empty() {
            Some(MoldPacket::Heartbeat {
                session,
                next: sequence,
            })
        } else {
            None
        };
    }
    if count == END {
        return if rest.is_empty() {
            Some(MoldPacket::EndOfSession {
                session,
                next: sequence,
            })
        } else {
            None
        };
    }
    if !are_blocks(count, rest) {
        return None;
    }
    Some(MoldPacket::Blocks {
        session,
        sequence,
        messages: Blocks::new(count, rest),
    })
}

// The first twenty bytes of a packet.
pub(crate) fn write_header<const N: usize>(
    session: [u8; 10],
    sequence: u64,
    count: u16,
) -> ArrayVec<u8, N>
    requires { 20 ≤ N }
    ensures items { result.items ≡ header session sequence count }
    ensures len { length result.items ≡ 20 }
{
    let mut out = ArrayVec::new();
    put(&mut out, &session);
    put(&mut out, &u64_bytes(sequence));
    put(&mut out, &u16_bytes(count));
    out
}

/// A heartbeat, which says that the next message has the number `next` (MoldUDP64 1.00, Heartbeats). It
/// takes no memory.
pub fn heartbeat(session: [u8; 10], next: u64) -> ArrayVec<u8, 20>
    ensures { SpellsPacket result.items (MoldPacket.Heartbeat session next) }
{
    write_header(session, next, 0)
}

/// The packet that ends a session whose next message would have the number `next` (MoldUDP64 1.00, End of
/// Session). It takes no memory.
pub fn end_of_session(session: [u8; 10], next: u64) -> ArrayVec<u8, 20>
    ensures { SpellsPacket result.items (MoldPacket.EndOfSession session next) }
{
    write_header(session, next, END)
}
