//! A packet that grows by the bytes of a piece.
ghost use Rattle.std.specs.Prelude.{◌≡◌, ◌≤◌, ◌<◌, ◌+◌, length, IfSome};
ghost use Rattle.hx_units.specs.Fields.{number_at};
ghost use Rattle.hx_soup.specs.Packets.{longest, IsUnfinished};
ghost use Rattle.hx_soup.specs.Steps.{Adds, Reads, Steps};

use crate::packet::SoupPacket;
use arrayvec::ArrayVec;
use hx_units::fields::{put, u16_at};

// The greatest length of a packet.
const LONGEST: u16 = 1024;

/// What the next bytes of a piece make of the bytes of an unfinished packet.
#[derive(Drop)]
pub(crate) enum Step {
    /// With one byte more they are still unfinished.
    More,
    /// With this number of bytes more they are this packet.
    Whole(SoupPacket, usize),
    /// With one byte more they are a length that no packet has.
    Fault(u16),
}

/// Takes bytes of a piece, at least one of them, after those of an unfinished packet. A packet that is whole in the
/// piece is taken at once. After a whole packet nothing is retained.
pub(crate) fn advance(retained: &mut ArrayVec<u8, 1026>, piece: &[u8]) -> Step
    requires some { 0 < length piece.now }
    requires unfinished { IsUnfinished retained.old.items }
    ensures { Steps retained.old.items retained.new.items piece.now result }
{
    if retained.is_empty() {
        if let Some(size) = whole_size(piece) {
            return Step::Whole(read_packet(&piece[..size]), size);
        }
    }
    add(retained, piece[0])
}

// The size of the packet that stands whole in front.
fn whole_size(bytes: &[u8]) -> Option<usize>
    ensures { IfSome result (λ n. (n ≡ number_at 0 2 bytes.now + 2)
        × (3 ≤ n) × (n ≤ longest + 2) × (n ≤ length bytes.now)) }
{
    if bytes.len() < 3 {
        return None;
    }
    let length = u16_at(bytes, 0);
    if length == 0 || length > LONGEST || bytes.len() < length as usize + 2 {
        return None;
    }
    Some(length as usize + 2)
}

// Adds a byte to those of an unfinished packet.
fn add(retained: &mut ArrayVec<u8, 1026>, byte: u8) -> Step
    requires { IsUnfinished retained.old.items }
    ensures { Adds retained.old.items retained.new.items byte result }
{
    retained.push(byte);
    let bytes = retained.as_slice();
    if bytes.len() < 2 {
        return Step::More;
    }
    let length = u16_at(bytes, 0);
    if length == 0 || length > LONGEST {
        return Step::Fault(length);
    }
    if bytes.len() < length as usize + 2 {
        return Step::More;
    }
    let packet = read_packet(bytes);
    retained.clear();
    Step::Whole(packet, 1)
}

// The packet that the bytes are.
fn read_packet(bytes: &[u8]) -> SoupPacket
    requires len { length bytes.now ≡ number_at 0 2 bytes.now + 2 }
    requires some { 3 ≤ length bytes.now }
    requires most { length bytes.now ≤ longest + 2 }
    ensures { Reads bytes.now result }
{
    let mut payload = ArrayVec::new();
    put(&mut payload, &bytes[3..]);
    SoupPacket {
        kind: bytes[2],
        payload,
    }
}
