//! One packet (SoupBinTCP 3.00, Logical Packets).
ghost use Rattle.std.specs.Prelude.{◌≡◌, ◌<◌, length};
ghost use Rattle.hx_soup.specs.Packets.{longest, framed};

use arrayvec::ArrayVec;
use hx_units::fields::{put, u16_bytes};
use std::fmt::{self, Debug, Formatter, Write};

/// A packet of the client or the server (SoupBinTCP 3.00, Logical Packets). Its length, which counts the type
/// and the payload, is 1 to 1,024.
#[derive(Drop)]
pub struct SoupPacket {
    /// Its type (Packet Type): a letter, or `+`.
    pub kind: u8,
    /// What follows the type: 0 to 1,023 bytes.
    pub payload: ArrayVec<u8, 1023>,
}

// By hand, without the payload: that of a login has a password.
impl Debug for SoupPacket {
    fn fmt<W: Write>(&self, f: &mut Formatter<W>) -> fmt::Result {
        f.debug_struct("SoupPacket")
            .field("kind", &self.kind)
            .finish_non_exhaustive()
    }
}

/// The bytes of a packet of this type and payload, of at most 1,023 bytes: its length in 2 bytes, its type,
/// its payload (SoupBinTCP 3.00, Logical Packets). It takes no memory.
pub fn frame(kind: u8, payload: &[u8]) -> ArrayVec<u8, 1026>
    requires { length payload.now < longest }
    ensures { result.items ≡ framed kind payload.now }
{
    let mut bytes = ArrayVec::new();
    put(&mut bytes, &u16_bytes(payload.len() as u16 + 1));
    bytes.push(kind);
    put(&mut bytes, payload);
    bytes
}
