//! Packets out of a stream that comes in pieces.
ghost use Rattle.std.specs.Prelude.{◌≡◌, ◌++◌, List, ℕ, [], if◌then◌else◌, Option, Some, None, IfOk, IfErr};
ghost use Rattle.hx_soup.specs.Packets.{IsUnfinished, Cuts};
ghost use Rattle.hx_soup.specs.Framers.{Takes, Fails};
ghost use Rattle.hx_soup.specs.Steps.{Ends};

use crate::packet::SoupPacket;
use crate::step::{Step, advance};
use arrayvec::ArrayVec;
use hx_units::fields::put;
use std::alloc::Global;
use std::marker::Model;

/// Why a framer gives no packets. `before` holds those of the piece that came before the fault.
#[derive(Debug, Drop)]
pub enum FramerError {
    /// A length above 1,024. The framer has failed.
    TooLong {
        /// The length that the packet would have.
        length: u16,
        /// The packets of the piece that came before it.
        before: Vec<SoupPacket>,
    },
    /// A length of 0. The framer has failed.
    Empty {
        /// The packets of the piece that came before it.
        before: Vec<SoupPacket>,
    },
    /// A growth was refused, for a packet that is whole with this piece. The framer is as it was, and the piece
    /// may be fed again.
    NoMemory,
    /// The framer has failed before.
    Failed,
}

/// Takes the packets out of a stream that comes in pieces (SoupBinTCP 3.00, Logical Packets). It retains the bytes of
/// at most one unfinished packet. Contracts see it as these bytes, or as None once it has failed.
#[derive(Drop)]
pub struct Framer {
    retained: ArrayVec<u8, 1026>,
    failed: bool,
}

impl Model for Framer {
    ghost Value = { Option (List ℕ) };

    ghost view = { λ f. if f.failed then None else Some f.retained.items };

    ghost invariant = { λ f. IsUnfinished f.retained.items };
}

impl Framer {
    /// A framer of a new stream, which retains nothing. It takes no memory.
    pub fn new() -> Self
        ensures { result ≡ Some [] }
    {
        Framer {
            retained: ArrayVec::new(),
            failed: false,
        }
    }

    /// The packets that are whole with this piece of the stream, in order. A length of 0 or above 1,024 is a fault: the
    /// framer fails, and answers `Failed` from then on. It takes memory for these packets; if there is none, the framer
    /// is as it was. A piece that completes no packet takes no memory.
    pub fn feed(&mut self, alloc: Global, piece: &[u8]) -> Result<Vec<SoupPacket>, FramerError>
        ensures ok { IfOk result (λ packets. Takes self.old self.new piece.now packets.items) }
        ensures err { IfErr result (Fails self.old self.new piece.now) }
    {
        if self.failed {
            return Err(FramerError::Failed);
        }
        let mut retained = ArrayVec::new();
        put(&mut retained, self.retained.as_slice());
        let taken = take_piece(alloc, &mut retained, piece);
        match &taken {
            Ok(_) => self.retained = retained,
            Err(FramerError::NoMemory) => {}
            Err(_) => self.failed = true,
        }
        taken
    }
}

// The packets of a piece after the bytes that are retained.
fn take_piece(
    alloc: Global,
    retained: &mut ArrayVec<u8, 1026>,
    piece: &[u8],
) -> Result<Vec<SoupPacket>, FramerError>
    requires { IsUnfinished retained.old.items }
    ensures ok { IfOk result (λ packets.
        Cuts (retained.old.items ++ piece.now) packets.items retained.new.items) }
    ensures err { IfErr result (Ends (retained.old.items ++ piece.now)) }
{
    let mut packets = Vec::new(alloc);
    let mut at = 0;
    while at < piece.len() {
        match advance(retained, &piece[at..]) {
            Step::More => at += 1,
            Step::Whole(packet, count) => {
                let Ok(()) = packets.push(packet) else {
                    return Err(FramerError::NoMemory);
                };
                at += count;
            }
            Step::Fault(0) => return Err(FramerError::Empty { before: packets }),
            Step::Fault(length) => {
                return Err(FramerError::TooLong {
                    length,
                    before: packets,
                });
            }
        }
    }
    Ok(packets)
}
