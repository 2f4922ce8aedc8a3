//! Requests for messages again (MoldUDP64 1.00, Request Packet).
ghost use Rattle.std.specs.Prelude.{◌≡◌, ◌↔◌, Some, IsSome, IfSome, length};
ghost use Rattle.hx_mold.specs.declared.request.Request.{Request};
ghost use Rattle.hx_mold.specs.Packets.{SpellsRequest};
ghost use Rattle.hx_mold.specs.Reading.{request_of};

use crate::packet::write_header;
use arrayvec::ArrayVec;
use hx_units::fields::{array_at, u16_at, u64_at};

/// A request for messages again, 20 bytes (MoldUDP64 1.00, Request Packet).
#[derive(Clone, Copy, Debug, PartialEq, Eq)]
pub struct Request {
    /// The session (Session).
    pub session: [u8; 10],
    /// The number of the first message that is asked for (Sequence Number).
    pub sequence: u64,
    /// How many messages are asked for (Requested Message Count).
    pub count: u16,
}

/// The request that the bytes are: any 20 bytes are one, and no others (MoldUDP64 1.00, Request Packet).
pub fn decode_request(bytes: &[u8]) -> Option<Request>
    ensures found { IfSome result (λ r. SpellsRequest bytes.now r) }
    ensures only { (r : Request) → SpellsRequest bytes.now r → result ≡ Some r }
    ensures length { IsSome result ↔ (length bytes.now ≡ 20) }
{
    read(bytes)
}

// The request, as a function of the bytes.
fn read(bytes: &[u8]) -> Option<Request>
    ensures { result ≡ request_of bytes.now }
{
    if bytes.len() != 20 {
        return None;
    }
    Some(Request {
        session: array_at(bytes, 0),
        sequence: u64_at(bytes, 10),
        count: u16_at(bytes, 18),
    })
}

/// The bytes of a request (MoldUDP64 1.00, Request Packet). It takes no memory.
pub fn encode_request(request: Request) -> ArrayVec<u8, 20>
    ensures { SpellsRequest result.items request }
{
    write_header(request.session, request.sequence, request.count)
}
