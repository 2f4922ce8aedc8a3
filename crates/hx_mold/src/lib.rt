//! MoldUDP64 1.00: packets of numbered messages, and requests for messages again.
//!
//! Only `cut` takes memory.
#![tactic(auto)]

mod blocks;
mod messages;
mod packet;
mod request;

pub use blocks::Blocks;
pub use messages::{Messages, answer, cut, gather};
pub use packet::{MoldPacket, decode_packet, end_of_session, heartbeat};
pub use request::{Request, decode_request, encode_request};
