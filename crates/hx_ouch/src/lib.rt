//! OUCH 4.2 messages as bytes: orders from a member, and the replies to it.
//!
//! No byte of a field makes a message unreadable: what a field must be is for the market to say.
//! Nothing here takes memory.
#![tactic(auto)]

mod inbound;
mod outbound;

pub use inbound::{Cancel, Enter, Inbound, Replace, decode_in, encode_in};
pub use outbound::{
    Accepted, BrokenTrade, Canceled, Executed, Outbound, Rejected, Replaced, SystemEvent,
    decode_out, encode_out,
};
