//! Messages of the feed and replies, in shorthand.

use hx_itch::{Feed, decode};
use hx_ouch::{Outbound, decode_out};
use hx_units::Token;

/// A message of the feed.
#[derive(Clone, Copy, Debug, PartialEq, Eq)]
pub enum Message {
    /// `S`, a System Event: its code.
    System(u8),
    /// `R`, a Stock Directory message: the stock's locate.
    Stock(u16),
    /// `A`, Add Order: reference, side, shares and price.
    Added(u64, u8, u32, u32),
    /// `E`, Order Executed: reference, shares and match number.
    Executed(u64, u32, u64),
    /// `D`, Order Delete: reference.
    Deleted(u64),
    /// `P`, Trade: shares, price and match number.
    Trade(u32, u32, u64),
    /// Any other.
    Other,
}

/// A reply to a member.
#[derive(Clone, Copy, Debug, PartialEq, Eq)]
pub enum Reply {
    /// `S`, a System Event: its code.
    System(u8),
    /// `A`, Accepted: token, shares and reference.
    Accepted([u8; 2], u32, u64),
    /// `C`, Canceled: token, shares and reason.
    Canceled([u8; 2], u32, u8),
    /// `E`, Executed: token, shares, price, liquidity flag and match number.
    Executed([u8; 2], u32, u32, u8, u64),
    /// `J`, Rejected: token and reason.
    Rejected([u8; 2], u8),
    /// Any other.
    Other,
}

/// A message of the feed, read.
pub fn read_message(bytes: &[u8]) -> Message {
    match decode(bytes) {
        Some(Feed::SystemEvent(m)) => Message::System(m.event_code),
        Some(Feed::StockDirectory(m)) => Message::Stock(m.locate),
        Some(Feed::AddOrder(m)) => Message::Added(m.reference, m.side, m.shares, m.price),
        Some(Feed::OrderExecuted(m)) => Message::Executed(m.reference, m.shares, m.match_number),
        Some(Feed::OrderDelete(m)) => Message::Deleted(m.reference),
        Some(Feed::Trade(m)) => Message::Trade(m.shares, m.price, m.match_number),
        _ => Message::Other,
    }
}

fn short(token: Token) -> [u8; 2] {
    [token.0[0], token.0[1]]
}

/// A reply, read.
pub fn read_reply(bytes: &[u8]) -> Reply {
    match decode_out(bytes) {
        Some(Outbound::SystemEvent(r)) => Reply::System(r.event_code),
        Some(Outbound::Accepted(r)) => Reply::Accepted(short(r.token), r.shares, r.reference),
        Some(Outbound::Canceled(r)) => Reply::Canceled(short(r.token), r.shares, r.reason),
        Some(Outbound::Executed(r)) => Reply::Executed(
            short(r.token),
            r.shares,
            r.price,
            r.liquidity_flag,
            r.match_number,
        ),
        Some(Outbound::Rejected(r)) => Reply::Rejected(short(r.token), r.reason),
        _ => Reply::Other,
    }
}

/// The member's private reference of this number: 2^63, its number by 2^40, and the number.
pub fn private(member: u16, number: u8) -> u64 {
    0x8000_0000_0000_0000 + u64::from(member) * 0x100_0000_0000 + u64::from(number)
}
