//! Events as members and the operator send them.

use hx_market::{Bytes, Event};
use hx_ouch::{Enter, Inbound, encode_in};
use hx_units::{Firm, NoMemory, Symbol, Token};
use std::alloc::Global;

/// An order of stock ABCD, as a member enters it.
#[derive(Clone, Copy)]
pub struct Order {
    pub time: u64,
    pub member: u16,
    pub token: [u8; 2],
    pub side: u8,
    pub shares: u32,
    pub price: u32,
    pub time_in_force: u32,
    pub display: u8,
}

/// A buy order of 100 shares at 10 dollars until the end of the day.
pub const BUY: Order = Order {
    time: 1000,
    member: 1,
    token: *b"T1",
    side: b'B',
    shares: 100,
    price: 100_000,
    time_in_force: 99_999,
    display: b'Y',
};

/// A sell order of the same.
pub const SELL: Order = Order { side: b'S', ..BUY };

/// The token of two letters, with blanks.
pub fn token(short: [u8; 2]) -> Token {
    let mut long = [b' '; 14];
    long[0] = short[0];
    long[1] = short[1];
    Token(long)
}

/// A message of a member.
pub fn message(alloc: Global, member: u16, time: u64, bytes: &[u8]) -> Result<Event, NoMemory> {
    Ok(Event::Message {
        member,
        time,
        bytes: Bytes::of(alloc, bytes)?,
    })
}

/// The message that enters an order under this token.
pub fn enter_as(alloc: Global, order: &Order, token: Token) -> Result<Event, NoMemory> {
    let bytes = encode_in(&Inbound::Enter(Enter {
        token,
        side: order.side,
        shares: order.shares,
        stock: Symbol(*b"ABCD    "),
        price: order.price,
        time_in_force: order.time_in_force,
        firm: Firm(*b"    "),
        display: order.display,
        capacity: b'O',
        intermarket_sweep: b'N',
        minimum_quantity: 0,
        cross_type: b'N',
        customer_type: b'R',
    }));
    message(alloc, order.member, order.time, bytes.as_slice())
}

/// The message that enters an order.
pub fn enter(alloc: Global, order: &Order) -> Result<Event, NoMemory> {
    enter_as(alloc, order, token(order.token))
}
