//! What clients send and get, in words.

use arrayvec::ArrayVec;
use hx_ouch::{
    Accepted, Canceled, Enter, Executed, Inbound, Outbound, SystemEvent, encode_in, encode_out,
};
use hx_units::{Firm, Symbol, Token};
use std::alloc::Global;
use std::process::Abort;

/// The login of the first member, for its replies from the first one on.
pub const ALPHA: &[u8] = b"\0\x2fLalpha pwalpha                                1";

/// The login of the second member, for its replies from the first one on.
pub const BRAVO: &[u8] = b"\0\x2fLBRAVO PWBRAVO   HX00000001                   1";

/// The login of the third member, for its replies from the first one on.
pub const CHARLI: &[u8] = b"\0\x2fLCharliPWCHARLI                               1";

/// A logout.
pub const LOGOUT: &[u8] = b"\0\x01O";

/// The answer to a login for replies from the first one on.
pub const ACCEPTED: &[u8] = b"\0\x1fAHX00000001                   1";

/// The end of a session.
pub const END_OF_SESSION: &[u8] = b"\0\x01Z";

/// These bytes.
pub fn copy_of<R: Abort>(rt: &R, alloc: Global, bytes: &[u8]) -> Vec<u8> {
    Vec::from_slice(alloc, bytes).expect(rt, "a copy")
}

/// Puts others after the bytes.
pub fn put<R: Abort>(rt: &R, bytes: &mut Vec<u8>, others: &[u8]) {
    bytes.extend_from_slice(others).expect(rt, "more bytes");
}

/// Puts a packet after the bytes: its length in two bytes, which counts the type and the payload, then these.
pub fn put_packet<R: Abort>(rt: &R, bytes: &mut Vec<u8>, kind: u8, payload: &[u8]) {
    let length = u16::try_from(payload.len()).unwrap_or(0).saturating_add(1);
    put(rt, bytes, &length.to_be_bytes());
    put(rt, bytes, &[kind]);
    put(rt, bytes, payload);
}

/// An order of 100 shares of ABCD at 10 dollars until the end of the day.
#[derive(Clone, Copy)]
pub struct Order {
    pub token: [u8; 6],
    pub side: u8,
    pub display: u8,
}

/// A displayed buy order.
pub const SHOWN: Order = Order {
    token: *b"T1    ",
    side: b'B',
    display: b'Y',
};

/// A buy order that is not displayed.
pub const HIDDEN: Order = Order {
    token: *b"H1    ",
    side: b'B',
    display: b'N',
};

/// A displayed sell order.
pub const SALE: Order = Order {
    token: *b"S1    ",
    side: b'S',
    display: b'Y',
};

fn token(short: [u8; 6]) -> Token {
    let mut long = [b' '; 14];
    long[..6].copy_from_slice(&short);
    Token(long)
}

/// The message that enters the order (OUCH 4.2, Enter Order).
pub fn enter(order: &Order) -> ArrayVec<u8, 49> {
    encode_in(&Inbound::Enter(Enter {
        token: token(order.token),
        side: order.side,
        shares: 100,
        stock: Symbol(*b"ABCD    "),
        price: 100_000,
        time_in_force: 99_999,
        firm: Firm(*b"    "),
        display: order.display,
        capacity: b'O',
        intermarket_sweep: b'N',
        minimum_quantity: 0,
        cross_type: b'N',
        customer_type: b'R',
    }))
}

/// Puts the packet that enters the order after the bytes.
pub fn put_order<R: Abort>(rt: &R, bytes: &mut Vec<u8>, order: &Order) {
    put_packet(rt, bytes, b'U', enter(order).as_slice());
}

/// A login, one order and a logout.
pub fn one_order<R: Abort>(rt: &R, alloc: Global, login: &[u8], order: &Order) -> Vec<u8> {
    let mut bytes = copy_of(rt, alloc, login);
    put_order(rt, &mut bytes, order);
    put(rt, &mut bytes, LOGOUT);
    bytes
}

/// The answer to a login for replies from the first one on, and that the order was accepted.
pub fn one_reply<R: Abort>(
    rt: &R,
    alloc: Global,
    order: &Order,
    firm: [u8; 4],
    reference: u64,
) -> Vec<u8> {
    let mut bytes = copy_of(rt, alloc, ACCEPTED);
    put_accepted(rt, &mut bytes, order, firm, reference);
    bytes
}

/// Puts the packet of the reply that the order was accepted after the bytes, with this number of the order.
pub fn put_accepted<R: Abort>(
    rt: &R,
    bytes: &mut Vec<u8>,
    order: &Order,
    firm: [u8; 4],
    reference: u64,
) {
    let reply = encode_out(&Outbound::Accepted(Accepted {
        time: 1000,
        token: token(order.token),
        side: order.side,
        shares: 100,
        stock: Symbol(*b"ABCD    "),
        price: 100_000,
        time_in_force: 99_999,
        firm: Firm(firm),
        display: order.display,
        reference,
        capacity: b'O',
        intermarket_sweep: b'N',
        minimum_quantity: 0,
        cross_type: b'N',
        order_state: b'L',
        bbo_weight: b' ',
    }));
    put_packet(rt, bytes, b'S', reply.as_slice());
}

/// Puts the packet of the reply that the order was executed, all of it and as the first trade of the day, after the
/// bytes: with `A` if it was in the book, with `R` if it came to it.
pub fn put_executed<R: Abort>(rt: &R, bytes: &mut Vec<u8>, order: &Order, flag: u8) {
    let reply = encode_out(&Outbound::Executed(Executed {
        time: 1000,
        token: token(order.token),
        shares: 100,
        price: 100_000,
        liquidity_flag: flag,
        match_number: 1,
    }));
    put_packet(rt, bytes, b'S', reply.as_slice());
}

/// Puts the packet of the reply that the order was cancelled at the end of its time after the bytes.
pub fn put_timed_out<R: Abort>(rt: &R, bytes: &mut Vec<u8>, order: &Order) {
    let reply = encode_out(&Outbound::Canceled(Canceled {
        time: 1000,
        token: token(order.token),
        shares: 100,
        reason: b'T',
    }));
    put_packet(rt, bytes, b'S', reply.as_slice());
}

/// Puts the packet of the reply that no order is accepted any more after the bytes.
pub fn put_end_of_hours<R: Abort>(rt: &R, bytes: &mut Vec<u8>) {
    let reply = encode_out(&Outbound::SystemEvent(SystemEvent {
        time: 1000,
        event_code: b'E',
    }));
    put_packet(rt, bytes, b'S', reply.as_slice());
}

/// The private reference of a member's first hidden order: 2^63, the member's number by 2^40, and 1.
pub fn first_private(member: u16) -> u64 {
    0x8000_0000_0000_0001 + u64::from(member) * 0x100_0000_0000
}
