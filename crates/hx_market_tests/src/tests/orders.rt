//! Orders of the first member, for a book.

use hx_book::{Book, Key, Life, Order};
use hx_units::{Firm, MemberNo, Price, Side, Token};
use std::process::Abort;

/// A price of `units` units.
pub fn price(rt: &impl Abort, units: u32) -> Price {
    Price::of(units).expect(rt, "a price")
}

/// An order of the first stock.
pub fn order(
    rt: &impl Abort,
    side: Side,
    units: u32,
    shares: u32,
    minimum: u32,
    shown: bool,
) -> Order {
    Order {
        member: MemberNo::of(1).expect(rt, "a member"),
        token: Token(*b"H1            "),
        chain: 0,
        locate: 1,
        side,
        price: price(rt, units),
        shares,
        minimum,
        display: if shown { b'Y' } else { b'N' },
        shown,
        firm: Firm(*b"FMA1"),
        capacity: b'O',
        reference: 1,
        life: Life::System,
    }
}

/// The order goes to the end of the book.
pub fn rest<B: Book>(rt: &impl Abort, book: &mut B, order: Order) -> Key {
    book.reserve(order.locate, order.side, order.price)
        .expect(rt, "memory");
    book.add(order)
}
