//! Messages from a member: OUCH 4.2, Inbound Messages.
ghost use Rattle.std.specs.Prelude.{◌≡◌, ◌↔◌, Some, IsSome, IfSome, IsTrue};
ghost use Rattle.hx_ouch.specs.Inbound.{inbound_of, inbound_bytes, is_inbound, IsInbound};
ghost use Rattle.hx_ouch.specs.declared.inbound.Inbound.{Inbound};

mod kinds;
mod read;
mod write;

use arrayvec::ArrayVec;
use hx_units::{Firm, Symbol, Token};
use read::read;
use write::write;

/// Enter Order: a new order. 49 bytes (OUCH 4.2, Enter Order).
#[derive(Clone, Copy, Debug, PartialEq, Eq)]
pub struct Enter {
    /// The member's own name of the order (Order Token).
    pub token: Token,
    /// `B` buy, `S` sell, `T` sell short, `E` sell short exempt (Buy/Sell Indicator).
    pub side: u8,
    /// Its size (Shares).
    pub shares: u32,
    /// The stock (Stock).
    pub stock: Symbol,
    /// In units of 1/10,000 dollar (Price).
    pub price: u32,
    /// Seconds to live; 0 is immediate or cancel, 99,998 the market hours, 99,999 the system hours
    /// (Time in Force).
    pub time_in_force: u32,
    /// The firm that it is for; spaces are the member's own (Firm).
    pub firm: Firm,
    /// `A` shown with its firm, `Y` shown without, `N` not shown (Display).
    pub display: u8,
    /// Any letter (Capacity).
    pub capacity: u8,
    /// Any letter (Intermarket Sweep Eligibility).
    pub intermarket_sweep: u8,
    /// The least number of shares that one execution may have (Minimum Quantity).
    pub minimum_quantity: u32,
    /// `N` outside of a cross (Cross Type).
    pub cross_type: u8,
    /// Any letter (Customer Type).
    pub customer_type: u8,
}

/// Replace Order: a new order in place of a live one. 47 bytes (OUCH 4.2, Replace Order).
#[derive(Clone, Copy, Debug, PartialEq, Eq)]
pub struct Replace {
    /// The name of the order to replace (Existing Order Token).
    pub existing_token: Token,
    /// The name of the new order (Replacement Order Token).
    pub replacement_token: Token,
    /// The size of the whole chain, executed shares included (Shares).
    pub shares: u32,
    /// In units of 1/10,000 dollar (Price).
    pub price: u32,
    /// Seconds to live; 0 is immediate or cancel, 99,998 the market hours, 99,999 the system hours
    /// (Time in Force).
    pub time_in_force: u32,
    /// `A` shown with its firm, `Y` shown without, `N` not shown (Display).
    pub display: u8,
    /// Any letter (Intermarket Sweep Eligibility).
    pub intermarket_sweep: u8,
    /// The least number of shares that one execution may have (Minimum Quantity).
    pub minimum_quantity: u32,
}

/// Cancel Order: a smaller size for a live order. 19 bytes (OUCH 4.2, Cancel Order).
#[derive(Clone, Copy, Debug, PartialEq, Eq)]
pub struct Cancel {
    /// The member's own name of the order (Order Token).
    pub token: Token,
    /// The new intended size; 0 cancels all that is open (Shares).
    pub shares: u32,
}

/// A message from a member (OUCH 4.2, Inbound Messages).
#[derive(Clone, Copy, Debug, PartialEq, Eq)]
pub enum Inbound {
    /// Type `O`.
    Enter(Enter),
    /// Type `U`.
    Replace(Replace),
    /// Type `X`.
    Cancel(Cancel),
}

/// The message that the bytes are, or none if their type and length are not those of one.
pub fn decode_in(bytes: &[u8]) -> Option<Inbound>
    // Which message it is, from the offsets of its fields; none exactly for another type or length.
    ensures exact { result ≡ inbound_of bytes.now }
    ensures readable { IsSome result ↔ IsTrue (is_inbound bytes.now) }

    // What is read is spelled so, and what is spelled so is read.
    ensures found { IfSome result (λ m. bytes.now ≡ inbound_bytes m) }
    ensures only { (m : Inbound) → IsInbound m → bytes.now ≡ inbound_bytes m → result ≡ Some m }
{
    read(bytes)
}

/// The bytes of the message: its type and fields in their order, each number most significant byte
/// first.
pub fn encode_in(message: &Inbound) -> ArrayVec<u8, 49>
    ensures bytes { result.items ≡ inbound_bytes message.now }
    // The bytes are read as this message again.
    ensures again { inbound_of result.items ≡ Some message.now }
{
    write(message)
}
