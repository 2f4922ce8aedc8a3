//! Replies to a member: OUCH 4.2, Outbound Messages.
ghost use Rattle.std.specs.Prelude.{◌≡◌, ◌↔◌, Some, IsSome, IfSome, IsTrue};
ghost use Rattle.hx_ouch.specs.Outbound.{outbound_of, outbound_bytes, is_outbound, IsOutbound};
ghost use Rattle.hx_ouch.specs.declared.outbound.Outbound.{Outbound};

mod kinds;
mod read;
mod write;

use arrayvec::ArrayVec;
use hx_units::{Firm, Symbol, Token};
use read::read;
use write::write;

/// System Event: the hours of the day have changed. 10 bytes (OUCH 4.2, System Event).
#[derive(Clone, Copy, Debug, PartialEq, Eq)]
pub struct SystemEvent {
    /// Nanoseconds since midnight (Timestamp).
    pub time: u64,
    /// `S` start of day, `E` end of day (Event Code).
    pub event_code: u8,
}

/// Accepted: an order was accepted, with the terms as they were entered. 66 bytes (OUCH 4.2,
/// Accepted).
#[derive(Clone, Copy, Debug, PartialEq, Eq)]
pub struct Accepted {
    /// Nanoseconds since midnight (Timestamp).
    pub time: u64,
    /// The member's own name of the order (Order Token).
    pub token: Token,
    /// `B` buy, `S` sell, `T` sell short, `E` sell short exempt (Buy/Sell Indicator).
    pub side: u8,
    /// Its size (Shares).
    pub shares: u32,
    /// The stock (Stock).
    pub stock: Symbol,
    /// In units of 1/10,000 dollar (Price).
    pub price: u32,
    /// Seconds to live; 0 is immediate or cancel, 99,998 the market hours, 99,999 the system hours
    /// (Time in Force).
    pub time_in_force: u32,
    /// The firm that it is for (Firm).
    pub firm: Firm,
    /// `A` shown with its firm, `Y` shown without, `N` not shown (Display).
    pub display: u8,
    /// The exchange's number of the order (Order Reference Number).
    pub reference: u64,
    /// Any letter (Capacity).
    pub capacity: u8,
    /// Any letter (Intermarket Sweep Eligibility).
    pub intermarket_sweep: u8,
    /// The least number of shares that one execution may have (Minimum Quantity).
    pub minimum_quantity: u32,
    /// `N` outside of a cross (Cross Type).
    pub cross_type: u8,
    /// `L` live (Order State).
    pub order_state: u8,
    /// A space, for unspecified (BBO Weight Indicator).
    pub bbo_weight: u8,
}

/// Replaced: an order was replaced. 80 bytes (OUCH 4.2, Replaced).
#[derive(Clone, Copy, Debug, PartialEq, Eq)]
pub struct Replaced {
    /// Nanoseconds since midnight (Timestamp).
    pub time: u64,
    /// The name of the new order (Replacement Order Token).
    pub replacement_token: Token,
    /// `B` buy, `S` sell, `T` sell short, `E` sell short exempt (Buy/Sell Indicator).
    pub side: u8,
    /// The open shares of the new order (Shares).
    pub shares: u32,
    /// The stock (Stock).
    pub stock: Symbol,
    /// In units of 1/10,000 dollar (Price).
    pub price: u32,
    /// Seconds to live; 0 is immediate or cancel, 99,998 the market hours, 99,999 the system hours
    /// (Time in Force).
    pub time_in_force: u32,
    /// The firm that it is for (Firm).
    pub firm: Firm,
    /// `A` shown with its firm, `Y` shown without, `N` not shown (Display).
    pub display: u8,
    /// The exchange's number of the order (Order Reference Number).
    pub reference: u64,
    /// Any letter (Capacity).
    pub capacity: u8,
    /// Any letter (Intermarket Sweep Eligibility).
    pub intermarket_sweep: u8,
    /// The least number of shares that one execution may have (Minimum Quantity).
    pub minimum_quantity: u32,
    /// `N` outside of a cross (Cross Type).
    pub cross_type: u8,
    /// `L` live (Order State).
    pub order_state: u8,
    /// The name of the order that it replaced (Previous Order Token).
    pub previous_token: Token,
    /// A space, for unspecified (BBO Weight Indicator).
    pub bbo_weight: u8,
}

/// Canceled: shares of an order were cancelled. 28 bytes (OUCH 4.2, Canceled).
#[derive(Clone, Copy, Debug, PartialEq, Eq)]
pub struct Canceled {
    /// Nanoseconds since midnight (Timestamp).
    pub time: u64,
    /// The member's own name of the order (Order Token).
    pub token: Token,
    /// How many were taken off (Decrement Shares).
    pub shares: u32,
    /// `U` by the member, `I` immediate or cancel, `T` timeout (Reason).
    pub reason: u8,
}

/// Executed: shares of an order were executed. 40 bytes (OUCH 4.2, Executed).
#[derive(Clone, Copy, Debug, PartialEq, Eq)]
pub struct Executed {
    /// Nanoseconds since midnight (Timestamp).
    pub time: u64,
    /// The member's own name of the order (Order Token).
    pub token: Token,
    /// How many (Executed Shares).
    pub shares: u32,
    /// In units of 1/10,000 dollar (Execution Price).
    pub price: u32,
    /// `A` added, `J` non-displayed and added, `R` removed (Liquidity Flag).
    pub liquidity_flag: u8,
    /// The exchange's number of the execution (Match Number).
    pub match_number: u64,
}

/// Rejected: an order was not accepted. 24 bytes (OUCH 4.2, Rejected).
#[derive(Clone, Copy, Debug, PartialEq, Eq)]
pub struct Rejected {
    /// Nanoseconds since midnight (Timestamp).
    pub time: u64,
    /// The member's own name of the order (Order Token).
    pub token: Token,
    /// Why (Reason).
    pub reason: u8,
}

/// Broken Trade: an execution was broken. 32 bytes (OUCH 4.2, Broken Trade).
#[derive(Clone, Copy, Debug, PartialEq, Eq)]
pub struct BrokenTrade {
    /// Nanoseconds since midnight (Timestamp).
    pub time: u64,
    /// The member's own name of the order (Order Token).
    pub token: Token,
    /// The exchange's number of the execution (Match Number).
    pub match_number: u64,
    /// `S` by the exchange, as its supervisor (Reason).
    pub reason: u8,
}

/// A reply to a member (OUCH 4.2, Outbound Messages).
#[derive(Clone, Copy, Debug, PartialEq, Eq)]
pub enum Outbound {
    /// Type `S`.
    SystemEvent(SystemEvent),
    /// Type `A`.
    Accepted(Accepted),
    /// Type `U`.
    Replaced(Replaced),
    /// Type `C`.
    Canceled(Canceled),
    /// Type `E`.
    Executed(Executed),
    /// Type `J`.
    Rejected(Rejected),
    /// Type `B`.
    BrokenTrade(BrokenTrade),
}

/// The reply that the bytes are, or none if their type and length are not those of one.
pub fn decode_out(bytes: &[u8]) -> Option<Outbound>
    // Which message it is, from the offsets of its fields; none exactly for another type or length.
    ensures exact { result ≡ outbound_of bytes.now }
    ensures readable { IsSome result ↔ IsTrue (is_outbound bytes.now) }

    // What is read is spelled so, and what is spelled so is read.
    ensures found { IfSome result (λ m. bytes.now ≡ outbound_bytes m) }
    ensures only { (m : Outbound) → IsOutbound m → bytes.now ≡ outbound_bytes m → result ≡ Some m }
{
    read(bytes)
}

/// The bytes of the reply: its type and fields in their order, each number most significant byte
/// first.
pub fn encode_out(message: &Outbound) -> ArrayVec<u8, 80>
    ensures bytes { result.items ≡ outbound_bytes message.now }
    // The bytes are read as this message again.
    ensures again { outbound_of result.items ≡ Some message.now }
{
    write(message)
}
