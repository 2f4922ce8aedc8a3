//! Messages of the feed: TotalView-ITCH 5.0.
ghost use Rattle.std.specs.Prelude.{◌≡◌, ◌<◌, ◌^◌, ◌↔◌, Some, IsSome, IfSome, IsTrue};
ghost use Rattle.hx_itch.specs.Message.{feed_message_of, feed_bytes, is_feed_message, feed_time};

mod kinds;
mod read;
mod write;

use arrayvec::ArrayVec;
use hx_units::{Firm, Symbol};
use read::read;
use write::write;

/// System Event: the hours of the day have changed. 12 bytes (ITCH 5.0, System Event).
#[derive(Clone, Copy, Debug, PartialEq, Eq)]
pub struct SystemEvent {
    /// The number of the stock for the day; 0 if the message is of no stock (Stock Locate).
    pub locate: u16,
    /// Nanoseconds since midnight, below 2^48 (Timestamp).
    pub time: u64,
    /// `O` start of messages, `S` start of system hours, `Q` start of market hours, `M` end of
    /// market hours, `E` end of system hours, `C` end of messages (Event Code).
    pub event_code: u8,
}

/// Stock Directory: a stock that is traded on this day. 39 bytes (ITCH 5.0, Stock Directory).
#[derive(Clone, Copy, Debug, PartialEq, Eq)]
pub struct StockDirectory {
    /// The number of the stock for the day; 0 if the message is of no stock (Stock Locate).
    pub locate: u16,
    /// Nanoseconds since midnight, below 2^48 (Timestamp).
    pub time: u64,
    /// The stock (Stock).
    pub stock: Symbol,
    /// The rest of the message, from Market Category to Inverse Indicator.
    pub tail: [u8; 20],
}

/// Add Order, without attribution: a shown order rests. 36 bytes (ITCH 5.0, Add Order - No MPID
/// Attribution).
#[derive(Clone, Copy, Debug, PartialEq, Eq)]
pub struct AddOrder {
    /// The number of the stock for the day; 0 if the message is of no stock (Stock Locate).
    pub locate: u16,
    /// Nanoseconds since midnight, below 2^48 (Timestamp).
    pub time: u64,
    /// The exchange's number of the order (Order Reference Number).
    pub reference: u64,
    /// `B` buy, `S` sell (Buy/Sell Indicator).
    pub side: u8,
    /// Its open shares (Shares).
    pub shares: u32,
    /// The stock (Stock).
    pub stock: Symbol,
    /// In units of 1/10,000 dollar (Price).
    pub price: u32,
}

/// Add Order with attribution: a shown order rests, and names its firm. 40 bytes (ITCH 5.0, Add
/// Order with MPID Attribution).
#[derive(Clone, Copy, Debug, PartialEq, Eq)]
pub struct AddOrderWithAttribution {
    /// The number of the stock for the day; 0 if the message is of no stock (Stock Locate).
    pub locate: u16,
    /// Nanoseconds since midnight, below 2^48 (Timestamp).
    pub time: u64,
    /// The exchange's number of the order (Order Reference Number).
    pub reference: u64,
    /// `B` buy, `S` sell (Buy/Sell Indicator).
    pub side: u8,
    /// Its open shares (Shares).
    pub shares: u32,
    /// The stock (Stock).
    pub stock: Symbol,
    /// In units of 1/10,000 dollar (Price).
    pub price: u32,
    /// The firm (Attribution).
    pub attribution: Firm,
}

/// Order Executed: shares of a shown order were executed, at its price. 31 bytes (ITCH 5.0, Order
/// Executed).
#[derive(Clone, Copy, Debug, PartialEq, Eq)]
pub struct OrderExecuted {
    /// The number of the stock for the day; 0 if the message is of no stock (Stock Locate).
    pub locate: u16,
    /// Nanoseconds since midnight, below 2^48 (Timestamp).
    pub time: u64,
    /// The exchange's number of the order (Order Reference Number).
    pub reference: u64,
    /// How many (Executed Shares).
    pub shares: u32,
    /// The exchange's number of the execution (Match Number).
    pub match_number: u64,
}

/// Order Cancel: some shares of a shown order were cancelled. 23 bytes (ITCH 5.0, Order Cancel).
#[derive(Clone, Copy, Debug, PartialEq, Eq)]
pub struct OrderCancel {
    /// The number of the stock for the day; 0 if the message is of no stock (Stock Locate).
    pub locate: u16,
    /// Nanoseconds since midnight, below 2^48 (Timestamp).
    pub time: u64,
    /// The exchange's number of the order (Order Reference Number).
    pub reference: u64,
    /// How many were taken off (Cancelled Shares).
    pub shares: u32,
}

/// Order Delete: a shown order has left the book. 19 bytes (ITCH 5.0, Order Delete).
#[derive(Clone, Copy, Debug, PartialEq, Eq)]
pub struct OrderDelete {
    /// The number of the stock for the day; 0 if the message is of no stock (Stock Locate).
    pub locate: u16,
    /// Nanoseconds since midnight, below 2^48 (Timestamp).
    pub time: u64,
    /// The exchange's number of the order (Order Reference Number).
    pub reference: u64,
}

/// Order Replace: a shown order was replaced by another of the same side, stock and attribution. 35
/// bytes (ITCH 5.0, Order Replace).
#[derive(Clone, Copy, Debug, PartialEq, Eq)]
pub struct OrderReplace {
    /// The number of the stock for the day; 0 if the message is of no stock (Stock Locate).
    pub locate: u16,
    /// Nanoseconds since midnight, below 2^48 (Timestamp).
    pub time: u64,
    /// The number of the order that was replaced (Original Order Reference Number).
    pub original_reference: u64,
    /// The number of the new order (New Order Reference Number).
    pub reference: u64,
    /// Its open shares (Shares).
    pub shares: u32,
    /// In units of 1/10,000 dollar (Price).
    pub price: u32,
}

/// Trade: shares of an order that is not shown were executed. It names neither the order nor its side: the reference is
/// written as 0, and the side as `B`. 44 bytes (ITCH 5.0, Trade Message (Non-Cross)).
#[derive(Clone, Copy, Debug, PartialEq, Eq)]
pub struct Trade {
    /// The number of the stock for the day; 0 if the message is of no stock (Stock Locate).
    pub locate: u16,
    /// Nanoseconds since midnight, below 2^48 (Timestamp).
    pub time: u64,
    /// How many (Shares).
    pub shares: u32,
    /// The stock (Stock).
    pub stock: Symbol,
    /// The price of the execution, in units of 1/10,000 dollar (Price).
    pub price: u32,
    /// The exchange's number of the execution (Match Number).
    pub match_number: u64,
}

/// Stock Trading Action: a stock is halted, or is traded again. 25 bytes (ITCH 5.0, Stock Trading
/// Action).
#[derive(Clone, Copy, Debug, PartialEq, Eq)]
pub struct StockTradingAction {
    /// The number of the stock for the day; 0 if the message is of no stock (Stock Locate).
    pub locate: u16,
    /// Nanoseconds since midnight, below 2^48 (Timestamp).
    pub time: u64,
    /// The stock (Stock).
    pub stock: Symbol,
    /// `H` halted, `T` trading (Trading State).
    pub trading_state: u8,
    /// Why (Reason).
    pub reason: [u8; 4],
}

/// Broken Trade: an execution was broken. 19 bytes (ITCH 5.0, Broken Trade / Order Execution).
#[derive(Clone, Copy, Debug, PartialEq, Eq)]
pub struct BrokenTrade {
    /// The number of the stock for the day; 0 if the message is of no stock (Stock Locate).
    pub locate: u16,
    /// Nanoseconds since midnight, below 2^48 (Timestamp).
    pub time: u64,
    /// The exchange's number of the execution (Match Number).
    pub match_number: u64,
}

/// A message of the feed (TotalView-ITCH 5.0).
#[derive(Clone, Copy, Debug, PartialEq, Eq)]
pub enum Feed {
    /// Type `S`.
    SystemEvent(SystemEvent),
    /// Type `R`.
    StockDirectory(StockDirectory),
    /// Type `A`.
    AddOrder(AddOrder),
    /// Type `F`.
    AddOrderWithAttribution(AddOrderWithAttribution),
    /// Type `E`.
    OrderExecuted(OrderExecuted),
    /// Type `X`.
    OrderCancel(OrderCancel),
    /// Type `D`.
    OrderDelete(OrderDelete),
    /// Type `U`.
    OrderReplace(OrderReplace),
    /// Type `P`.
    Trade(Trade),
    /// Type `H`.
    StockTradingAction(StockTradingAction),
    /// Type `B`.
    BrokenTrade(BrokenTrade),
}

/// The message that the bytes are, or none if their type and length are not those of one. Any bytes are read, in fields
/// and in what is no field: the tracking number, the reference and side of a Trade, and the reserved byte of a Stock
/// Trading Action.
pub fn decode(bytes: &[u8]) -> Option<Feed>
    // Which message it is, from the offsets of its fields; none exactly for another type or length.
    ensures exact { result ≡ feed_message_of bytes.now }
    ensures readable { IsSome result ↔ IsTrue (is_feed_message bytes.now) }
    // What is read may be written.
    ensures time { IfSome result (λ m. feed_time m < 2 ^ 48) }
{
    read(bytes)
}

/// The bytes of the message: its type and fields in their order, each number most significant byte
/// first. The tracking number is 0, and the reserved byte of a Stock Trading Action is a space.
pub fn encode(message: &Feed) -> ArrayVec<u8, 44>
    requires { feed_time message.now < 2 ^ 48 }
    ensures bytes { result.items ≡ feed_bytes message.now }
    // The bytes are read as this message again.
    ensures again { feed_message_of result.items ≡ Some message.now }
{
    write(message)
}
