//! An order, and its key in a book.
ghost use Rattle.std.specs.Prelude.{◌≡◌, Some, None};
ghost use Rattle.hx_book.specs.Book.{is_conditional, qualifies};

use hx_units::{Firm, MemberNo, Price, Side, Token};

/// The name of a live order in a book. It is used only while its order lives.
#[derive(Clone, Copy, Debug, PartialEq, Eq)]
pub struct Key(pub usize);

/// How long an order lives (OUCH 4.2, Enter Order: Time in Force).
#[derive(Clone, Copy, Debug, PartialEq, Eq)]
pub enum Life {
    /// To the end of the market hours.
    Market,
    /// To the end of the system hours.
    System,
    /// Until this time, in nanoseconds since midnight.
    Until(u64),
}

/// A live order, as a book stores it.
#[derive(Clone, Copy, Debug)]
pub struct Order {
    /// Whose order it is.
    pub member: MemberNo,
    /// The member's own name of it.
    pub token: Token,
    /// The number of its chain: an entered token with the tokens that replaced it.
    pub chain: u64,
    /// The number of its stock (ITCH 5.0: Stock Locate).
    pub locate: u16,
    /// Buy or sell, short or not.
    pub side: Side,
    /// The limit, in units of 1/10,000 dollar.
    pub price: Price,
    /// The open shares: those asked for, less those executed and cancelled.
    pub shares: u32,
    /// The least number of shares that an execution may have (OUCH 4.2: Minimum Quantity).
    pub minimum: u32,
    /// How it asked to be displayed, a letter (OUCH 4.2: Display).
    pub display: u8,
    /// Whether it is shown in the feed.
    pub shown: bool,
    /// For which firm it was entered.
    pub firm: Firm,
    /// In which capacity, a letter (OUCH 4.2: Capacity).
    pub capacity: u8,
    /// Its reference number (OUCH 4.2, ITCH 5.0: Order Reference Number).
    pub reference: u64,
    /// How long it lives.
    pub life: Life,
}

impl Order {
    /// Whether it has a minimum above one, so that an incoming order may be too small for it.
    #[inline(always)]
    pub fn is_conditional(&self) -> bool
        ensures { result ≡ is_conditional self.now }
    {
        1 < self.minimum
    }

    /// Whether an execution against the order meets both minimums, if `left` shares of the incoming order are open and
    /// each of its executions has to have `minimum` shares at least (OUCH 4.2: Minimum Quantity).
    #[inline(always)]
    pub fn qualifies(&self, left: u32, minimum: u32) -> bool
        ensures exact { result ≡ qualifies left minimum self.now }
    {
        1.max(minimum.max(self.minimum.min(self.shares))) <= left.min(self.shares)
    }
}

/// An order under its key.
#[derive(Clone, Copy, Debug)]
pub struct Live {
    /// Its name in the book, while it lives.
    pub key: Key,
    /// The order as it stands.
    pub order: Order,
}

/// The stock, the side and the limit of an order: what says whom it meets.
#[derive(Clone, Copy, Debug)]
pub struct Terms {
    /// The number of the stock (ITCH 5.0: Stock Locate).
    pub locate: u16,
    /// Whether it buys or sells, short or not.
    pub side: Side,
    /// The limit, in units of 1/10,000 dollar.
    pub price: Price,
}

/// The position of a walk along the orders that an incoming order can be executed against.
#[derive(Clone, Copy, Debug)]
pub struct Walk {
    /// The key of the last order met: none before the first.
    pub after: Option<Key>,
    /// The key of the next order that is not conditional, if the book has looked for it already.
    pub ahead: Option<Option<Key>>,
}

impl Walk {
    /// A walk that has met no order.
    pub fn start() -> Walk
        ensures after { result.after ≡ None }
        ensures ahead { result.ahead ≡ None }
    {
        Walk {
            after: None,
            ahead: None,
        }
    }

    /// A walk that has met the order with the key.
    pub fn at(key: Key) -> Walk
        ensures after { result.after ≡ Some key }
        ensures ahead { result.ahead ≡ None }
    {
        Walk {
            after: Some(key),
            ahead: None,
        }
    }
}
