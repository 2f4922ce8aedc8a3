//! The best bid and offer of each stock, as they were reported last.

use crate::watching::text::{Best, Name};
use hx_itch::Feed;
use hx_reader::{FeedBook, PriceLevel};
use hx_units::Symbol;
use indexmap::IndexMap;
use std::alloc::{AllocError, Global};
use std::fmt;
use std::fmt::Display;

/// The best bid and offer of a stock.
#[derive(Clone, Copy, PartialEq, Eq)]
pub struct Quote {
    /// The best price of its buys.
    pub bid: Option<PriceLevel>,
    /// The best price of its sells.
    pub offer: Option<PriceLevel>,
}

/// What a message has changed: the orders of a stock.
#[derive(Clone, Copy)]
pub struct Change {
    /// The stock.
    pub stock: Symbol,
    /// Its number for the day.
    pub locate: u16,
    /// Its quote.
    pub quote: Quote,
    /// Whether the quote is another than the last.
    pub is_new: bool,
}

impl Display for Change {
    fn fmt<W: fmt::Write>(&self, f: &mut fmt::Formatter<W>) -> fmt::Result {
        write!(
            f,
            "{}  bid {}  offer {}",
            Name(self.stock),
            Best(self.quote.bid),
            Best(self.quote.offer)
        )
    }
}

/// The quote of a stock in a book.
pub fn quote_of(book: &FeedBook, locate: u16) -> Quote {
    Quote {
        bid: book.bid(locate, None),
        offer: book.offer(locate, None),
    }
}

/// The number of the stock that a message speaks of, and its name if the message has it.
pub fn stock_of(message: &Feed) -> (u16, Option<Symbol>) {
    match message {
        Feed::SystemEvent(m) => (m.locate, None),
        Feed::StockDirectory(m) => (m.locate, Some(m.stock)),
        Feed::AddOrder(m) => (m.locate, Some(m.stock)),
        Feed::AddOrderWithAttribution(m) => (m.locate, Some(m.stock)),
        Feed::OrderExecuted(m) => (m.locate, None),
        Feed::OrderCancel(m) => (m.locate, None),
        Feed::OrderDelete(m) => (m.locate, None),
        Feed::OrderReplace(m) => (m.locate, None),
        Feed::Trade(m) => (m.locate, Some(m.stock)),
        Feed::StockTradingAction(m) => (m.locate, Some(m.stock)),
        Feed::BrokenTrade(m) => (m.locate, None),
    }
}

// Whether a message changes an order of the book.
fn is_of_an_order(message: &Feed) -> bool {
    match message {
        Feed::AddOrder(_)
        | Feed::AddOrderWithAttribution(_)
        | Feed::OrderExecuted(_)
        | Feed::OrderCancel(_)
        | Feed::OrderDelete(_)
        | Feed::OrderReplace(_) => true,
        Feed::Trade(_)
        | Feed::SystemEvent(_)
        | Feed::StockDirectory(_)
        | Feed::StockTradingAction(_)
        | Feed::BrokenTrade(_) => false,
    }
}

/// The stocks that have had a report, each with its name and its last quote.
#[derive(Drop)]
pub struct Quotes {
    stocks: IndexMap<u16, (Symbol, Quote)>,
}

impl Quotes {
    /// No stock has had a report.
    pub fn new(alloc: Global) -> Quotes {
        Quotes {
            stocks: IndexMap::new(alloc),
        }
    }

    /// What a message that was applied to the book has changed, or none if it changes no order.
    pub fn note(&mut self, message: &Feed, book: &FeedBook) -> Result<Option<Change>, AllocError> {
        if !is_of_an_order(message) {
            return Ok(None);
        }
        let (locate, name) = stock_of(message);
        let quote = quote_of(book, locate);
        if let Some(last) = self.stocks.get_mut(&locate) {
            let is_new = last.1 != quote;
            last.1 = quote;
            let stock = last.0;
            return Ok(Some(Change {
                stock,
                locate,
                quote,
                is_new,
            }));
        }
        let Some(stock) = name else {
            return Ok(None);
        };
        self.stocks.insert(locate, (stock, quote))?;
        Ok(Some(Change {
            stock,
            locate,
            quote,
            is_new: true,
        }))
    }
}
