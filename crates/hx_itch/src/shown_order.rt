//! An order of the book that a reader of the feed builds.
use hx_units::{Firm, Symbol};

/// An order of the book, as the feed reports it (TotalView-ITCH 5.0, Add Order Messages).
#[derive(Clone, Copy, Debug, PartialEq, Eq)]
pub struct ShownOrder {
    /// The exchange's number of the order (Order Reference Number).
    pub reference: u64,
    /// The number of the stock for the day (Stock Locate).
    pub locate: u16,
    /// `B` a buy, `S` a sell (Buy/Sell Indicator).
    pub side: u8,
    /// Its open shares.
    pub shares: u32,
    /// The stock.
    pub stock: Symbol,
    /// In units of 1/10,000 dollar.
    pub price: u32,
    /// The firm, if it is given (Attribution).
    pub attribution: Option<Firm>,
}
