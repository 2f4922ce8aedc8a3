//! A price of a book, as it is delivered.

/// A price of a stock's side, with what stands there.
#[derive(Clone, Copy, Debug, PartialEq, Eq)]
pub struct PriceLevel {
    /// In units of 1/10,000 dollar.
    pub price: u32,
    /// The open shares of all its orders.
    pub shares: u64,
    /// How many orders there are.
    pub orders: u64,
}
