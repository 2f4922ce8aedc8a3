//! What a plan is made of.

use hx_book::Key;
use hx_units::{Price, Side};

/// What matching reads of an incoming order.
#[derive(Clone, Copy, Debug)]
pub struct Incoming {
    /// The number of its stock (ITCH 5.0: Stock Locate).
    pub locate: u16,
    /// Whether it buys or sells, short or not.
    pub side: Side,
    /// Its limit, in units of 1/10,000 dollar.
    pub price: Price,
    /// The open shares that are to be executed.
    pub shares: u32,
    /// The least number of shares that each execution must have (OUCH 4.2: Minimum Quantity).
    pub minimum: u32,
}

/// One execution: a resting order, the shares taken off it, and its own price.
#[derive(Clone, Copy, Debug, PartialEq, Eq)]
pub struct Fill {
    /// The key of the resting order.
    pub key: Key,
    /// The shares that are executed.
    pub shares: u32,
    /// The resting order's price, at which they are executed.
    pub price: Price,
}

/// The executions in order, and the shares that are left.
#[derive(Drop)]
pub struct Plan {
    /// The executions, in the order in which they happen.
    pub fills: Vec<Fill>,
    /// The open shares of the incoming order that nothing takes.
    pub left: u32,
}
