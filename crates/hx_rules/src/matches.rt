//! Executions under their match numbers.

use hx_units::{MemberNo, Token};

/// An execution, as its match number names it (ITCH 5.0, Order Executed: Match Number).
#[derive(Clone, Copy, Debug)]
pub struct Match {
    /// The index of the stock in the setup, from 1.
    pub locate: u16,
    /// The member of the order that rested.
    pub maker: MemberNo,
    /// The token that this order had.
    pub maker_token: Token,
    /// The member of the order that came in.
    pub taker: MemberNo,
    /// The token that this order had.
    pub taker_token: Token,
    /// Whether the execution was broken.
    pub broken: bool,
}
