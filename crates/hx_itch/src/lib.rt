//! TotalView-ITCH 5.0 messages as bytes: the feed that everybody gets, and the orders of the book that a reader builds
//! from it.
//!
//! Nothing here takes memory.
#![tactic(auto)]

mod message;
mod shown_order;

pub use message::{
    AddOrder, AddOrderWithAttribution, BrokenTrade, Feed, OrderCancel, OrderDelete, OrderExecuted,
    OrderReplace, StockDirectory, StockTradingAction, SystemEvent, Trade, decode, encode,
};
pub use shown_order::ShownOrder;
