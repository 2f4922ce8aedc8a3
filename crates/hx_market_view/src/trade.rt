//! Executions, as the feed reports them.
ghost use Rattle.std.specs.Prelude.{◌≡◌};
ghost use Rattle.hx_market_view.specs.Trades.{executed_at, trade_of};

use hx_itch::{Feed, OrderExecuted};
use hx_reader::FeedBook;

/// An execution.
#[derive(Clone, Copy, Debug, PartialEq, Eq)]
pub struct Trade {
    /// The exchange's number of it (Match Number).
    pub match_number: u64,
    /// Nanoseconds since midnight.
    pub time: u64,
    /// In units of 1/10,000 dollar.
    pub price: u32,
    /// How many shares.
    pub shares: u32,
    /// Whether it was broken since.
    pub is_broken: bool,
}

// The execution of a shown order at its price.
fn executed_at(message: &OrderExecuted, price: u32) -> Trade
    ensures { result ≡ executed_at message.now price }
{
    Trade {
        match_number: message.match_number,
        time: message.time,
        price,
        shares: message.shares,
        is_broken: false,
    }
}

/// The execution that a message reports, before it is applied to the book: a shown order is executed at its price
/// (TotalView-ITCH 5.0, Order Executed), another at the one that the message has (Trade). None if the message reports
/// none, or if the book does not have the order.
pub fn trade_of(message: &Feed, book: &FeedBook) -> Option<Trade>
    ensures { result ≡ trade_of message.now book.now }
{
    match message {
        Feed::Trade(trade) => {
            Some(Trade {
                match_number: trade.match_number,
                time: trade.time,
                price: trade.price,
                shares: trade.shares,
                is_broken: false,
            })
        }
        Feed::OrderExecuted(executed) => match book.order(executed.reference) {
            Some(order) => Some(executed_at(executed, order.price)),
            None => None,
        },
        Feed::SystemEvent(_)
        | Feed::StockDirectory(_)
        | Feed::AddOrder(_)
        | Feed::AddOrderWithAttribution(_)
        | Feed::OrderCancel(_)
        | Feed::OrderDelete(_)
        | Feed::OrderReplace(_)
        | Feed::StockTradingAction(_)
        | Feed::BrokenTrade(_) => None,
    }
}
