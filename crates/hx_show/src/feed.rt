//! Messages of the feed, in words (TotalView-ITCH 5.0).
ghost use Rattle.std.specs.Prelude.{◌≡◌, ◌++◌, OnOk};
ghost use Rattle.hx_itch.specs.Message.{feed_time};
ghost use Rattle.hx_show.specs.Feeds.{system_event_parts, stock_directory_parts, add_order_parts, attributed_parts, order_executed_parts, order_cancel_parts, order_delete_parts, order_replace_parts, trade_parts, trading_action_parts, broken_trade_parts, feed_message};

use crate::label::Label;
use crate::part::{Part, put_message};
use hx_itch::{
    AddOrder, AddOrderWithAttribution, BrokenTrade, Feed, OrderCancel, OrderDelete, OrderExecuted,
    OrderReplace, StockDirectory, StockTradingAction, SystemEvent, Trade,
};
use std::alloc::AllocError;

fn system_event_parts(m: SystemEvent) -> [Part; 2]
    ensures { result ≡ system_event_parts m }
{
    [
        Part::Letter(Label::HoursEvent, m.event_code),
        Part::Number(Label::Locate, u64::from(m.locate)),
    ]
}

// All fields of a Stock Directory but its tail.
fn stock_directory_parts(m: StockDirectory) -> [Part; 2]
    ensures { result ≡ stock_directory_parts m }
{
    [
        Part::Stock(m.stock),
        Part::Number(Label::Locate, u64::from(m.locate)),
    ]
}

fn add_order_parts(m: AddOrder) -> [Part; 6]
    ensures { result ≡ add_order_parts m }
{
    [
        Part::Number(Label::Reference, m.reference),
        Part::Letter(Label::Side, m.side),
        Part::Shares(m.shares),
        Part::Stock(m.stock),
        Part::Price(m.price),
        Part::Number(Label::Locate, u64::from(m.locate)),
    ]
}

fn attributed_parts(m: AddOrderWithAttribution) -> [Part; 7]
    ensures { result ≡ attributed_parts m }
{
    [
        Part::Number(Label::Reference, m.reference),
        Part::Letter(Label::Side, m.side),
        Part::Shares(m.shares),
        Part::Stock(m.stock),
        Part::Price(m.price),
        Part::Firm(m.attribution),
        Part::Number(Label::Locate, u64::from(m.locate)),
    ]
}

fn order_executed_parts(m: OrderExecuted) -> [Part; 4]
    ensures { result ≡ order_executed_parts m }
{
    [
        Part::Number(Label::Reference, m.reference),
        Part::Shares(m.shares),
        Part::Number(Label::MatchNumber, m.match_number),
        Part::Number(Label::Locate, u64::from(m.locate)),
    ]
}

fn order_cancel_parts(m: OrderCancel) -> [Part; 3]
    ensures { result ≡ order_cancel_parts m }
{
    [
        Part::Number(Label::Reference, m.reference),
        Part::Shares(m.shares),
        Part::Number(Label::Locate, u64::from(m.locate)),
    ]
}

fn order_delete_parts(m: OrderDelete) -> [Part; 2]
    ensures { result ≡ order_delete_parts m }
{
    [
        Part::Number(Label::Reference, m.reference),
        Part::Number(Label::Locate, u64::from(m.locate)),
    ]
}

fn order_replace_parts(m: OrderReplace) -> [Part; 5]
    ensures { result ≡ order_replace_parts m }
{
    [
        Part::Number(Label::OriginalReference, m.original_reference),
        Part::Number(Label::NewReference, m.reference),
        Part::Shares(m.shares),
        Part::Price(m.price),
        Part::Number(Label::Locate, u64::from(m.locate)),
    ]
}

fn trade_parts(m: Trade) -> [Part; 5]
    ensures { result ≡ trade_parts m }
{
    [
        Part::Shares(m.shares),
        Part::Stock(m.stock),
        Part::Price(m.price),
        Part::Number(Label::MatchNumber, m.match_number),
        Part::Number(Label::Locate, u64::from(m.locate)),
    ]
}

fn trading_action_parts(m: StockTradingAction) -> [Part; 4]
    ensures { result ≡ trading_action_parts m }
{
    [
        Part::Stock(m.stock),
        Part::Letter(Label::TradingState, m.trading_state),
        Part::Reason(m.reason),
        Part::Number(Label::Locate, u64::from(m.locate)),
    ]
}

fn broken_trade_parts(m: BrokenTrade) -> [Part; 2]
    ensures { result ≡ broken_trade_parts m }
{
    [
        Part::Number(Label::MatchNumber, m.match_number),
        Part::Number(Label::Locate, u64::from(m.locate)),
    ]
}

/// Appends a message of the feed, by its name in the standard.
pub fn put_feed(out: &mut Vec<u8>, message: &Feed) -> Result<(), AllocError>
    ensures { OnOk result (out.new.items ≡ out.old.items ++ feed_message message.now) }
{
    match message {
        Feed::SystemEvent(m) => put_message(out, "System Event", &system_event_parts(*m)),
        Feed::StockDirectory(m) => put_message(out, "Stock Directory", &stock_directory_parts(*m)),
        Feed::AddOrder(m) => put_message(out, "Add Order", &add_order_parts(*m)),
        Feed::AddOrderWithAttribution(m) => {
            put_message(out, "Add Order with Attribution", &attributed_parts(*m))
        }
        Feed::OrderExecuted(m) => put_message(out, "Order Executed", &order_executed_parts(*m)),
        Feed::OrderCancel(m) => put_message(out, "Order Cancel", &order_cancel_parts(*m)),
        Feed::OrderDelete(m) => put_message(out, "Order Delete", &order_delete_parts(*m)),
        Feed::OrderReplace(m) => put_message(out, "Order Replace", &order_replace_parts(*m)),
        Feed::Trade(m) => put_message(out, "Trade", &trade_parts(*m)),
        Feed::StockTradingAction(m) => {
            put_message(out, "Stock Trading Action", &trading_action_parts(*m))
        }
        Feed::BrokenTrade(m) => put_message(out, "Broken Trade", &broken_trade_parts(*m)),
    }
}

/// When a message of the feed was sent, in nanoseconds since midnight.
pub fn feed_time(message: &Feed) -> u64
    ensures { result ≡ feed_time message.now }
{
    match message {
        Feed::SystemEvent(m) => m.time,
        Feed::StockDirectory(m) => m.time,
        Feed::AddOrder(m) => m.time,
        Feed::AddOrderWithAttribution(m) => m.time,
        Feed::OrderExecuted(m) => m.time,
        Feed::OrderCancel(m) => m.time,
        Feed::OrderDelete(m) => m.time,
        Feed::OrderReplace(m) => m.time,
        Feed::Trade(m) => m.time,
        Feed::StockTradingAction(m) => m.time,
        Feed::BrokenTrade(m) => m.time,
    }
}
