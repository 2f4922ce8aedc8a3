//! Messages of the feed, read from their bytes.
ghost use Rattle.std.specs.Prelude.{◌≡◌, length};
ghost use Rattle.hx_itch.specs.Message.{feed_message_of, system_event_of, stock_directory_of, add_order_of, add_order_with_attribution_of, order_executed_of, order_cancel_of, order_delete_of, order_replace_of, trade_of, stock_trading_action_of, broken_trade_of};

use super::{
    AddOrder, AddOrderWithAttribution, BrokenTrade, Feed, OrderCancel, OrderDelete, OrderExecuted,
    OrderReplace, StockDirectory, StockTradingAction, SystemEvent, Trade, kinds,
};
use hx_units::fields::{array_at, u16_at, u32_at, u48_at, u64_at};
use hx_units::{Firm, Symbol};

// The message that the bytes are, by their type and length.
pub fn read(bytes: &[u8]) -> Option<Feed>
    ensures { result ≡ feed_message_of bytes.now }
{
    let (kind, size) = (*bytes.first()?, bytes.len());
    if size == 12 && kind == kinds::SYSTEM_EVENT {
        Some(Feed::SystemEvent(read_system_event(bytes)))
    } else if size == 39 && kind == kinds::STOCK_DIRECTORY {
        Some(Feed::StockDirectory(read_stock_directory(bytes)))
    } else if size == 36 && kind == kinds::ADD_ORDER {
        Some(Feed::AddOrder(read_add_order(bytes)))
    } else if size == 40 && kind == kinds::ADD_ORDER_WITH_ATTRIBUTION {
        Some(Feed::AddOrderWithAttribution(read_add_order_with_attribution(bytes)))
    } else if size == 31 && kind == kinds::ORDER_EXECUTED {
        Some(Feed::OrderExecuted(read_order_executed(bytes)))
    } else if size == 23 && kind == kinds::ORDER_CANCEL {
        Some(Feed::OrderCancel(read_order_cancel(bytes)))
    } else if size == 19 && kind == kinds::ORDER_DELETE {
        Some(Feed::OrderDelete(read_order_delete(bytes)))
    } else if size == 35 && kind == kinds::ORDER_REPLACE {
        Some(Feed::OrderReplace(read_order_replace(bytes)))
    } else if size == 44 && kind == kinds::TRADE {
        Some(Feed::Trade(read_trade(bytes)))
    } else if size == 25 && kind == kinds::STOCK_TRADING_ACTION {
        Some(Feed::StockTradingAction(read_stock_trading_action(bytes)))
    } else if size == 19 && kind == kinds::BROKEN_TRADE {
        Some(Feed::BrokenTrade(read_broken_trade(bytes)))
    } else {
        None
    }
}

fn read_system_event(bytes: &[u8]) -> SystemEvent
    requires { length bytes.now ≡ 12 }
    ensures { result ≡ system_event_of bytes.now }
{
    SystemEvent {
        locate: u16_at(bytes, 1),
        time: u48_at(bytes, 5),
        event_code: bytes[11],
    }
}

fn read_stock_directory(bytes: &[u8]) -> StockDirectory
    requires { length bytes.now ≡ 39 }
    ensures { result ≡ stock_directory_of bytes.now }
{
    StockDirectory {
        locate: u16_at(bytes, 1),
        time: u48_at(bytes, 5),
        stock: Symbol(array_at(bytes, 11)),
        tail: array_at(bytes, 19),
    }
}

fn read_add_order(bytes: &[u8]) -> AddOrder
    requires { length bytes.now ≡ 36 }
    ensures { result ≡ add_order_of bytes.now }
{
    AddOrder {
        locate: u16_at(bytes, 1),
        time: u48_at(bytes, 5),
        reference: u64_at(bytes, 11),
        side: bytes[19],
        shares: u32_at(bytes, 20),
        stock: Symbol(array_at(bytes, 24)),
        price: u32_at(bytes, 32),
    }
}

fn read_add_order_with_attribution(bytes: &[u8]) -> AddOrderWithAttribution
    requires { length bytes.now ≡ 40 }
    ensures { result ≡ add_order_with_attribution_of bytes.now }
{
    AddOrderWithAttribution {
        locate: u16_at(bytes, 1),
        time: u48_at(bytes, 5),
        reference: u64_at(bytes, 11),
        side: bytes[19],
        shares: u32_at(bytes, 20),
        stock: Symbol(array_at(bytes, 24)),
        price: u32_at(bytes, 32),
        attribution: Firm(array_at(bytes, 36)),
    }
}

fn read_order_executed(bytes: &[u8]) -> OrderExecuted
    requires { length bytes.now ≡ 31 }
    ensures { result ≡ order_executed_of bytes.now }
{
    OrderExecuted {
        locate: u16_at(bytes, 1),
        time: u48_at(bytes, 5),
        reference: u64_at(bytes, 11),
        shares: u32_at(bytes, 19),
        match_number: u64_at(bytes, 23),
    }
}

fn read_order_cancel(bytes: &[u8]) -> OrderCancel
    requires { length bytes.now ≡ 23 }
    ensures { result ≡ order_cancel_of bytes.now }
{
    OrderCancel {
        locate: u16_at(bytes, 1),
        time: u48_at(bytes, 5),
        reference: u64_at(bytes, 11),
        shares: u32_at(bytes, 19),
    }
}

fn read_order_delete(bytes: &[u8]) -> OrderDelete
    requires { length bytes.now ≡ 19 }
    ensures { result ≡ order_delete_of bytes.now }
{
    OrderDelete {
        locate: u16_at(bytes, 1),
        time: u48_at(bytes, 5),
        reference: u64_at(bytes, 11),
    }
}

fn read_order_replace(bytes: &[u8]) -> OrderReplace
    requires { length bytes.now ≡ 35 }
    ensures { result ≡ order_replace_of bytes.now }
{
    OrderReplace {
        locate: u16_at(bytes, 1),
        time: u48_at(bytes, 5),
        original_reference: u64_at(bytes, 11),
        reference: u64_at(bytes, 19),
        shares: u32_at(bytes, 27),
        price: u32_at(bytes, 31),
    }
}

fn read_trade(bytes: &[u8]) -> Trade
    requires { length bytes.now ≡ 44 }
    ensures { result ≡ trade_of bytes.now }
{
    Trade {
        locate: u16_at(bytes, 1),
        time: u48_at(bytes, 5),
        shares: u32_at(bytes, 20),
        stock: Symbol(array_at(bytes, 24)),
        price: u32_at(bytes, 32),
        match_number: u64_at(bytes, 36),
    }
}

fn read_stock_trading_action(bytes: &[u8]) -> StockTradingAction
    requires { length bytes.now ≡ 25 }
    ensures { result ≡ stock_trading_action_of bytes.now }
{
    StockTradingAction {
        locate: u16_at(bytes, 1),
        time: u48_at(bytes, 5),
        stock: Symbol(array_at(bytes, 11)),
        trading_state: bytes[19],
        reason: array_at(bytes, 21),
    }
}

fn read_broken_trade(bytes: &[u8]) -> BrokenTrade
    requires { length bytes.now ≡ 19 }
    ensures { result ≡ broken_trade_of bytes.now }
{
    BrokenTrade {
        locate: u16_at(bytes, 1),
        time: u48_at(bytes, 5),
        match_number: u64_at(bytes, 11),
    }
}
