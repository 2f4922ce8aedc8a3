//! Messages of the feed, written as bytes.
ghost use Rattle.std.specs.Prelude.{◌≡◌, ◌<◌, ◌^◌};
ghost use Rattle.hx_itch.specs.Message.{feed_bytes, IsFeed, feed_time, system_event_bytes, stock_directory_bytes, add_order_bytes, add_order_with_attribution_bytes, order_executed_bytes, order_cancel_bytes, order_delete_bytes, order_replace_bytes, trade_bytes, stock_trading_action_bytes, broken_trade_bytes, IsSystemEvent, IsStockDirectory, IsAddOrder, IsAddOrderWithAttribution, IsOrderExecuted, IsOrderCancel, IsOrderDelete, IsOrderReplace, IsTrade, IsStockTradingAction, IsBrokenTrade};

use super::{
    AddOrder, AddOrderWithAttribution, BrokenTrade, Feed, OrderCancel, OrderDelete, OrderExecuted,
    OrderReplace, StockDirectory, StockTradingAction, SystemEvent, Trade, kinds,
};
use arrayvec::ArrayVec;
use hx_units::fields::{put, u16_bytes, u32_bytes, u48_bytes, u64_bytes};

// The bytes of a message, whose fields fit into their slots.
pub fn write(message: &Feed) -> ArrayVec<u8, 44>
    requires { feed_time message.now < 2 ^ 48 }
    ensures bytes { result.items ≡ feed_bytes message.now }
    ensures fits { IsFeed message.now }
{
    match message {
        Feed::SystemEvent(m) => write_system_event(*m),
        Feed::StockDirectory(m) => write_stock_directory(*m),
        Feed::AddOrder(m) => write_add_order(*m),
        Feed::AddOrderWithAttribution(m) => write_add_order_with_attribution(*m),
        Feed::OrderExecuted(m) => write_order_executed(*m),
        Feed::OrderCancel(m) => write_order_cancel(*m),
        Feed::OrderDelete(m) => write_order_delete(*m),
        Feed::OrderReplace(m) => write_order_replace(*m),
        Feed::Trade(m) => write_trade(*m),
        Feed::StockTradingAction(m) => write_stock_trading_action(*m),
        Feed::BrokenTrade(m) => write_broken_trade(*m),
    }
}

fn write_system_event(m: SystemEvent) -> ArrayVec<u8, 44>
    requires { m.time < 2 ^ 48 }
    ensures bytes { result.items ≡ system_event_bytes m }
    ensures fits { IsSystemEvent m }
{
    let mut out = ArrayVec::new();
    out.push(kinds::SYSTEM_EVENT);
    put(&mut out, &u16_bytes(m.locate));
    put(&mut out, &[0, 0]);
    put(&mut out, &u48_bytes(m.time));
    out.push(m.event_code);
    out
}

fn write_stock_directory(m: StockDirectory) -> ArrayVec<u8, 44>
    requires { m.time < 2 ^ 48 }
    ensures bytes { result.items ≡ stock_directory_bytes m }
    ensures fits { IsStockDirectory m }
{
    let mut out = ArrayVec::new();
    out.push(kinds::STOCK_DIRECTORY);
    put(&mut out, &u16_bytes(m.locate));
    put(&mut out, &[0, 0]);
    put(&mut out, &u48_bytes(m.time));
    put(&mut out, &m.stock.0);
    put(&mut out, &m.tail);
    out
}

fn write_add_order(m: AddOrder) -> ArrayVec<u8, 44>
    requires { m.time < 2 ^ 48 }
    ensures bytes { result.items ≡ add_order_bytes m }
    ensures fits { IsAddOrder m }
{
    let mut out = ArrayVec::new();
    out.push(kinds::ADD_ORDER);
    put(&mut out, &u16_bytes(m.locate));
    put(&mut out, &[0, 0]);
    put(&mut out, &u48_bytes(m.time));
    put(&mut out, &u64_bytes(m.reference));
    out.push(m.side);
    put(&mut out, &u32_bytes(m.shares));
    put(&mut out, &m.stock.0);
    put(&mut out, &u32_bytes(m.price));
    out
}

fn write_add_order_with_attribution(m: AddOrderWithAttribution) -> ArrayVec<u8, 44>
    requires { m.time < 2 ^ 48 }
    ensures bytes { result.items ≡ add_order_with_attribution_bytes m }
    ensures fits { IsAddOrderWithAttribution m }
{
    let mut out = ArrayVec::new();
    out.push(kinds::ADD_ORDER_WITH_ATTRIBUTION);
    put(&mut out, &u16_bytes(m.locate));
    put(&mut out, &[0, 0]);
    put(&mut out, &u48_bytes(m.time));
    put(&mut out, &u64_bytes(m.reference));
    out.push(m.side);
    put(&mut out, &u32_bytes(m.shares));
    put(&mut out, &m.stock.0);
    put(&mut out, &u32_bytes(m.price));
    put(&mut out, &m.attribution.0);
    out
}

fn write_order_executed(m: OrderExecuted) -> ArrayVec<u8, 44>
    requires { m.time < 2 ^ 48 }
    ensures bytes { result.items ≡ order_executed_bytes m }
    ensures fits { IsOrderExecuted m }
{
    let mut out = ArrayVec::new();
    out.push(kinds::ORDER_EXECUTED);
    put(&mut out, &u16_bytes(m.locate));
    put(&mut out, &[0, 0]);
    put(&mut out, &u48_bytes(m.time));
    put(&mut out, &u64_bytes(m.reference));
    put(&mut out, &u32_bytes(m.shares));
    put(&mut out, &u64_bytes(m.match_number));
    out
}

fn write_order_cancel(m: OrderCancel) -> ArrayVec<u8, 44>
    requires { m.time < 2 ^ 48 }
    ensures bytes { result.items ≡ order_cancel_bytes m }
    ensures fits { IsOrderCancel m }
{
    let mut out = ArrayVec::new();
    out.push(kinds::ORDER_CANCEL);
    put(&mut out, &u16_bytes(m.locate));
    put(&mut out, &[0, 0]);
    put(&mut out, &u48_bytes(m.time));
    put(&mut out, &u64_bytes(m.reference));
    put(&mut out, &u32_bytes(m.shares));
    out
}

fn write_order_delete(m: OrderDelete) -> ArrayVec<u8, 44>
    requires { m.time < 2 ^ 48 }
    ensures bytes { result.items ≡ order_delete_bytes m }
    ensures fits { IsOrderDelete m }
{
    let mut out = ArrayVec::new();
    out.push(kinds::ORDER_DELETE);
    put(&mut out, &u16_bytes(m.locate));
    put(&mut out, &[0, 0]);
    put(&mut out, &u48_bytes(m.time));
    put(&mut out, &u64_bytes(m.reference));
    out
}

fn write_order_replace(m: OrderReplace) -> ArrayVec<u8, 44>
    requires { m.time < 2 ^ 48 }
    ensures bytes { result.items ≡ order_replace_bytes m }
    ensures fits { IsOrderReplace m }
{
    let mut out = ArrayVec::new();
    out.push(kinds::ORDER_REPLACE);
    put(&mut out, &u16_bytes(m.locate));
    put(&mut out, &[0, 0]);
    put(&mut out, &u48_bytes(m.time));
    put(&mut out, &u64_bytes(m.original_reference));
    put(&mut out, &u64_bytes(m.reference));
    put(&mut out, &u32_bytes(m.shares));
    put(&mut out, &u32_bytes(m.price));
    out
}

fn write_trade(m: Trade) -> ArrayVec<u8, 44>
    requires { m.time < 2 ^ 48 }
    ensures bytes { result.items ≡ trade_bytes m }
    ensures fits { IsTrade m }
{
    let mut out = ArrayVec::new();
    out.push(kinds::TRADE);
    put(&mut out, &u16_bytes(m.locate));
    put(&mut out, &[0, 0]);
    put(&mut out, &u48_bytes(m.time));
    put(&mut out, &[0, 0, 0, 0, 0, 0, 0, 0]);
    out.push(b'B');
    put(&mut out, &u32_bytes(m.shares));
    put(&mut out, &m.stock.0);
    put(&mut out, &u32_bytes(m.price));
    put(&mut out, &u64_bytes(m.match_number));
    out
}

fn write_stock_trading_action(m: StockTradingAction) -> ArrayVec<u8, 44>
    requires { m.time < 2 ^ 48 }
    ensures bytes { result.items ≡ stock_trading_action_bytes m }
    ensures fits { IsStockTradingAction m }
{
    let mut out = ArrayVec::new();
    out.push(kinds::STOCK_TRADING_ACTION);
    put(&mut out, &u16_bytes(m.locate));
    put(&mut out, &[0, 0]);
    put(&mut out, &u48_bytes(m.time));
    put(&mut out, &m.stock.0);
    out.push(m.trading_state);
    out.push(b' ');
    put(&mut out, &m.reason);
    out
}

fn write_broken_trade(m: BrokenTrade) -> ArrayVec<u8, 44>
    requires { m.time < 2 ^ 48 }
    ensures bytes { result.items ≡ broken_trade_bytes m }
    ensures fits { IsBrokenTrade m }
{
    let mut out = ArrayVec::new();
    out.push(kinds::BROKEN_TRADE);
    put(&mut out, &u16_bytes(m.locate));
    put(&mut out, &[0, 0]);
    put(&mut out, &u48_bytes(m.time));
    put(&mut out, &u64_bytes(m.match_number));
    out
}
