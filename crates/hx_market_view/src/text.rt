//! Parts of JSON texts: a member of an object each, or an array.
ghost use Rattle.std.specs.Prelude.{◌≡◌, OnOk, ◌≤◌, length};
ghost use Rattle.hx_market_view.specs.Texts.{Adds, number_member, string_member, boolean_member, price_member, level_tokens, side_member, trade_tokens, trades_member};

use crate::name::shown_name;
use crate::trade::Trade;
use hx_reader::PriceLevel;
use json::Writer;
use std::alloc::AllocError;

/// A number.
pub fn write_number(writer: &mut Writer, name: &str, number: u64) -> Result<(), AllocError>
    ensures { Adds result writer.old writer.new (number_member name.now number) }
{
    writer.key(name)?;
    writer.u64(number)
}

/// A name.
pub fn write_name(writer: &mut Writer, name: &str, bytes: &[u8]) -> Result<(), AllocError>
    requires { length bytes.now ≤ 10 }
    ensures { Adds result writer.old writer.new (string_member name.now bytes.now) }
{
    writer.key(name)?;
    let shown = shown_name(bytes);
    writer.string(shown.as_str())
}

/// Whether something holds.
pub fn write_flag(writer: &mut Writer, name: &str, holds: bool) -> Result<(), AllocError>
    ensures { Adds result writer.old writer.new (boolean_member name.now holds) }
{
    writer.key(name)?;
    writer.boolean(holds)
}

/// A price, or null.
pub fn write_price(writer: &mut Writer, name: &str, price: Option<u32>) -> Result<(), AllocError>
    ensures { Adds result writer.old writer.new (price_member name.now price) }
{
    writer.key(name)?;
    match price {
        Some(price) => writer.u64(u64::from(price)),
        None => writer.null(),
    }
}

fn write_level(writer: &mut Writer, level: &PriceLevel) -> Result<(), AllocError>
    ensures { Adds result writer.old writer.new (level_tokens level.now) }
{
    writer.begin_object()?;
    write_number(writer, "price", u64::from(level.price))?;
    write_number(writer, "shares", level.shares)?;
    write_number(writer, "orders", level.orders)?;
    writer.end_object()
}

/// The prices of a stock's side.
#[tactic(auto, unfolding(crate::specs::Texts::array_member))]
pub fn write_side(writer: &mut Writer, name: &str, levels: &[PriceLevel]) -> Result<(), AllocError>
    ensures { Adds result writer.old writer.new (side_member name.now levels.now) }
{
    writer.key(name)?;
    writer.begin_array()?;
    for level in levels {
        write_level(writer, level)?;
    }
    writer.end_array()
}

fn write_trade(writer: &mut Writer, trade: &Trade) -> Result<(), AllocError>
    ensures { Adds result writer.old writer.new (trade_tokens trade.now) }
{
    writer.begin_object()?;
    write_number(writer, "match", trade.match_number)?;
    write_number(writer, "time", trade.time)?;
    write_number(writer, "price", u64::from(trade.price))?;
    write_number(writer, "shares", u64::from(trade.shares))?;
    write_flag(writer, "broken", trade.is_broken)?;
    writer.end_object()
}

/// Executions.
#[tactic(auto, unfolding(crate::specs::Texts::array_member))]
pub fn write_trades(writer: &mut Writer, name: &str, trades: &[Trade]) -> Result<(), AllocError>
    ensures { Adds result writer.old writer.new (trades_member name.now trades.now) }
{
    writer.key(name)?;
    writer.begin_array()?;
    for trade in trades {
        write_trade(writer, trade)?;
    }
    writer.end_array()
}
