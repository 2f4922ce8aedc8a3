//! The chart of a stock's day, as JSON.
ghost use Rattle.std.specs.Prelude.{◌≡◌, IfOk};
ghost use Rattle.json.specs.Print.{print};
ghost use Rattle.hx_market_view.specs.Texts.{Adds, quote_tokens, quotes_member, chart_tokens};

use crate::text::{write_name, write_number, write_price, write_trades};
use crate::trade::Trade;
use hx_units::Symbol;
use json::Writer;
use std::alloc::{AllocError, Global};

/// The best prices of a stock from a time on.
#[derive(Clone, Copy, Debug, PartialEq, Eq)]
pub struct Quote {
    /// Nanoseconds since midnight.
    pub time: u64,
    /// The best price of its buys, in units of 1/10,000 dollar.
    pub bid: Option<u32>,
    /// The best price of its sells.
    pub offer: Option<u32>,
}

fn write_quote(writer: &mut Writer, quote: &Quote) -> Result<(), AllocError>
    ensures { Adds result writer.old writer.new (quote_tokens quote.now) }
{
    writer.begin_object()?;
    write_number(writer, "time", quote.time)?;
    write_price(writer, "bid", quote.bid)?;
    write_price(writer, "offer", quote.offer)?;
    writer.end_object()
}

#[tactic(auto, unfolding(crate::specs::Texts::array_member))]
fn write_quotes(writer: &mut Writer, quotes: &[Quote]) -> Result<(), AllocError>
    ensures { Adds result writer.old writer.new (quotes_member quotes.now) }
{
    writer.key("quotes")?;
    writer.begin_array()?;
    for quote in quotes {
        write_quote(writer, quote)?;
    }
    writer.end_array()
}

/// The text of a stock's chart: its executions, and its best prices as they changed.
pub fn chart_text(
    alloc: Global,
    stock: Symbol,
    locate: u16,
    trades: &[Trade],
    quotes: &[Quote],
) -> Result<Vec<u8>, AllocError>
    ensures { IfOk result (λ v. v.items
        ≡ print (chart_tokens stock.0 locate trades.now quotes.now)) }
{
    let mut writer = Writer::new(Vec::new(alloc));
    writer.begin_object()?;
    write_name(&mut writer, "stock", &stock.0)?;
    write_number(&mut writer, "locate", u64::from(locate))?;
    write_trades(&mut writer, "trades", trades)?;
    write_quotes(&mut writer, quotes)?;
    writer.end_object()?;
    Ok(writer.into_inner())
}
