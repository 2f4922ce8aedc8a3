//! What the web page shows of one stock, as JSON.
ghost use Rattle.std.specs.Prelude.{◌≡◌, IfOk};
ghost use Rattle.json.specs.Print.{print};
ghost use Rattle.hx_market_view.specs.Texts.{Adds, stock_head, stock_tokens};
ghost use Rattle.hx_market_view.specs.Depths.{TellsDepth};

use crate::depth::{all_bids, all_offers};
use crate::text::{write_flag, write_name, write_number, write_side, write_trades};
use crate::trade::Trade;
use bytes::{ByteStr, Bytes};
use hx_reader::{FeedBook, PriceLevel};
use hx_units::Symbol;
use json::Writer;
use std::alloc::{AllocError, Global};

/// A stock, except for its book and its executions.
#[derive(Clone, Copy, Debug, PartialEq, Eq)]
pub struct Listing {
    /// Its name.
    pub stock: Symbol,
    /// Its number for the day.
    pub locate: u16,
    /// Whether it is halted.
    pub is_halted: bool,
    /// The number of messages about it.
    pub messages: u64,
    /// How many executions there were.
    pub trades: u64,
    /// How many shares these had.
    pub shares: u64,
}

fn write_head(writer: &mut Writer, listing: &Listing) -> Result<(), AllocError>
    ensures { Adds result writer.old writer.new (stock_head listing.now) }
{
    write_name(writer, "stock", &listing.stock.0)?;
    write_number(writer, "locate", u64::from(listing.locate))?;
    write_flag(writer, "halted", listing.is_halted)?;
    write_number(writer, "messages", listing.messages)?;
    write_number(writer, "trades", listing.trades)?;
    write_number(writer, "shares", listing.shares)
}

/// The text of a stock: what is known of it, its bids and offers by price, and its last executions.
pub fn stock_text(
    alloc: Global,
    listing: &Listing,
    bids: &[PriceLevel],
    offers: &[PriceLevel],
    last: &[Trade],
) -> Result<ByteStr, AllocError>
    ensures { IfOk result (λ t. t ≡ print (stock_tokens listing.now bids.now offers.now last.now)) }
{
    let mut writer = Writer::new(Vec::new(alloc));
    writer.begin_object()?;
    write_head(&mut writer, listing)?;
    write_side(&mut writer, "bids", bids)?;
    write_side(&mut writer, "offers", offers)?;
    write_trades(&mut writer, "last", last)?;
    writer.end_object()?;
    Ok(ByteStr::from_known_utf8(Bytes::from_vec(writer.into_inner())?))
}

/// The text of a stock with the whole depth that a book has of it. Its only error is that there is no
/// memory.
pub fn depth_text(
    alloc: Global,
    listing: &Listing,
    book: &FeedBook,
    last: &[Trade],
) -> Result<ByteStr, AllocError>
    ensures { IfOk result (TellsDepth listing.now book.now last.now) }
{
    let bids = all_bids(alloc, book, listing.locate)?;
    let offers = all_offers(alloc, book, listing.locate)?;
    stock_text(alloc, listing, &bids, &offers, last)
}
