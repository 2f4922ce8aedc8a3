//! Messages of the feed in words.
ghost use Rattle.std.specs.Prelude.{◌<◌, ◌^◌, IfOk};
ghost use Rattle.hx_itch.specs.Message.{feed_time};

use super::word::Words;
use hx_itch::{
    AddOrder, AddOrderWithAttribution, BrokenTrade, Feed, OrderCancel, OrderDelete, OrderExecuted,
    OrderReplace, StockDirectory, StockTradingAction, SystemEvent, Trade,
};
use hx_units::{Firm, Nanos, Symbol};
use std::test::Fail;

// What the standard setup says of each of its stocks, as the feed reports it.
const TAIL: [u8; 20] = *b"Q \x00\x00\x00dNCZ P  1N\x00\x00\x00\x00N";

// The index of a stock in its setup: WXYZ is the second one, S1 to S1000 are at their numbers.
fn locate_of(stock: Symbol) -> u16 {
    if stock == Symbol(*b"WXYZ    ") {
        return 2;
    }
    number_of(&stock).unwrap_or(1)
}

fn number_of(stock: &Symbol) -> Option<u16> {
    let name = str::from_utf8(&stock.0).ok()?;
    name.strip_prefix("S")?.trim_end().parse().ok()
}

/// The message of the feed that these words are.
///
/// - `system CODE`, `directory STOCK`
/// - `add REFERENCE SIDE SHARES STOCK PRICE`, and then the firm if it is given
/// - `executed REFERENCE SHARES match NUMBER`, `trade SHARES STOCK PRICE match NUMBER`
/// - `cancel REFERENCE SHARES`, `delete REFERENCE`, `replace OLD NEW SHARES PRICE`; and then the stock, if it is not
///   the first one
/// - `halted STOCK REASON`, `trading STOCK REASON`; `broken NUMBER`, and then the stock, if it is not the first one
pub fn published(words: &mut Words, time: Nanos) -> Result<Feed, Fail>
    ensures { IfOk result (λ message. feed_time message < 2 ^ 48) }
{
    match words.next() {
        "system" => system(words, time),
        "directory" => directory(words, time),
        "add" => add(words, time),
        "executed" => executed(words, time),
        "trade" => trade(words, time),
        "cancel" => cancel(words, time),
        "delete" => delete(words, time),
        "replace" => replace(words, time),
        "halted" => state(words, time, b'H'),
        "trading" => state(words, time, b'T'),
        "broken" => broken(words, time),
        _ => Err("no such message of the feed".into()),
    }
}

fn system(words: &mut Words, time: Nanos) -> Result<Feed, Fail>
    ensures { IfOk result (λ message. feed_time message < 2 ^ 48) }
{
    Ok(Feed::SystemEvent(SystemEvent {
        locate: 0,
        time: time.get(),
        event_code: words.letter()?,
    }))
}

fn directory(words: &mut Words, time: Nanos) -> Result<Feed, Fail>
    ensures { IfOk result (λ message. feed_time message < 2 ^ 48) }
{
    let stock = Symbol(words.name());
    Ok(Feed::StockDirectory(StockDirectory {
        locate: locate_of(stock),
        time: time.get(),
        stock,
        tail: TAIL,
    }))
}

fn add(words: &mut Words, time: Nanos) -> Result<Feed, Fail>
    ensures { IfOk result (λ message. feed_time message < 2 ^ 48) }
{
    let reference = words.reference()?;
    let side = words.side()?;
    let shares = words.shares()?;
    let stock = Symbol(words.name());
    let added = AddOrder {
        locate: locate_of(stock),
        time: time.get(),
        reference,
        side,
        shares,
        stock,
        price: words.price()?,
    };
    let firm: [u8; 4] = words.name();
    if firm == *b"    " {
        return Ok(Feed::AddOrder(added));
    }
    Ok(Feed::AddOrderWithAttribution(AddOrderWithAttribution {
        locate: added.locate,
        time: time.get(),
        reference,
        side,
        shares,
        stock,
        price: added.price,
        attribution: Firm(firm),
    }))
}

fn executed(words: &mut Words, time: Nanos) -> Result<Feed, Fail>
    ensures { IfOk result (λ message. feed_time message < 2 ^ 48) }
{
    let reference = words.reference()?;
    let shares = words.shares()?;
    let _match = words.next();
    let match_number = words.number()?;
    Ok(Feed::OrderExecuted(OrderExecuted {
        locate: locate_of(Symbol(words.name())),
        time: time.get(),
        reference,
        shares,
        match_number,
    }))
}

fn trade(words: &mut Words, time: Nanos) -> Result<Feed, Fail>
    ensures { IfOk result (λ message. feed_time message < 2 ^ 48) }
{
    let shares = words.shares()?;
    let stock = Symbol(words.name());
    let price = words.price()?;
    let _match = words.next();
    Ok(Feed::Trade(Trade {
        locate: locate_of(stock),
        time: time.get(),
        shares,
        stock,
        price,
        match_number: words.number()?,
    }))
}

fn cancel(words: &mut Words, time: Nanos) -> Result<Feed, Fail>
    ensures { IfOk result (λ message. feed_time message < 2 ^ 48) }
{
    let reference = words.reference()?;
    let shares = words.shares()?;
    Ok(Feed::OrderCancel(OrderCancel {
        locate: locate_of(Symbol(words.name())),
        time: time.get(),
        reference,
        shares,
    }))
}

fn delete(words: &mut Words, time: Nanos) -> Result<Feed, Fail>
    ensures { IfOk result (λ message. feed_time message < 2 ^ 48) }
{
    let reference = words.reference()?;
    Ok(Feed::OrderDelete(OrderDelete {
        locate: locate_of(Symbol(words.name())),
        time: time.get(),
        reference,
    }))
}

fn replace(words: &mut Words, time: Nanos) -> Result<Feed, Fail>
    ensures { IfOk result (λ message. feed_time message < 2 ^ 48) }
{
    let original_reference = words.reference()?;
    let reference = words.reference()?;
    let shares = words.shares()?;
    let price = words.price()?;
    Ok(Feed::OrderReplace(OrderReplace {
        locate: locate_of(Symbol(words.name())),
        time: time.get(),
        original_reference,
        reference,
        shares,
        price,
    }))
}

fn state(words: &mut Words, time: Nanos, trading_state: u8) -> Result<Feed, Fail>
    ensures { IfOk result (λ message. feed_time message < 2 ^ 48) }
{
    let stock = Symbol(words.name());
    Ok(Feed::StockTradingAction(StockTradingAction {
        locate: locate_of(stock),
        time: time.get(),
        stock,
        trading_state,
        reason: words.name(),
    }))
}

fn broken(words: &mut Words, time: Nanos) -> Result<Feed, Fail>
    ensures { IfOk result (λ message. feed_time message < 2 ^ 48) }
{
    let match_number = words.number()?;
    Ok(Feed::BrokenTrade(BrokenTrade {
        locate: locate_of(Symbol(words.name())),
        time: time.get(),
        match_number,
    }))
}
