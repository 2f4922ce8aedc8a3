//! To decide: which live orders end, by a code of the hours or because their seconds are over.
ghost use Rattle.std.specs.Prelude.{◌≡◌, ◌++◌, ◌∷◌, [], IfOk, OnOk};
ghost use Rattle.std.specs.List.{filter};
ghost use Rattle.hx_book.specs.Book.{KeysDiffer};
ghost use Rattle.hx_rules.specs.Hours.{is_over, ends_by_code};
ghost use Rattle.hx_market_core.specs.Expiries.{AreEntered, order_at, one_or_none, orders_at};

use crate::order_by_token::find_order;
use crate::state::State;
use hx_book::{Book, Key, Live};
use hx_day::Ends;
use hx_rules::{ends_by_code, is_over};
use hx_units::NoMemory;
use std::alloc::Global;

// Puts the order after those that end, if the code ends it.
fn keep_ending(orders: &mut Vec<Live>, code: u8, live: Live) -> Result<(), NoMemory>
    ensures { OnOk result (orders.new.items
        ≡ orders.old.items ++ filter (λ l. ends_by_code code l.order) (live ∷ [])) }
{
    if ends_by_code(code, &live.order) {
        orders.push(live)?;
    }
    Ok(())
}

/// The orders that end by an hours code, the earlier ones first, found among all. `NoMemory` if the list cannot grow.
pub fn orders_by_code<B: Book>(alloc: Global, book: &B, code: u8) -> Result<Vec<Live>, NoMemory>
    ensures due { IfOk result (λ orders. orders.items
        ≡ filter (λ l. ends_by_code code l.order) (B.orders book.now)) }
    ensures differ { OnOk result (KeysDiffer (B.orders book.now)) }
{
    let mut orders = Vec::new(alloc);
    let mut after = None;
    'walk: while let Some(key) = book.next_in_time(after) {
        if let Some(order) = book.get(key) {
            keep_ending(&mut orders, code, Live { key, order: *order })?;
        }
        after = Some(key);
    }
    Ok(orders)
}

// The live order whose token is at an index.
fn order_at<B: Book>(state: &State<B>, index: u64) -> Option<Live>
    ensures { result ≡ order_at state.now.market.tokens index state.now.orders }
{
    let name = state.tokens.name_at(index)?;
    let found = find_order(state, name.member, &name.token)?;
    Some(found.live)
}

// Puts the order, if there is one, after those that are over, if it is over.
fn keep_over(orders: &mut Vec<Live>, time: u64, found: Option<Live>) -> Result<(), NoMemory>
    ensures { OnOk result (orders.new.items
        ≡ orders.old.items ++ filter (λ l. is_over time l.order.life) (one_or_none found)) }
{
    if let Some(live) = found {
        if is_over(time, live.order.life) {
            orders.push(live)?;
        }
    }
    Ok(())
}

// Those of the orders at these indices that are over at a time.
fn over_at<B: Book>(
    alloc: Global,
    state: &State<B>,
    time: u64,
    indices: &[u64],
) -> Result<Vec<Live>, NoMemory>
    ensures { IfOk result (λ orders. orders.items ≡ filter (λ l. is_over time l.order.life)
        (orders_at state.now.market.tokens indices.now state.now.orders)) }
{
    let mut orders = Vec::new(alloc);
    for index in indices {
        keep_over(&mut orders, time, order_at(state, *index))?;
    }
    Ok(orders)
}

/// The orders that are over at a time, the earlier ones first, found by what is entered. `NoMemory` if the list cannot
/// grow.
pub fn orders_over<B: Book>(
    alloc: Global,
    state: &State<B>,
    ends: &Ends,
    time: u64,
) -> Result<Vec<Live>, NoMemory>
    requires { AreEntered ends.now state.now.market.tokens state.now.market.live }
    ensures due { IfOk result (λ orders. orders.items
        ≡ filter (λ l. is_over time l.order.life) state.now.orders) }
    ensures differ { OnOk result (KeysDiffer state.now.orders) }
{
    // What the book says of its keys it says with an answer.
    let _ = state.book.get(Key(0));
    let indices = ends.indices_until(alloc, time)?;
    over_at(alloc, state, time, &indices)
}
