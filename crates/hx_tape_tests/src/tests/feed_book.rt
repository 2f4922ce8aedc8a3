//! The book that a reader of the feed builds over a random day with halts, beside the shown live orders.

use super::generated::tape;
use super::{equal, holds};
use hx_itch::Feed;
use hx_levels::LevelBook;
use hx_market::Market;
use hx_members::Setup;
use hx_testing::lines::{event_of, split_line};
use std::alloc::Global;
use std::process::Abort;
use std::test::Fail;

// An order of the reader's book: its reference, and its open shares.
type Shown = (u64, u32);

// The orders with `by` shares less of one of them, or without it if none are left.
fn less(rt: &impl Abort, alloc: Global, book: &[Shown], reference: u64, by: u32) -> Vec<Shown> {
    let mut left = Vec::new(alloc);
    for (named, open) in book {
        let gone = if *named == reference { by } else { 0 };
        if *open > gone {
            left.push((*named, open - gone)).expect(rt, "memory");
        }
    }
    left
}

// The reader's book after a message of the feed; a replaced order goes to the end.
fn after(rt: &impl Abort, alloc: Global, book: &[Shown], message: &Feed) -> Vec<Shown> {
    match message {
        Feed::AddOrder(order) => with(rt, alloc, book, (order.reference, order.shares)),
        Feed::AddOrderWithAttribution(order) => with(
            rt,
            alloc,
            book,
            (order.reference, order.shares),
        ),
        Feed::OrderExecuted(order) => less(rt, alloc, book, order.reference, order.shares),
        Feed::OrderCancel(order) => less(rt, alloc, book, order.reference, order.shares),
        Feed::OrderDelete(order) => less(rt, alloc, book, order.reference, u32::MAX),
        Feed::OrderReplace(order) => {
            let others = less(rt, alloc, book, order.original_reference, u32::MAX);
            with(rt, alloc, &others, (order.reference, order.shares))
        }
        _ => less(rt, alloc, book, 0, 0),
    }
}

// The orders, with one more at the end.
fn with(rt: &impl Abort, alloc: Global, book: &[Shown], order: Shown) -> Vec<Shown> {
    let mut more = Vec::from_slice(alloc, book).expect(rt, "memory");
    more.push(order).expect(rt, "memory");
    more
}

// The shown live orders, in time.
fn shown(rt: &impl Abort, alloc: Global, market: &Market<LevelBook>) -> Vec<Shown> {
    let mut orders = Vec::new(alloc);
    for order in &market.live().expect(rt, "memory") {
        if order.shown {
            orders
                .push((order.reference, order.shares))
                .expect(rt, "memory");
        }
    }
    orders
}

#[test]
fn the_feeds_book_is_the_shown_live_orders(rt: HostRuntime) -> Result<(), Fail> {
    let alloc = rt.alloc();
    let day = tape(&rt, alloc);
    let mut market = Market::new(
        alloc,
        Setup::standard(alloc).expect(&rt, "memory"),
        LevelBook::new(alloc),
    )
    .expect(&rt, "memory");
    let mut book = Vec::new(alloc);
    let mut rest = day.as_slice();
    let mut most = 0;
    for _ in 0..u64::MAX {
        let Some((line, others)) = split_line(rest) else {
            break;
        };
        let event = event_of(alloc, line)?;
        let prepared = market
            .prepare(&event)
            .expect(&rt, "an event that is accepted");
        let output = market.commit(prepared);
        for message in &output.feed {
            book = after(&rt, alloc, &book, message);
        }
        equal(&rt, book.as_slice(), shown(&rt, alloc, &market).as_slice());
        most = book.len().max(most);
        rest = others;
    }
    holds(&rt, most > 4);
    Ok(())
}
