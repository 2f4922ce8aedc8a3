//! Worked examples of executions, over both books.

use super::equal;
use super::orders::{order, price, rest};
use hx_book::{Book, Key, ListBook};
use hx_levels::LevelBook;
use hx_match::{Fill, Incoming, plan};
use hx_units::{NoMemory, Side};
use std::process::Abort;

fn incoming(rt: &impl Abort, side: Side, units: u32, shares: u32, minimum: u32) -> Incoming {
    Incoming {
        locate: 1,
        side,
        price: price(rt, units),
        shares,
        minimum,
    }
}

fn fill(rt: &impl Abort, key: Key, shares: u32, units: u32) -> Fill {
    Fill {
        key,
        shares,
        price: price(rt, units),
    }
}

// An incoming order has these fills, and `left` shares left.
fn expect_plan<B: Book, R: AllocGlobal + Abort>(
    rt: &R,
    book: &B,
    incoming: Incoming,
    fills: &[Fill],
    left: u32,
) {
    let plan = plan(rt.alloc(), book, &incoming).expect(rt, "memory");
    equal(rt, plan.fills.as_slice(), fills);
    equal(rt, plan.left, left);
}

fn display_first<B: Book, R: AllocGlobal + Abort>(rt: &R, book: &mut B) {
    let _hidden = rest(rt, book, order(rt, Side::Buy, 100000, 100, 0, false));
    let shown = rest(rt, book, order(rt, Side::Buy, 100000, 100, 0, true));
    let sell = incoming(rt, Side::Sell, 100000, 100, 0);
    expect_plan(rt, book, sell, &[fill(rt, shown, 100, 100000)], 0);
}

#[test]
fn display_beats_time(rt: HostRuntime) {
    display_first(&rt, &mut ListBook::new(rt.alloc()));
    display_first(&rt, &mut LevelBook::new(rt.alloc()));
}

fn small_order_stays<B: Book, R: AllocGlobal + Abort>(rt: &R, book: &mut B) {
    let _small = rest(rt, book, order(rt, Side::Buy, 100000, 200, 0, false));
    let large = rest(rt, book, order(rt, Side::Buy, 100000, 500, 500, false));
    let sell = incoming(rt, Side::Sell, 100000, 500, 500);
    expect_plan(rt, book, sell, &[fill(rt, large, 500, 100000)], 0);
}

#[test]
fn minimum_passed_over(rt: HostRuntime) {
    small_order_stays(&rt, &mut ListBook::new(rt.alloc()));
    small_order_stays(&rt, &mut LevelBook::new(rt.alloc()));
}

fn each_execution_meets_the_minimum<B: Book, R: AllocGlobal + Abort>(rt: &R, book: &mut B) {
    let first = rest(rt, book, order(rt, Side::Buy, 100000, 600, 0, false));
    let _second = rest(rt, book, order(rt, Side::Buy, 100000, 300, 0, false));
    let sell = incoming(rt, Side::Sell, 100000, 1000, 500);
    expect_plan(rt, book, sell, &[fill(rt, first, 600, 100000)], 400);
}

// What is left rests with its minimum of 500, of which its 400 open shares are to be met.
fn rest_keeps_its_minimum<B: Book, R: AllocGlobal + Abort>(rt: &R, book: &mut B) {
    let resting = rest(rt, book, order(rt, Side::Sell, 100000, 400, 500, false));
    let less = incoming(rt, Side::Buy, 100000, 300, 0);
    expect_plan(rt, book, less, &[], 300);
    let enough = incoming(rt, Side::Buy, 100000, 400, 0);
    expect_plan(rt, book, enough, &[fill(rt, resting, 400, 100000)], 0);
}

#[test]
fn minimum_is_met_by_each_execution(rt: HostRuntime) {
    each_execution_meets_the_minimum(&rt, &mut ListBook::new(rt.alloc()));
    each_execution_meets_the_minimum(&rt, &mut LevelBook::new(rt.alloc()));
}

#[test]
fn minimum_stays(rt: HostRuntime) {
    rest_keeps_its_minimum(&rt, &mut ListBook::new(rt.alloc()));
    rest_keeps_its_minimum(&rt, &mut LevelBook::new(rt.alloc()));
}

fn best_price_first<B: Book, R: AllocGlobal + Abort>(rt: &R, book: &mut B) {
    let low = rest(rt, book, order(rt, Side::Buy, 100000, 100, 0, true));
    let high = rest(rt, book, order(rt, Side::Buy, 100100, 200, 0, true));
    let sell = incoming(rt, Side::Sell, 100000, 350, 0);
    let fills = [fill(rt, high, 200, 100100), fill(rt, low, 100, 100000)];
    expect_plan(rt, book, sell, &fills, 50);
}

#[test]
fn two_levels_taken(rt: HostRuntime) {
    best_price_first(&rt, &mut ListBook::new(rt.alloc()));
    best_price_first(&rt, &mut LevelBook::new(rt.alloc()));
}

fn hidden_on_both_sides<B: Book, R: AllocGlobal + Abort>(rt: &R, book: &mut B) {
    let buy = rest(rt, book, order(rt, Side::Buy, 100000, 100, 0, false));
    let taken = incoming(rt, Side::Sell, 99900, 60, 0);
    expect_plan(rt, book, taken, &[fill(rt, buy, 60, 100000)], 0);
    let sell = rest(rt, book, order(rt, Side::Sell, 100500, 50, 0, false));
    let lifted = incoming(rt, Side::Buy, 100500, 50, 0);
    expect_plan(rt, book, lifted, &[fill(rt, sell, 50, 100500)], 0);
}

#[test]
fn hidden_executions_on_both_sides(rt: HostRuntime) {
    hidden_on_both_sides(&rt, &mut ListBook::new(rt.alloc()));
    hidden_on_both_sides(&rt, &mut LevelBook::new(rt.alloc()));
}
