//! Large days, replayed over both books.

use super::day::{SETUP, day};
use super::{equal, holds};
use hx_book::ListBook;
use hx_members::Setup;
use hx_replay::{Counts, replay, replay_on};
use hx_testing::Day;
use hx_testing::setups::setup_of;
use std::process::Abort;
use std::test::Fail;

/// A replay of the day over price levels writes the output of the day, to the byte. What it counts.
pub fn expect_day<R: AllocGlobal + Abort>(rt: &R, setup: &Setup, day: &Day) -> Counts {
    let mut output = Vec::new(rt.alloc());
    let mut reader = day.tape.as_slice();
    let counts = replay(rt.alloc(), setup, &mut reader, &mut output).expect(rt, "a day");
    holds(rt, output.as_slice() == day.output.as_slice());
    counts
}

/// The same over a plain list of orders.
pub fn expect_day_on_list<R: AllocGlobal + Abort>(rt: &R, setup: &Setup, day: &Day) -> Counts {
    let mut output = Vec::new(rt.alloc());
    let mut reader = day.tape.as_slice();
    let book = ListBook::new(rt.alloc());
    let counts = replay_on(rt.alloc(), setup, book, &mut reader, &mut output).expect(rt, "a day");
    holds(rt, output.as_slice() == day.output.as_slice());
    counts
}

// What a replay of the day counts.
const WANT: Counts = Counts {
    events: 20_000,
    // 20 times 150 executions, and in every second round 150 offers; 10 chains of an order, 50 replaces and a delete;
    // 5,000 orders that rest and are deleted; 4 codes.
    feed: 20 * 150 + 10 * 150 + 10 * 52 + 2 * 5_000 + 4,
    // 20 times 150 offers and an order accepted, and 150 executions reported to both; 50 chains of an order, 50
    // replaces and a cancel; 2,000 rejected orders; 5,000 orders accepted and canceled; code E to six members.
    replies: 20 * (151 + 300) + 50 * 52 + 2_000 + 2 * 5_000 + 6,
};

#[test]
fn the_day_over_price_levels(rt: HostRuntime) -> Result<(), Fail> {
    let setup = setup_of(rt.alloc(), SETUP)?;
    let day = day(rt.alloc())?;
    equal(&rt, expect_day(&rt, &setup, &day), WANT);
    Ok(())
}

#[test]
fn the_day_over_a_list(rt: HostRuntime) -> Result<(), Fail> {
    let setup = setup_of(rt.alloc(), SETUP)?;
    let day = day(rt.alloc())?;
    equal(&rt, expect_day_on_list(&rt, &setup, &day), WANT);
    Ok(())
}
