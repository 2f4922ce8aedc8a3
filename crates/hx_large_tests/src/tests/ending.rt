//! Ticks over many live orders.

use super::day::SETUP;
use super::equal;
use super::replaying::{expect_day, expect_day_on_list};
use super::script::Script;
use hx_day::Expiries;
use hx_replay::Counts;
use hx_testing::Day;
use hx_testing::setups::setup_of;
use std::alloc::Global;
use std::process::Abort;
use std::test::Fail;

// The orders of the day, of one share each: the later ones end sooner.
const ORDERS: u64 = 4_000;

// One second, in nanoseconds.
const SECOND: u64 = 1_000_000_000;

fn owner(number: u64) -> usize {
    (1 + number % 3) as usize
}

fn is_canceled(number: u64) -> bool {
    number % 5 == 0
}

// The first order lives for 4,000 seconds, the last one for one.
fn enter_all(script: &mut Script) {
    for number in 1..=ORDERS {
        let seconds = ORDERS + 1 - number;
        let reference = script.reference();
        script.send(
            owner(number),
            format_args!("enter T{number} buy 1 S1 10.0000 {seconds} shown"),
        );
        script.publish(format_args!("add {reference} buy 1 S1 10.0000"));
        script.reply(owner(number), format_args!("accepted {reference}"));
    }
}

// The feed: the order is gone. Its reference is its number.
fn delete(script: &mut Script, number: u64) {
    script.publish(format_args!("delete {number} S1"));
}

fn tell(script: &mut Script, number: u64, why: &str) {
    script.reply(owner(number), format_args!("canceled T{number} 1 {why}"));
}

fn cancel_fifths(script: &mut Script) {
    for number in 1..=ORDERS {
        if is_canceled(number) {
            script.send(owner(number), format_args!("cancel T{number} 0"));
            delete(script, number);
            tell(script, number, "user");
        }
    }
}

// At a tick these orders end, except for those that are canceled.
fn tick(script: &mut Script, first: u64, last: u64) {
    script.send(0, "tick");
    for number in first..=last {
        if !is_canceled(number) {
            delete(script, number);
        }
    }
    for number in first..=last {
        if !is_canceled(number) {
            tell(script, number, "timeout");
        }
    }
}

// After 1,000 seconds the last 1,000 orders end, and after 2,000 the 1,000 before; at ticks between nothing does.
fn day(alloc: Global) -> Result<Day, Fail> {
    let mut script = Script::new(alloc, 6)?;
    enter_all(&mut script);
    cancel_fifths(&mut script);
    script.pass(1_000 * SECOND);
    tick(&mut script, 3_001, 4_000);
    script.send(0, "tick");
    script.pass(1_000 * SECOND);
    tick(&mut script, 2_001, 3_000);
    script.send(0, "tick");
    script.day()
}

// 4,000 orders, of which 800 are canceled and 1,600 end, and four ticks.
const WANT: Counts = Counts {
    events: 4_000 + 800 + 4,
    feed: 4_000 + 800 + 1_600,
    replies: 4_000 + 800 + 1_600,
};

#[test]
fn some_of_many_orders_end(rt: HostRuntime) -> Result<(), Fail> {
    let setup = setup_of(rt.alloc(), SETUP)?;
    let day = day(rt.alloc())?;
    equal(&rt, expect_day(&rt, &setup, &day), WANT);
    equal(&rt, expect_day_on_list(&rt, &setup, &day), WANT);
    Ok(())
}

// Enters 10,000 indices, of which the later ones end sooner: index 0 at 10,000, the last one at 1.
fn enter_indices<R: Abort>(rt: &R, alloc: Global) -> Expiries {
    let mut ends = Expiries::new(alloc);
    for index in 0..10_000 {
        ends.enter(10_000 - index, index).expect(rt, "a place");
    }
    ends
}

// The indices that are entered until a time.
fn expect_indices<R: AllocGlobal + Abort>(rt: &R, ends: &Expiries, time: u64, want: &[u64]) {
    let indices = ends.indices_until(rt.alloc(), time).expect(rt, "places");
    equal(rt, indices.as_slice(), want);
}

#[test]
fn indices_come_in_their_order(rt: HostRuntime) {
    let mut ends = enter_indices(&rt, rt.alloc());
    expect_indices(&rt, &ends, 0, &[]);
    expect_indices(&rt, &ends, 3, &[9_997, 9_998, 9_999]);
    ends.leave(2, 9_998);
    expect_indices(&rt, &ends, 3, &[9_997, 9_999]);
    ends.leave(2, 9_997);
    expect_indices(&rt, &ends, 3, &[9_997, 9_999]);
    ends.leave_until(3);
    expect_indices(&rt, &ends, 4, &[9_996]);
    let all = ends
        .indices_until(rt.alloc(), u64::MAX)
        .expect(&rt, "places");
    equal(&rt, all.len(), 9_997);
}

#[test]
fn an_index_that_is_entered_twice_comes_once(rt: HostRuntime) {
    let mut ends = Expiries::new(rt.alloc());
    for expiry in [5, 3, 4] {
        ends.enter(expiry, 7).expect(&rt, "a place");
        ends.enter(expiry, 2).expect(&rt, "a place");
    }
    expect_indices(&rt, &ends, 4, &[2, 7]);
    ends.leave_until(4);
    expect_indices(&rt, &ends, 5, &[2, 7]);
}
