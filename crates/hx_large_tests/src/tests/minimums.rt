//! A day at random with minimums on both sides, replayed over both books.

use super::script::Script;
use super::{equal, holds};
use hx_book::ListBook;
use hx_members::Setup;
use hx_replay::{replay, replay_on};
use std::process::Abort;
use std::test::Fail;

// How many lines the day has.
const LINES: u64 = 2_400;

// The next of a series of pseudo-random numbers.
fn next_number(state: &mut u64) -> u64 {
    let x = *state;
    let x = x ^ (x << 13);
    let x = x ^ (x >> 7);
    let x = x ^ (x << 17);
    *state = x;
    x
}

// An order of one of two stocks at one of 40 prices, of up to 40 shares. A hidden one has a minimum of up to all of them, and
// one in four is immediate.
fn enter(script: &mut Script, line: u64, number: u64) {
    let member = (1 + number % 3) as usize;
    let side = if number / 4 % 2 == 0 { "buy" } else { "sell" };
    let stock = if number / 8 % 2 == 0 { "ABCD" } else { "WXYZ" };
    let shares = 1 + number / 16 % 40;
    let cents = 10 + number / 1_024 % 40;
    let life = if number / 65_536 % 4 == 0 {
        "now"
    } else {
        "day"
    };
    if number / 262_144 % 2 == 0 {
        let minimum = number / 524_288 % (shares + 1);
        script.send(
            member,
            format_args!(
                "enter T{line} {side} {shares} {stock} 10.{cents}00 {life} hidden minimum {minimum}"
            ),
        );
    } else {
        script.send(
            member,
            format_args!("enter T{line} {side} {shares} {stock} 10.{cents}00 {life} shown"),
        );
    }
}

// A cancel down to a few shares of an earlier order, which may be another member's, or gone.
fn cancel(script: &mut Script, line: u64, number: u64) {
    let member = (1 + number % 3) as usize;
    let back = 1 + number / 4 % 60;
    let earlier = line.saturating_sub(back);
    let shares = number / 1_024 % 4;
    script.send(member, format_args!("cancel T{earlier} {shares}"));
}

// Two lines of three are orders.
fn lines(script: &mut Script) {
    let mut state: u64 = 88_172_645_463_325_252;
    for line in 0..LINES {
        let number = next_number(&mut state);
        if number / 16_777_216 % 3 == 0 {
            cancel(script, line, number);
        } else {
            enter(script, line, number);
        }
    }
}

// Both books give the same output for it.
#[test]
fn a_day_with_minimums_over_both_books(rt: HostRuntime) -> Result<(), Fail> {
    let alloc = rt.alloc();
    let setup = Setup::standard(alloc)?;
    let mut script = Script::new(alloc, 3)?;
    lines(&mut script);
    let day = script.day()?;
    let mut by_levels = Vec::new(alloc);
    let mut by_list = Vec::new(alloc);
    let one = replay(alloc, &setup, &mut day.tape.as_slice(), &mut by_levels).expect(&rt, "a day");
    let list = ListBook::new(alloc);
    let two = replay_on(alloc, &setup, list, &mut day.tape.as_slice(), &mut by_list).expect(
        &rt, "a day",
    );
    equal(&rt, one.events, LINES);
    equal(&rt, one, two);
    holds(&rt, by_levels == by_list);
    Ok(())
}
