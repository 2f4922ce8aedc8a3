//! Worked days that stop at each call of the journal's file, and so at each of their events: what resumes from there
//! publishes the rest byte for byte.

use super::crash_points::stops_at_calls;
use super::equal;
use super::going_on::Day;
use hx_journal::DeviceError;
use hx_testing::lines::{count_lines, events_of};
use hx_testing::setups::{CLOSED, STANDARD};
use hx_testing::{Day as Words, halts, worked};
use std::alloc::Global;
use std::process::Abort;
use std::sync::Wait;
use std::test::*;

// The day has the messages and replies that its words have. Its file is opened by four calls, and each event is written by
// one and synced by another.
fn expect_day<R: Wait + Abort>(
    rt: &R,
    alloc: Global,
    setup: &[u8],
    words: &str,
    fault: DeviceError,
) -> Result<(), Fail> {
    let words = Words::of(alloc, words)?;
    let events = events_of(alloc, &words.tape)?;
    let day = Day {
        setup,
        events: &events,
        at_once: [1; 4],
    };
    let calls = (events.len() as u64).saturating_mul(2).saturating_add(4);
    let whole = stops_at_calls(rt, alloc, day, 0..calls, fault)?;
    equal(
        rt,
        whole.feed.len() as u64,
        count_lines(&words.output, b"F "),
    );
    equal(
        rt,
        whole.reply_count() as u64,
        count_lines(&words.output, b"M "),
    );
    Ok(())
}

#[test]
fn days_of_orders(rt: HostRuntime) -> Result<(), Fail> {
    for words in [
        worked::ONE_DISPLAYED_ORDER,
        worked::HIDDEN_THEN_DISPLAYED,
        worked::DISPLAY_BEATS_TIME,
        worked::HIDDEN_EXECUTIONS_ON_BOTH_SIDES,
        worked::MINIMUM_PASSED_OVER,
        worked::MINIMUM_STAYS,
        worked::DISPLAYED_IMMEDIATE_OR_CANCEL,
        worked::TWO_LEVELS_TAKEN,
        worked::TIMES_GOING_BACK,
        worked::LIMITS_OF_FIELDS,
        worked::REASONS,
        worked::SIDES_STOCKS_FIRMS,
    ] {
        expect_day(&rt, rt.alloc(), STANDARD, words, DeviceError::Failed)?;
    }
    Ok(())
}

#[test]
fn days_of_changes(rt: HostRuntime) -> Result<(), Fail> {
    for words in [
        worked::FAILED_REPLACE,
        worked::CHAIN_THAT_TRADED,
        worked::DISPLAY_CHANGES,
        worked::CANCELS,
        worked::REPLACES_THAT_TRADE,
        worked::REPLACES_OF_LIFE_AND_MINIMUM,
        worked::TICKS,
        worked::LONGEST_LIVES,
        worked::TWO_END_AT_ONE_TICK,
    ] {
        expect_day(&rt, rt.alloc(), STANDARD, words, DeviceError::Failed)?;
    }
    Ok(())
}

#[test]
fn days_of_the_operator(rt: HostRuntime) -> Result<(), Fail> {
    for words in [worked::HOURS_OF_A_DAY, worked::AFTER_THE_MARKET_HOURS] {
        expect_day(&rt, rt.alloc(), CLOSED, words, DeviceError::Failed)?;
    }
    for words in [
        halts::HALTS_AND_BREAKS,
        halts::HALTS_AT_THEIR_EDGES,
        halts::BREAK_OF_BOTH_SIDES,
    ] {
        expect_day(&rt, rt.alloc(), STANDARD, words, DeviceError::Failed)?;
    }
    Ok(())
}

// The disk is full: the journal says so, and the day goes on once there is room.
#[test]
fn a_disk_without_room(rt: HostRuntime) -> Result<(), Fail> {
    let words = worked::TWO_LEVELS_TAKEN;
    expect_day(&rt, rt.alloc(), STANDARD, words, DeviceError::NoRoom)
}
