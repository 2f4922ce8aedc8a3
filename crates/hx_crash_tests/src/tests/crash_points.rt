//! A day that stops at each call of the journal's file in turn, and resumes from what a crash leaves: all that was
//! published is published again in the same order, and in the end the output is that of a day that never stopped.
ghost use Rattle.std.specs.Prelude.{◌<◌};

use super::going_on::{Day, apply};
use super::output::EventOutput;
use super::shared_file::SharedFile;
use super::{equal, holds};
use hx_journal::{DeviceError, JournalError};
use hx_market::Event;
use hx_ouch::{Cancel, Inbound, encode_in};
use hx_testing::sending::{BUY, Order, SELL, enter, message, token};
use hx_testing::setups::STANDARD;
use std::alloc::Global;
use std::ops::Range;
use std::process::Abort;
use std::sync::Wait;
use std::test::*;

// The number of rounds of ten events that the day has.
const ROUNDS: u8 = 20;

/// A day that nothing stops.
pub fn whole_day<R: Wait + Abort>(rt: &R, alloc: Global, day: Day) -> Result<EventOutput, Fail> {
    let file = SharedFile::new(alloc, b"", u64::MAX, DeviceError::Failed).expect(rt, "a file");
    let course = apply(rt, alloc, day, file, b"")?;
    equal(rt, course.answered, day.events.len());
    holds(rt, course.failure.is_none());
    equal(rt, course.again, EventOutput::nothing(rt, alloc));
    Ok(course.output)
}

// The day goes on from what a crash left.
fn goes_on<R: Wait + Abort>(
    rt: &R,
    alloc: Global,
    day: Day,
    left: &[u8],
    whole: &EventOutput,
) -> Result<EventOutput, Fail> {
    let file = SharedFile::new(alloc, left, u64::MAX, DeviceError::Failed).expect(rt, "a file");
    let course = apply(rt, alloc, day, file, left)?;
    equal(rt, course.answered, day.events.len());
    holds(rt, course.failure.is_none());
    holds(rt, course.output == *whole);
    Ok(course.again)
}

/// When a file begins to fail: after this number of calls, and what each one answers then.
#[derive(Clone, Copy)]
pub struct Stop {
    pub calls: u64,
    pub fault: DeviceError,
}

// The file fails. Returns why the journal failed then, if the day did not come to its end before. All that was
// published is published again from what a crash leaves. From what was synced alone no more than that is published.
fn stops<R: Wait + Abort>(
    rt: &R,
    alloc: Global,
    day: Day,
    stop: Stop,
    whole: &EventOutput,
) -> Result<Option<JournalError>, Fail> {
    let file = SharedFile::new(alloc, b"", stop.calls, stop.fault).expect(rt, "a file");
    let same = file.again().expect(rt, "the same file");
    let course = apply(rt, alloc, day, same, b"")?;
    let left = file.left(rt, alloc);
    let index = (stop.calls / 2) as usize % left.len().max(1);
    let image = left.get(index).expect(rt, "what is left");
    let again = goes_on(rt, alloc, day, image, whole)?;
    holds(rt, again.begins_with(&course.output));
    holds(rt, index > 0 || again == course.output);
    holds(rt, whole.begins_with(&again));
    Ok(course.failure)
}

/// The day stops at each of these calls of the file in turn.
pub fn stops_at_calls<R: Wait + Abort>(
    rt: &R,
    alloc: Global,
    day: Day,
    calls: Range<u64>,
    fault: DeviceError,
) -> Result<EventOutput, Fail> {
    let whole = whole_day(rt, alloc, day)?;
    for calls in calls {
        let stop = Stop { calls, fault };
        let failure = stops(rt, alloc, day, stop, &whole)?;
        equal(rt, failure, Some(JournalError::from(fault)));
    }
    Ok(whole)
}

// The members that display, that hide, and that sell first in a round.
fn member(round: u8, index: u8) -> u16 {
    1 + (u16::from(round) + u16::from(index)) % 3
}

// The event at an index of a round, a tenth of a second after the one before. The first member displays a buy order and
// the second hides one; the third sells to both. The third displays a sell order, the first another buy order, which it
// then cancels in part or whole. The second hides a sell order, and the first buys of both sellers. The second displays
// an order for a second, and the tick of the next round ends it.
fn event_at<R: Abort>(rt: &R, alloc: Global, round: u8, index: u8) -> Event
    requires { (round < 20) × (index < 10) }
{
    let time = 1000 + 100_000_000 * (10 * u64::from(round) + u64::from(index));
    let (first, second, third) = (member(round, 0), member(round, 1), member(round, 2));
    let order = Order {
        time,
        member: first,
        token: [b'A' + round, b'0' + index],
        ..BUY
    };
    let sent = match index {
        0 => order,
        1 => Order {
            member: second,
            display: b'N',
            ..order
        },
        2 => Order {
            member: third,
            side: SELL.side,
            shares: 150,
            ..order
        },
        3 => Order {
            member: third,
            side: SELL.side,
            price: 101_000,
            ..order
        },
        4 => Order {
            shares: 300,
            price: 99_000,
            ..order
        },
        5 => return cancel(rt, alloc, round, first, time),
        6 => Order {
            member: second,
            side: SELL.side,
            price: 101_000,
            display: b'N',
            ..order
        },
        7 => Order {
            shares: 150,
            price: 101_000,
            ..order
        },
        8 => Order {
            member: second,
            price: 98_000,
            time_in_force: 1,
            ..order
        },
        _ => return Event::Tick { time },
    };
    enter(alloc, &sent).expect(rt, "an order")
}

// The cancel of the fifth order of a round: to 200 shares, or whole, in turn.
fn cancel<R: Abort>(rt: &R, alloc: Global, round: u8, member: u16, time: u64) -> Event
    requires { round < 20 }
{
    let bytes = encode_in(&Inbound::Cancel(Cancel {
        token: token([b'A' + round, b'4']),
        shares: if round % 2 == 0 { 200 } else { 0 },
    }));
    message(alloc, member, time, bytes.as_slice()).expect(rt, "a cancel")
}

// All events of the day.
fn events<R: Abort>(rt: &R, alloc: Global) -> Vec<Event> {
    let mut events = Vec::new(alloc);
    for round in 0..ROUNDS {
        for index in 0..10u8 {
            let event = event_at(rt, alloc, round, index);
            events.push(event).expect(rt, "a place");
        }
    }
    events
}

// Any four turns in a row send sixteen events. So the day has fifty groups, and each is written by one call of the file
// and synced by another; four calls open the file.
fn stops_at_quarter<R: Wait + Abort>(
    rt: &R,
    alloc: Global,
    calls: Range<u64>,
) -> Result<EventOutput, Fail> {
    let events = events(rt, alloc);
    let day = Day {
        setup: STANDARD,
        events: &events,
        at_once: [1, 7, 2, 6],
    };
    stops_at_calls(rt, alloc, day, calls, DeviceError::Failed)
}

// Each round has nine messages of the feed: four orders that are added, two times an execution and a trade, and a
// cancel; and, except in the first round, the delete of an order of a second. Eight orders are accepted, each of four
// executions has two replies, and the cancel and that delete one.
#[test]
fn stops_at_the_first_quarter_of_a_day(rt: HostRuntime) -> Result<(), Fail> {
    let whole = stops_at_quarter(&rt, rt.alloc(), 0..26)?;
    equal(&rt, whole.feed.len(), 20 * 9 + 19);
    equal(&rt, whole.reply_count(), 20 * (8 + 8 + 1) + 19);
    Ok(())
}

#[test]
fn stops_at_the_second_quarter_of_a_day(rt: HostRuntime) -> Result<(), Fail> {
    stops_at_quarter(&rt, rt.alloc(), 26..52)?;
    Ok(())
}

#[test]
fn stops_at_the_third_quarter_of_a_day(rt: HostRuntime) -> Result<(), Fail> {
    stops_at_quarter(&rt, rt.alloc(), 52..78)?;
    Ok(())
}

#[test]
fn stops_at_the_last_quarter_of_a_day(rt: HostRuntime) -> Result<(), Fail> {
    stops_at_quarter(&rt, rt.alloc(), 78..104)?;
    Ok(())
}
