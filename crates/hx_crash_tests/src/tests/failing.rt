//! A journal that takes no more records: the exchange stops, and publishes nothing that is not durable.
ghost use Rattle.std.specs.Prelude.{◌≡◌};

use super::crash_points::whole_day;
use super::going_on::{Course, Day, go_on};
use super::{equal, holds};
use hx_engine::{JournalError, Recovered};
use hx_engine_testing::ground::ground_of;
use hx_engine_testing::memory::Memory;
use hx_members::Setup;
use hx_testing::lines::events_of;
use hx_testing::setups::STANDARD;
use hx_testing::{Day as Words, worked};
use std::alloc::Global;
use std::marker::Brand;
use std::process::Abort;
use std::sync::Wait;
use std::test::*;

// Runs a day over a journal in memory that has room for this number of records.
fn apply<R: Wait + Abort>(rt: &R, alloc: Global, day: Day, room: usize) -> Result<Course, Fail> {
    let setup = Setup::read(alloc, day.setup).expect(rt, "a setup");
    let ground = ground_of(alloc, setup, 100, 1)?;
    let recovered = Recovered {
        journal: Memory::with_room(alloc, room),
        events: Vec::new(alloc),
    };
    Ok(go_on::<Brand, Memory, R>(rt, alloc, day, ground, recovered))
}

// The same is published as on a day of the events that the journal took.
fn expect_beginning<R: Wait + Abort>(
    rt: &R,
    alloc: Global,
    day: Day,
    room: usize,
) -> Result<(), Fail> {
    let course = apply(rt, alloc, day, room)?;
    equal(rt, course.answered, room);
    equal(rt, course.failure, Some(JournalError::Full));
    let events = day.events.get(..room).expect(rt, "a beginning");
    let whole = whole_day(rt, alloc, Day { events, ..day })?;
    equal(rt, course.output, whole);
    Ok(())
}

#[test]
fn a_journal_that_takes_no_more_records(rt: HostRuntime) -> Result<(), Fail> {
    let alloc = rt.alloc();
    let words = Words::of(alloc, worked::TWO_LEVELS_TAKEN)?;
    let events = events_of(alloc, &words.tape)?;
    let day = Day {
        setup: STANDARD,
        events: &events,
        at_once: [1; 4],
    };
    for room in 0..events.len() {
        expect_beginning(&rt, alloc, day, room)?;
    }
    // If there is room for all of them, the day ends.
    let course = apply(&rt, alloc, day, events.len())?;
    holds(&rt, course.failure.is_none());
    equal(&rt, course.answered, events.len());
    Ok(())
}
