//! A day that begins over a log.

use crate::tests::{equal, holds};
use hx_day_log::*;
use hx_engine::{Journal, Recovered};
use hx_fenced_log::{LogJournal, MemoryLog};
use hx_market::Event;
use hx_recovery::Unwatched;
use std::alloc::Global;
use std::process::Abort;

mod applied;
mod rivals;
mod standby;

use rivals::RivalLog;

// The day of a log in memory, gone on with by this writer.
fn opened<R: Abort>(
    rt: &R,
    alloc: Global,
    log: MemoryLog,
    writer: u64,
) -> Recovered<LogJournal<MemoryLog>> {
    open_log(alloc, log, writer, &Unwatched).expect(rt, "a log")
}

// The log, after one more sync of two lines of a day: the code Q of the hours at the first nanosecond, and a message of
// member 1.
fn keep_day<R: Abort>(rt: &R, mut journal: LogJournal<MemoryLog>) -> MemoryLog {
    journal.append(b"1 0 51").expect(rt, "room");
    journal.append(b"2 1 4f48").expect(rt, "room");
    journal.sync().expect(rt, "a log");
    journal.into_follower().into_log()
}

// The log, after the sync of a line of a member whom no setup has.
fn keep_stranger<R: Abort>(rt: &R, mut journal: LogJournal<MemoryLog>) -> MemoryLog {
    journal.append(b"1 0 51").expect(rt, "room");
    journal.append(b"2 4095 4f48").expect(rt, "room");
    journal.sync().expect(rt, "a log");
    journal.into_follower().into_log()
}

// The log, after the sync of a line that is no event.
fn keep_word<R: Abort>(rt: &R, mut journal: LogJournal<MemoryLog>) -> MemoryLog {
    journal.append(b"1 0 51").expect(rt, "room");
    journal.append(b"buy").expect(rt, "room");
    journal.sync().expect(rt, "a log");
    journal.into_follower().into_log()
}

// These are the events of that day.
fn expect_day<R: Abort>(rt: &R, events: &[Event]) {
    equal(rt, events.len(), 2);
    let first = events.first().expect(rt, "an event");
    let second = events.last().expect(rt, "an event");
    holds(
        rt,
        matches!(
            first,
            Event::Hours {
                time: 1,
                code: b'Q'
            }
        ),
    );
    holds(
        rt,
        matches!(
            second,
            Event::Message {
                member: 1,
                time: 2,
                ..
            }
        ),
    );
}

#[test]
fn a_day_goes_on_from_its_log(rt: HostRuntime) {
    let alloc = rt.alloc();
    let first = opened(&rt, alloc, MemoryLog::new(alloc), 1);
    equal(&rt, first.events.len(), 0);
    let log = keep_day(&rt, first.journal);
    let second = opened(&rt, alloc, log, 2);
    expect_day(&rt, &second.events);
    // Two takeovers, and a record of both lines.
    equal(&rt, second.journal.into_follower().into_log().len(), 3);
}

#[test]
fn a_record_that_is_no_event_is_reported_by_its_number(rt: HostRuntime) {
    let alloc = rt.alloc();
    let first = opened(&rt, alloc, MemoryLog::new(alloc), 1);
    let log = keep_word(&rt, first.journal);
    let fault = open_log(alloc, log, 2, &Unwatched).err();
    equal(&rt, fault, Some(DayLogError::NoEvent { record: 2 }));
}

#[test]
fn who_loses_a_takeover_reads_on_and_tries_again(rt: HostRuntime) {
    let alloc = rt.alloc();
    let log = RivalLog::new(alloc, 3);
    let day = open_log(alloc, log, 1, &Unwatched).expect(&rt, "a log");
    // Each rival has synced a line before it was deposed.
    equal(&rt, day.events.len(), 3);
}

#[test]
fn a_large_day_is_read(rt: HostRuntime) {
    let alloc = rt.alloc();
    let mut log = MemoryLog::new(alloc);
    for writer in 1..=500u64 {
        let day = opened(&rt, alloc, log, writer);
        log = keep_day(&rt, day.journal);
    }
    equal(&rt, opened(&rt, alloc, log, 501).events.len(), 1000);
}

#[test]
fn each_fault_has_its_status(rt: HostRuntime) {
    let damaged = DayLogError::Damaged { number: 7 };
    equal(&rt, damaged.status(), 1);
    equal(&rt, DayLogError::NoMemory.status(), 3);
    equal(&rt, DayLogError::Unreachable.status(), 4);
}
