//! A journal over a log, and a file beside it with the same records.

use crate::tests::{equal, holds};
use hx_day_log::{DayLogError, MirroredDay, open_and_apply};
use hx_engine::Journal;
use hx_fenced_log::{LogJournal, MemoryLog, MirroredJournal};
use hx_journal::{FileJournal, Head, JournalError, MemoryFile, Noted};
use hx_market::Event;
use hx_recovery::{Unwatched, recover};
use std::alloc::Global;
use std::process::Abort;

type Mirror = FileJournal<Noted<MemoryFile>>;

type Both = MirroredJournal<LogJournal<MemoryLog>, Mirror>;

// How many bytes the first line of a mirror has: `#hx1 HX00000006 20260711 9fc2`, and its line feed.
const FIRST_LINE: usize = 30;

// Calls of a file that never fails.
const MANY: u64 = 1_000_000;

// A day over a log, with a mirror in a file of these bytes whose calls fail after `calls` calls.
fn begun<R: Abort>(
    rt: &R,
    alloc: Global,
    log: MemoryLog,
    bytes: &[u8],
    calls: u64,
) -> Result<Both, DayLogError> {
    let head = Head::new(alloc, b"HX00000006", b"20260711", b"9fc2").expect(rt, "a head");
    let file = MemoryFile::new(alloc, bytes, calls).expect(rt, "a file");
    let beside = recover(alloc, file, bytes, &head, &Unwatched)?;
    let day = MirroredDay::new(Vec::<Event>::new(alloc), beside);
    let (day, journal) = open_and_apply(alloc, log, 1, day, &Unwatched)?;
    let (_, mirror) = day.into_both()?;
    Ok(MirroredJournal::new(alloc, journal, mirror))
}

// A day of these two lines.
fn day<R: Abort>(rt: &R, alloc: Global) -> Both {
    let mut both = begun(rt, alloc, MemoryLog::new(alloc), b"", MANY).expect(rt, "a day");
    both.append(b"1 0 51").expect(rt, "room");
    both.append(b"2 1 4f48").expect(rt, "room");
    both.sync().expect(rt, "both");
    both
}

// Its log, and the file beside it.
fn day_durable<R: Abort>(rt: &R, alloc: Global) -> (MemoryLog, Vec<u8>) {
    let (journal, mirror) = day(rt, alloc).into_both();
    let bytes = Vec::from_slice(alloc, mirror.device().file().bytes()).expect(rt, "room");
    (journal.into_follower().into_log(), bytes)
}

// Whether the file of a mirror has this text after its first line, and `count` lines in all.
fn has_lines(both: Both, text: &[u8], count: usize) -> bool {
    let (_, mirror) = both.into_both();
    let bytes = mirror.device().file().bytes();
    let lines = bytes.iter().filter(|b| **b == b'\n').count();
    match bytes.get(FIRST_LINE..) {
        Some(rest) => lines == count && rest.starts_with(text),
        None => false,
    }
}

#[test]
fn the_mirror_keeps_what_the_log_keeps(rt: HostRuntime) {
    let alloc = rt.alloc();
    let mut both = day(&rt, alloc);
    both.append(b"3 0 4d").expect(&rt, "room");
    holds(&rt, has_lines(both, b"1 0 51\n2 1 4f48\n#", 4));
}

#[test]
fn a_mirror_is_brought_up_to_its_log(rt: HostRuntime) {
    let alloc = rt.alloc();
    let (log, bytes) = day_durable(&rt, alloc);
    let both = begun(&rt, alloc, log, b"", MANY).expect(&rt, "a day");
    holds(&rt, has_lines(both, b"1 0 51\n2 1 4f48\n#", 4));
    let (log, _) = day_durable(&rt, alloc);
    let both = begun(&rt, alloc, log, &bytes, MANY).expect(&rt, "a day");
    holds(&rt, has_lines(both, b"1 0 51\n2 1 4f48\n#", 4));
}

#[test]
fn another_journal_is_no_mirror(rt: HostRuntime) {
    let alloc = rt.alloc();
    let (_, bytes) = day_durable(&rt, alloc);
    let found = begun(&rt, alloc, MemoryLog::new(alloc), &bytes, MANY);
    holds(
        &rt,
        matches!(found, Err(DayLogError::OtherJournal { record: 1 })),
    );
}

#[test]
fn a_journal_of_another_day_is_no_mirror(rt: HostRuntime) {
    let alloc = rt.alloc();
    let (_, bytes) = day_durable(&rt, alloc);
    let mut other = begun(&rt, alloc, MemoryLog::new(alloc), b"", MANY).expect(&rt, "a day");
    other.append(b"1 0 51").expect(&rt, "room");
    other.append(b"2 0 4d").expect(&rt, "room");
    other.append(b"3 0 4d").expect(&rt, "room");
    other.sync().expect(&rt, "both");
    let (journal, _) = other.into_both();
    let log = journal.into_follower().into_log();
    let found = begun(&rt, alloc, log, &bytes, MANY);
    holds(
        &rt,
        matches!(found, Err(DayLogError::OtherJournal { record: 2 })),
    );
}

#[test]
fn each_call_of_a_mirror_may_fail(rt: HostRuntime) {
    let alloc = rt.alloc();
    let mut failed = 0u64;
    for calls in 0..20u64 {
        let Ok(mut both) = begun(&rt, alloc, MemoryLog::new(alloc), b"", calls) else {
            continue;
        };
        both.append(b"1 0 51").expect(&rt, "room");
        if both.sync().is_err() {
            failed = failed.saturating_add(1);
            equal(&rt, both.append(b"2 1 4f48"), Err(JournalError::Closed));
            equal(&rt, both.sync(), Err(JournalError::Closed));
        }
    }
    holds(&rt, failed > 0);
}

#[test]
fn a_large_day_has_a_mirror(rt: HostRuntime) {
    let alloc = rt.alloc();
    let mut both = day(&rt, alloc);
    for _ in 0..25u64 {
        for _ in 0..1_000u64 {
            both.append(b"3 0 4d").expect(&rt, "room");
        }
        both.sync().expect(&rt, "both");
    }
    let (journal, _) = both.into_both();
    let log = journal.into_follower().into_log();
    let both = begun(&rt, alloc, log, b"", MANY).expect(&rt, "a day");
    let (_, mirror) = both.into_both();
    let bytes = mirror.device().file().bytes();
    equal(
        &rt,
        bytes.iter().filter(|b| **b == b'3').count() > 25_000,
        true,
    );
}
