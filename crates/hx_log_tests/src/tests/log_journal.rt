//! A journal over a log, and its successor.

use crate::tests::{equal, holds};
use hx_fenced_log::*;
use hx_journal::{Journal, JournalError};
use std::alloc::Global;
use std::process::Abort;

mod fates;

use fates::{Fate, FatefulLog};

// The journal of a writer that takes over as soon as it has read all, and the tape that it reads.
fn opened<L: Log + Drop>(
    rt: &impl Abort,
    alloc: Global,
    log: L,
    writer: u64,
) -> (LogJournal<L>, Vec<u8>) {
    let mut standby = Follower::new(log, writer);
    let mut tape = Vec::new(alloc);
    for _ in 0..2u8 {
        let text = standby.read_on(alloc).expect(rt, "what stands in the log");
        tape.extend_from_slice(&text).expect(rt, "memory");
        standby = match standby.take_over(alloc) {
            Ok(journal) => return (journal, tape),
            Err((_error, standby)) => standby,
        };
    }
    panic!(rt; "more comes each time")
}

// A line, and then two with one sync.
fn write_day<J: Journal>(journal: &mut J) -> Result<(), JournalError> {
    journal.append(b"buy")?;
    journal.sync()?;
    journal.append(b"sell")?;
    journal.append(b"cancel")?;
    journal.sync()
}

#[test]
fn the_next_active_writer_reads_what_is_synced(rt: HostRuntime) {
    let alloc = rt.alloc();
    let (mut journal, tape) = opened(&rt, alloc, MemoryLog::new(alloc), 1);
    equal(&rt, tape.len(), 0);
    equal(&rt, write_day(&mut journal), Ok(()));
    equal(&rt, journal.sync(), Ok(()));
    equal(&rt, journal.append(b"not synced"), Ok(()));
    holds(&rt, !journal.is_quick());

    // One record of a takeover, and one of each sync that had lines.
    let log = journal.into_follower().into_log();
    equal(&rt, log.len(), 3);
    let (next, tape) = opened(&rt, alloc, log, 2);
    equal(&rt, tape.as_slice(), b"buy\nsell\ncancel\n".as_slice());
    equal(&rt, next.fault(), None);
}

// What closes a journal whose last record meets this fate, and what the next active writer reads.
const FATES: &[(Fate, LogError, &[u8])] = &[
    (Fate::Gone, LogError::Unknown, b"buy\n"),
    (Fate::Stands, LogError::Unknown, b"buy\nsell\ncancel\n"),
    (Fate::Late, LogError::Unknown, b"buy\nsell\ncancel\n"),
    (Fate::Deposed, LogError::Taken, b"buy\n"),
];

fn meets(rt: &impl Abort, alloc: Global, fate: Fate, error: LogError, tape: &[u8]) {
    let (mut journal, _none) = opened(rt, alloc, FatefulLog::new(alloc, fate, 2), 1);
    equal(rt, write_day(&mut journal), Err(JournalError::Failed));
    equal(rt, journal.fault(), Some(KeepError::Log(error)));
    equal(rt, journal.append(b"buy"), Err(JournalError::Closed));
    equal(rt, journal.sync(), Err(JournalError::Closed));
    let (_next, read) = opened(rt, alloc, journal.into_follower().into_log(), 2);
    equal(rt, read.as_slice(), tape);
}

#[test]
fn nothing_is_lost_but_what_was_not_synced(rt: HostRuntime) {
    let alloc = rt.alloc();
    for (fate, error, tape) in FATES {
        meets(&rt, alloc, *fate, *error, tape);
    }
}

// A hundred lines of 21 bytes, with one sync.
fn hundred_lines<J: Journal>(journal: &mut J) -> Result<(), JournalError> {
    for _ in 0..100u8 {
        journal.append(b"45456140993997 1 4f48")?;
    }
    journal.sync()
}

#[test]
fn a_large_day_is_read(rt: HostRuntime) {
    let alloc = rt.alloc();
    let (mut journal, _none) = opened(&rt, alloc, MemoryLog::new(alloc), 1);
    for _ in 0..1000u16 {
        equal(&rt, hundred_lines(&mut journal), Ok(()));
    }
    let log = journal.into_follower().into_log();
    equal(&rt, log.len(), 1001);
    let (_next, tape) = opened(&rt, alloc, log, 2);
    equal(&rt, tape.len(), 2_200_000);
}
