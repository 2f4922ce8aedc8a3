//! Two writers of one log.

use crate::tests::{equal, holds};
use hx_fenced_log::*;
use std::alloc::Global;
use std::process::Abort;

mod losses;
mod orders;

// A writer, and what it has reported.
#[derive(Drop)]
struct Side {
    writer: LogWriter,
    reported: Vec<u8>,
}

fn new_side(alloc: Global, writer: u64) -> Side {
    Side {
        writer: LogWriter::new(writer),
        reported: Vec::new(alloc),
    }
}

// Reads on, and reports what counts.
fn follow<L: Log>(rt: &impl Abort, alloc: Global, log: &mut L, side: &mut Side) {
    if let Ok(text) = side.writer.follow(alloc, log) {
        side.reported.extend_from_slice(&text).expect(rt, "memory");
    }
}

// Appends a line, and reports it once it is durable.
fn keep<L: Log>(
    rt: &impl Abort,
    alloc: Global,
    log: &mut L,
    side: &mut Side,
    line: &[u8],
) -> Result<(), KeepError> {
    let durable = side
        .writer
        .keep(log, Vec::from_slice(alloc, line).expect(rt, "memory"));
    if durable.is_ok() {
        side.reported.extend_from_slice(line).expect(rt, "memory");
    }
    durable
}

// What stands in a log, as a text.
fn text_of(rt: &impl Abort, alloc: Global, log: &mut MemoryLog) -> Vec<u8> {
    let mut text = Vec::new(alloc);
    for record in &log.read(alloc, 1).expect(rt, "records that are read") {
        text.extend_from_slice(&record.spelled(alloc).expect(rt, "memory"))
            .expect(rt, "memory");
    }
    text
}

// The log below.
const TAKEN_OVER: &[u8] = b"#1 1 1 1
#2 1 1 1
buy
#3 2 2 2
#4 2 2 2
cancel
";

#[test]
fn a_takeover_comes_before_a_record(rt: HostRuntime) {
    let alloc = rt.alloc();
    let mut log = MemoryLog::new(alloc);
    let mut one = new_side(alloc, 1);
    let mut other = new_side(alloc, 2);
    equal(
        &rt,
        keep(&rt, alloc, &mut log, &mut one, b"buy\n"),
        Err(KeepError::NotActive),
    );
    equal(&rt, one.writer.take_over(alloc, &mut log), Ok(()));
    holds(&rt, one.writer.is_active());
    equal(&rt, keep(&rt, alloc, &mut log, &mut one, b"buy\n"), Ok(()));

    // The other reads that, and takes over before the next record comes.
    follow(&rt, alloc, &mut log, &mut other);
    equal(&rt, other.writer.take_over(alloc, &mut log), Ok(()));
    let taken = Err(KeepError::Log(LogError::Taken));
    equal(&rt, keep(&rt, alloc, &mut log, &mut one, b"sell\n"), taken);
    holds(&rt, one.writer.is_active());
    follow(&rt, alloc, &mut log, &mut one);
    holds(&rt, !one.writer.is_active());
    equal(
        &rt,
        keep(&rt, alloc, &mut log, &mut one, b"sell\n"),
        Err(KeepError::NotActive),
    );

    // Both report what the other appends.
    equal(
        &rt,
        keep(&rt, alloc, &mut log, &mut other, b"cancel\n"),
        Ok(()),
    );
    follow(&rt, alloc, &mut log, &mut one);
    equal(&rt, one.reported.as_slice(), b"buy\ncancel\n".as_slice());
    equal(&rt, other.reported.as_slice(), b"buy\ncancel\n".as_slice());
    equal(&rt, log.len(), 4);
    equal(&rt, text_of(&rt, alloc, &mut log).as_slice(), TAKEN_OVER);
}

// A record of writer 1 in term 1 that it sent before it knew of any other.
fn sent(rt: &impl Abort, alloc: Global, number: u64, index: u64) -> LogRecord {
    let head = Head {
        number,
        term: 1,
        writer: 1,
        index,
    };
    let lines = Vec::from_slice(alloc, b"sent\n").expect(rt, "memory");
    LogRecord::new(head, lines).expect(rt, "a record")
}

#[test]
fn records_that_come_late_are_passed_over(rt: HostRuntime) {
    let alloc = rt.alloc();
    let mut log = MemoryLog::new(alloc);
    let mut one = new_side(alloc, 1);
    let mut other = new_side(alloc, 2);
    equal(&rt, one.writer.take_over(alloc, &mut log), Ok(()));

    // Three are sent at once. The first comes, twice, and the third too early.
    equal(&rt, log.append(&sent(&rt, alloc, 2, 1)), Ok(()));
    let came_late = Err(LogError::Taken);
    equal(&rt, log.append(&sent(&rt, alloc, 2, 1)), came_late);
    equal(&rt, log.append(&sent(&rt, alloc, 4, 3)), Err(LogError::Gap));

    // The other takes over in place of the second. Then the third comes.
    follow(&rt, alloc, &mut log, &mut other);
    equal(&rt, other.writer.take_over(alloc, &mut log), Ok(()));
    equal(&rt, log.append(&sent(&rt, alloc, 3, 2)), came_late);
    equal(&rt, log.append(&sent(&rt, alloc, 4, 3)), Ok(()));
    equal(&rt, log.append(&sent(&rt, alloc, 5, 2)), Ok(()));

    // It stands there, and no reader reports it.
    let taken = Err(KeepError::Log(LogError::Taken));
    let durable = keep(&rt, alloc, &mut log, &mut other, b"next\n");
    equal(&rt, durable, taken);
    follow(&rt, alloc, &mut log, &mut other);
    let durable = keep(&rt, alloc, &mut log, &mut other, b"next\n");
    equal(&rt, durable, Ok(()));
    follow(&rt, alloc, &mut log, &mut one);
    equal(&rt, one.reported.as_slice(), b"sent\nnext\n".as_slice());
    equal(&rt, other.reported.as_slice(), b"sent\nnext\n".as_slice());
    equal(&rt, log.len(), 6);
}

#[test]
fn what_is_no_record_is_not_durable(rt: HostRuntime) {
    let alloc = rt.alloc();
    let mut log = MemoryLog::new(alloc);
    let mut nobody = new_side(alloc, 0);
    equal(
        &rt,
        nobody.writer.take_over(alloc, &mut log),
        Err(KeepError::NoHead),
    );
    equal(
        &rt,
        keep(&rt, alloc, &mut log, &mut nobody, b"buy\n"),
        Err(KeepError::NoHead),
    );
    let mut one = new_side(alloc, 1);
    equal(&rt, one.writer.take_over(alloc, &mut log), Ok(()));
    let unended = Err(KeepError::Lines(RecordError::Unended));
    equal(&rt, keep(&rt, alloc, &mut log, &mut one, b"buy"), unended);
    let mark = Err(KeepError::Lines(RecordError::Line { number: 2 }));
    equal(&rt, keep(&rt, alloc, &mut log, &mut one, b"buy\n#\n"), mark);
    equal(&rt, one.reported.len(), 0);
    equal(&rt, log.len(), 1);
}
