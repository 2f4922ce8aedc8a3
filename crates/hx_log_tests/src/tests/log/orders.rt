//! Two writers of one log, in each order of six turns.
use super::{Side, follow, keep, new_side};
use crate::tests::{equal, holds};
use hx_fenced_log::{Head, Log, LogRecord, MemoryLog, Reading};
use std::alloc::Global;
use std::process::Abort;

const LINES: &[&[u8]] = &[b"a\n", b"b\n", b"c\n", b"d\n", b"e\n", b"f\n"];

// Two writers, and whose turn it is.
#[derive(Drop)]
pub(super) struct Pair {
    one: Side,
    other: Side,
}

pub(super) fn new_pair(alloc: Global) -> Pair {
    Pair {
        one: new_side(alloc, 1),
        other: new_side(alloc, 2),
    }
}

// Appends a line and reports it; if that fails, it reads on and takes over.
fn act<L: Log>(rt: &impl Abort, alloc: Global, log: &mut L, side: &mut Side, line: &[u8]) {
    if keep(rt, alloc, log, side, line).is_err() {
        follow(rt, alloc, log, side);
        let _may_fail = side.writer.take_over(alloc, log);
    }
}

// Of what the two have reported, one is a beginning of the other, and both are beginnings of what a reader takes that
// comes last.
fn agree<L: Log>(rt: &impl Abort, alloc: Global, log: &mut L, pair: &Pair) {
    let mut last = new_side(alloc, 9);
    follow(rt, alloc, log, &mut last);
    let (one, other) = (&pair.one.reported, &pair.other.reported);
    holds(rt, one.starts_with(other) || other.starts_with(one));
    holds(
        rt,
        last.reported.starts_with(one) && last.reported.starts_with(other),
    );
}

// The turn of this number, in an order that the bits of a number say.
fn turn<L: Log>(
    rt: &impl Abort,
    alloc: Global,
    log: &mut L,
    pair: &mut Pair,
    order: u32,
    number: usize,
) {
    let Some(line) = LINES.get(number) else {
        return;
    };
    if order >> (number as u32) & 1 == 1 {
        act(rt, alloc, log, &mut pair.one, line);
    } else {
        act(rt, alloc, log, &mut pair.other, line);
    }
}

// Both read to the end, and have reported the same.
fn end<L: Log>(rt: &impl Abort, alloc: Global, log: &mut L, pair: &mut Pair) {
    follow(rt, alloc, log, &mut pair.one);
    follow(rt, alloc, log, &mut pair.other);
    agree(rt, alloc, log, pair);
    equal(
        rt,
        pair.one.reported.as_slice(),
        pair.other.reported.as_slice(),
    );
}

// Six turns.
pub(super) fn turns<L: Log>(
    rt: &impl Abort,
    alloc: Global,
    log: &mut L,
    pair: &mut Pair,
    order: u32,
) {
    for number in 0..6usize {
        turn(rt, alloc, log, pair, order, number);
        agree(rt, alloc, log, pair);
    }
}

#[test]
fn two_writers_tell_alike_in_all_orders(rt: HostRuntime) {
    let alloc = rt.alloc();
    for order in 0..64u32 {
        let mut log = MemoryLog::new(alloc);
        let mut pair = new_pair(alloc);
        turns(&rt, alloc, &mut log, &mut pair, order);
        end(&rt, alloc, &mut log, &mut pair);
    }
}

// What the one and the other have reported after six turns: the first to act takes over, a writer that is not active
// reads and takes over, and the active writer appends its line.
const ORDERS: &[(u32, &[u8], &[u8])] = &[
    (0b111111, b"b\nc\nd\ne\nf\n", b""),
    (0b000111, b"b\nc\n", b"b\nc\ne\nf\n"),
    (0b111000, b"b\nc\ne\nf\n", b"b\nc\n"),
    (0b010101, b"", b""),
    (0b110011, b"b\nd\nf\n", b"b\nd\n"),
];

fn reported(rt: &impl Abort, alloc: Global, order: u32, one: &[u8], other: &[u8]) {
    let mut log = MemoryLog::new(alloc);
    let mut pair = new_pair(alloc);
    turns(rt, alloc, &mut log, &mut pair, order);
    equal(rt, pair.one.reported.as_slice(), one);
    equal(rt, pair.other.reported.as_slice(), other);
}

#[test]
fn the_active_writer_reports(rt: HostRuntime) {
    let alloc = rt.alloc();
    for (order, one, other) in ORDERS {
        reported(&rt, alloc, *order, one, other);
    }
}

// A late record: of this term and this writer, at the next number and the next index.
fn late(rt: &impl Abort, alloc: Global, at: Reading, term: u64, writer: u64) -> LogRecord {
    let head = Head {
        number: at.number,
        term,
        writer,
        index: at.index,
    };
    let lines = Vec::from_slice(alloc, b"late\n").expect(rt, "memory");
    LogRecord::new(head, lines).expect(rt, "a record")
}

// Late records come: of each term that is over, by each of the two, and of a rival in the term that stands. No reader
// reports them.
fn come_late(rt: &impl Abort, alloc: Global, log: &mut MemoryLog) {
    let mut last = new_side(alloc, 9);
    follow(rt, alloc, log, &mut last);
    let standing = last.writer.reading;
    let reported = last.reported.len();
    for number in 0..standing.term.min(6) * 2 {
        let at = last.writer.reading;
        let term = number / 2 + 1;
        let writer = if term == standing.term {
            3
        } else {
            number % 2 + 1
        };
        equal(rt, log.append(&late(rt, alloc, at, term, writer)), Ok(()));
        follow(rt, alloc, log, &mut last);
        equal(rt, last.writer.reading.number, at.number.wrapping_add(1));
    }
    equal(rt, last.reported.len(), reported);
    equal(rt, last.writer.reading.term, standing.term);
    equal(rt, last.writer.reading.writer, standing.writer);
}

// Six turns, and late records after one of them.
fn turns_and_late(rt: &impl Abort, alloc: Global, order: u32, later: usize) {
    let mut log = MemoryLog::new(alloc);
    let mut pair = new_pair(alloc);
    for number in 0..6usize {
        turn(rt, alloc, &mut log, &mut pair, order, number);
        if number == later {
            come_late(rt, alloc, &mut log);
        }
        agree(rt, alloc, &mut log, &pair);
    }
    end(rt, alloc, &mut log, &mut pair);
    holds(
        rt,
        !pair
            .one
            .reported
            .windows(5)
            .any(|w| w == b"late\n".as_slice()),
    );
}

#[test]
fn late_records_never_count(rt: HostRuntime) {
    let alloc = rt.alloc();
    for case in 0..384u32 {
        turns_and_late(&rt, alloc, case % 64, (case / 64) as usize);
    }
}
