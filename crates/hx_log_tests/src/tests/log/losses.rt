//! A log whose answers are lost.
ghost use Rattle.std.specs.Prelude.{◌≡◌};
ghost use mathlib.Core.List.{IsPrefix};

use super::orders::{new_pair, turns};
use super::{follow, keep, new_side};
use crate::tests::{equal, holds};
use hx_fenced_log::{KeepError, Log, LogError, LogRecord, MemoryLog};
use std::alloc::Global;
use std::process::Abort;

// What becomes of a record whose answer is lost.
#[derive(Clone, Copy, Debug, PartialEq, Eq)]
enum Loss {
    // It never comes.
    Gone,
    // It stands there.
    Stands,
    // It comes before the next append.
    Late,
    // It comes twice, and the second is answered.
    Twice,
}

fn loss_of(number: usize) -> Loss {
    match number {
        0 => Loss::Gone,
        1 => Loss::Stands,
        2 => Loss::Late,
        _ => Loss::Twice,
    }
}

// A log in memory of which one append is not answered as it should be.
#[derive(Drop)]
struct LossyLog {
    alloc: Global,
    log: MemoryLog,
    loss: Loss,
    // How many appends come before that one, which then counts no more.
    before: Option<u32>,
    late: Option<LogRecord>,
}

fn lossy(alloc: Global, loss: Loss, before: u32) -> LossyLog {
    LossyLog {
        alloc,
        log: MemoryLog::new(alloc),
        loss,
        before: Some(before),
        late: None,
    }
}

impl LossyLog {
    // Whether this append is the one.
    fn is_lost(&mut self) -> bool
        ensures { self.new.log ≡ self.old.log }
    {
        match self.before {
            Some(before) => {
                self.before = before.checked_sub(1);
                before == 0
            }
            None => false,
        }
    }

    // What comes before the record.
    fn come_first(&mut self)
        ensures { IsPrefix self.old.log self.new.log }
    {
        if let Some(late) = self.late.take() {
            let _answer = self.log.append(&late);
        }
    }

    // What becomes of the record that is lost.
    fn lose(&mut self, next: &LogRecord)
        ensures { IsPrefix self.old.log self.new.log }
    {
        match self.loss {
            Loss::Gone => {}
            Loss::Late => self.late = next.copy(self.alloc).ok(),
            Loss::Stands | Loss::Twice => {
                let _answer = self.log.append(next);
            }
        }
    }
}

impl Log for LossyLog {
    ghost committed = { λ l. l.log };

    fn append(&mut self, next: &LogRecord) -> Result<(), LogError> {
        self.come_first();
        if self.is_lost() {
            self.lose(next);
            if self.loss != Loss::Twice {
                return Err(LogError::Unknown);
            }
        }
        self.log.append(next)
    }

    fn read(&mut self, alloc: Global, from: u64) -> Result<Vec<LogRecord>, LogError> {
        self.log.read(alloc, from)
    }
}

// Each order of six turns, each of whose appends is lost in each way.
#[test]
fn two_writers_tell_alike_whatever_is_lost(rt: HostRuntime) {
    let alloc = rt.alloc();
    for case in 0..3072usize {
        let mut log = lossy(alloc, loss_of(case % 4), (case / 4 % 12) as u32);
        let mut pair = new_pair(alloc);
        turns(&rt, alloc, &mut log, &mut pair, (case / 48) as u32);
    }
}

// The answer that a writer gets, and what it has reported once it has read on, and once it has appended another line.
const ANSWERS: &[(Loss, LogError, &[u8], &[u8])] = &[
    (Loss::Gone, LogError::Unknown, b"", b"sell\n"),
    (Loss::Stands, LogError::Unknown, b"buy\n", b"buy\nsell\n"),
    (Loss::Late, LogError::Unknown, b"", b"buy\nsell\n"),
    (Loss::Twice, LogError::Taken, b"buy\n", b"buy\nsell\n"),
];

// Appends a line until it is durable, which it is the second time at the latest.
fn keep_at_last(
    rt: &impl Abort,
    alloc: Global,
    log: &mut LossyLog,
    one: &mut super::Side,
    line: &[u8],
) {
    if keep(rt, alloc, log, one, line).is_err() {
        follow(rt, alloc, log, one);
        equal(rt, keep(rt, alloc, log, one, line), Ok(()));
    }
}

fn is_answered(
    rt: &impl Abort,
    alloc: Global,
    loss: Loss,
    error: LogError,
    read: &[u8],
    reported: &[u8],
) {
    let mut log = lossy(alloc, loss, 1);
    let mut one = new_side(alloc, 1);
    equal(rt, one.writer.take_over(alloc, &mut log), Ok(()));
    equal(
        rt,
        keep(rt, alloc, &mut log, &mut one, b"buy\n"),
        Err(KeepError::Log(error)),
    );
    equal(rt, one.reported.len(), 0);
    follow(rt, alloc, &mut log, &mut one);
    equal(rt, one.reported.as_slice(), read);
    holds(rt, one.writer.is_active());
    keep_at_last(rt, alloc, &mut log, &mut one, b"sell\n");
    equal(rt, one.reported.as_slice(), reported);
}

#[test]
fn a_lost_answer_is_found_by_reading(rt: HostRuntime) {
    let alloc = rt.alloc();
    for (loss, error, read, reported) in ANSWERS {
        is_answered(&rt, alloc, *loss, *error, read, reported);
    }
}
