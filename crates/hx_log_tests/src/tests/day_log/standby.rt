//! Standbys and followers.
ghost use Rattle.std.specs.Prelude.{◌≡◌};

use super::rivals::RivalLog;
use super::{expect_day, keep_day, opened};
use crate::tests::{equal, holds};
use hx_day_log::*;
use hx_fenced_log::{Follower, Log, LogError, LogRecord, MemoryLog};
use hx_recovery::Unwatched;
use std::alloc::Global;
use std::io;
use std::io::Write;

// A watch that has patience for `looks` looks without news, and counts its news.
#[derive(Drop)]
pub(super) struct Patient {
    looks: u64,
    left: u64,
    news: u64,
    unreachable: u64,
    // The active writer at the last look.
    holder: u64,
}

impl Patient {
    pub(super) fn new(looks: u64) -> Patient {
        Patient {
            looks,
            left: looks,
            news: 0,
            unreachable: 0,
            holder: 0,
        }
    }
}

impl Watch for Patient {
    fn is_gone(&mut self, news: News, holder: u64) -> bool {
        self.holder = holder;
        match news {
            News::Some => self.news = self.news.saturating_add(1),
            News::Unreachable => self.unreachable = self.unreachable.saturating_add(1),
            News::None => {
                self.left = self.left.saturating_sub(1);
                if self.left == 0 {
                    self.left = self.looks;
                    return true;
                }
            }
        }
        false
    }
}

#[test]
fn a_standby_takes_over_once_nothing_comes(rt: HostRuntime) {
    let alloc = rt.alloc();
    let first = opened(&rt, alloc, MemoryLog::new(alloc), 1);
    let log = keep_day(&rt, first.journal);
    let mut watch = Patient::new(3);
    let day = stand_by(alloc, log, 2, &mut watch, &Unwatched).expect(&rt, "a log");
    expect_day(&rt, &day.events);
    equal(&rt, (watch.news, watch.unreachable), (1, 0));
    equal(&rt, watch.holder, 1);
    // The takeovers of both, and a record of both lines.
    equal(&rt, day.journal.into_follower().into_log().len(), 3);
}

#[test]
fn a_standby_that_loses_a_takeover_stands_by_on(rt: HostRuntime) {
    let alloc = rt.alloc();
    let log = RivalLog::new(alloc, 3);
    let mut watch = Patient::new(2);
    let day = stand_by(alloc, log, 1, &mut watch, &Unwatched).expect(&rt, "a log");
    equal(&rt, day.events.len(), 3);
    // Each rival's records came as news before the next look.
    equal(&rt, watch.news, 3);
}

// A log that cannot be reached by its first reads.
#[derive(Drop)]
struct FarLog {
    log: MemoryLog,
    failing: u64,
}

impl Log for FarLog {
    ghost committed = { λ l. l.log };

    fn append(&mut self, next: &LogRecord) -> Result<(), LogError> {
        self.log.append(next)
    }

    fn read(&mut self, alloc: Global, from: u64) -> Result<Vec<LogRecord>, LogError> {
        if self.failing > 0 {
            self.failing -= 1;
            let is_lost = self.failing % 2 == 0;
            return Err(if is_lost {
                LogError::Unknown
            } else {
                LogError::Unreachable
            });
        }
        self.log.read(alloc, from)
    }
}

#[test]
fn while_no_node_answers_a_standby_stands_by(rt: HostRuntime) {
    let alloc = rt.alloc();
    let log = FarLog {
        log: MemoryLog::new(alloc),
        failing: 5,
    };
    let mut watch = Patient::new(1);
    let day = stand_by(alloc, log, 1, &mut watch, &Unwatched).expect(&rt, "a log");
    equal(&rt, day.events.len(), 0);
    equal(&rt, watch.unreachable, 5);
}

#[test]
fn a_day_does_not_begin_if_no_node_answers(rt: HostRuntime) {
    let alloc = rt.alloc();
    let log = FarLog {
        log: MemoryLog::new(alloc),
        failing: 1,
    };
    let fault = open_log(alloc, log, 1, &Unwatched).err();
    equal(&rt, fault, Some(DayLogError::Unreachable));
}

#[test]
fn a_follower_writes_the_tape(rt: HostRuntime) {
    let alloc = rt.alloc();
    let first = opened(&rt, alloc, MemoryLog::new(alloc), 1);
    let log = keep_day(&rt, first.journal);
    let mut follower = Follower::new(log, 0);
    let mut tape = Vec::new(alloc);
    equal(
        &rt,
        write_on(alloc, &mut follower, &mut tape),
        Ok(News::Some),
    );
    equal(
        &rt,
        write_on(alloc, &mut follower, &mut tape),
        Ok(News::None),
    );
    equal(&rt, tape.as_slice(), b"1 0 51\n2 1 4f48\n".as_slice());
}

// A writer that fails.
#[derive(Drop)]
struct Full;

impl Write for Full {
    fn write(&mut self, _bytes: &[u8]) -> io::Result<usize> {
        Err(io::Error::from(io::ErrorKind::StorageFull))
    }

    fn flush(&mut self) -> io::Result<()> {
        Ok(())
    }
}

#[test]
fn a_tape_that_cannot_be_written_is_a_fault(rt: HostRuntime) {
    let alloc = rt.alloc();
    let first = opened(&rt, alloc, MemoryLog::new(alloc), 1);
    let log = keep_day(&rt, first.journal);
    let mut follower = Follower::new(log, 0);
    let fault = write_on(alloc, &mut follower, &mut Full).err();
    equal(&rt, fault, Some(DayLogError::Write));
    holds(&rt, DayLogError::Write.status() == 4);
}
