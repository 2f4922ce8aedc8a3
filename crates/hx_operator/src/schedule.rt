//! A schedule: the codes of the hours, each at its time of the day.
ghost use Rattle.std.specs.Prelude.{◌≡◌, ◌++◌, List, IfOk, IfErr, IfNone, OnSome, Some};
ghost use Rattle.hx_operator.specs.declared.schedule.ScheduleError.TheVariants.{NoMemory as OutOfMemory};
ghost use Rattle.hx_operator.specs.Marks.{lines_of};
ghost use Rattle.hx_operator.specs.Schedules.{entry_of, said, fault_after, fault_of, due_of, left_of, after_past, AreOfSchedule, IsFault};

use crate::entry::{Entry, Wrong, entry_of, fault_later, index_of};
use hx_units::split_once;
use std::alloc::{AllocError, Global};
use std::marker::Model;
use thiserror::Error;

/// Why a text is no schedule.
#[derive(Clone, Copy, Debug, PartialEq, Eq, Drop, Error)]
pub enum ScheduleError {
    /// A line is wrong, the first one that is.
    #[error("schedule line {number}: {wrong}")]
    Line {
        /// Its number, counted from 1.
        number: usize,
        /// What is wrong with it.
        wrong: Wrong,
    },
    /// A growth was refused.
    #[error("no memory")]
    NoMemory,
}

impl From<AllocError> for ScheduleError {
    ghost from_gives = { λ _ e. e ≡ OutOfMemory };

    fn from(_error: AllocError) -> ScheduleError {
        ScheduleError::NoMemory
    }
}

/// The codes of the hours that are still to be given, each at its time. Contracts see the list of them.
#[derive(Drop)]
pub struct Schedule {
    left: Vec<Entry>,
}

impl Model for Schedule {
    ghost use Rattle.std.specs.Prelude.{List};
    ghost use Rattle.hx_operator.specs.declared.entry.Entry.{Entry as EntryName};

    ghost Value = { List EntryName };

    ghost view = { λ s. s.left.items };
}

impl Schedule {
    /// The next code, once its time has come, by the time of the day in nanoseconds since midnight,
    /// UTC. Each code is given once, and one at a call: call again until there is none.
    pub fn next_due(&mut self, now: u64) -> Option<u8>
        ensures due { result ≡ due_of now self.old }
        ensures left { self.new ≡ left_of now self.old }
    {
        let first = *self.left.first()?;
        if first.time > now {
            return None;
        }
        Some(self.left.remove(0).code)
    }

    /// Passes over the first n codes of the day, of O, S, Q, M, E and C: they are past.
    pub fn skip(&mut self, past: u8)
        ensures { self.new ≡ after_past past self.old }
    {
        while let Some(first) = self.left.first()
            && index_of(first.code) < past
        {
            self.left.remove(0);
        }
    }

    /// What is still to be given, in order.
    pub fn left(&self) -> &[Entry]
        ensures { result.now ≡ self.now }
    {
        &self.left
    }
}

// What is wrong with an entry after these.
fn fault_after(entries: &[Entry], next: Entry) -> Option<Wrong>
    ensures { result ≡ fault_after entries.now next }
{
    let last = *entries.last()?;
    fault_later(last, next)
}

// Takes what a line says, or answers what is wrong with it.
fn take_line(entries: &mut Vec<Entry>, line: &[u8]) -> Result<Option<Wrong>, AllocError>
    ensures fault { IfOk result (λ wrong. wrong ≡ fault_of entries.old.items (entry_of line.now)) }
    ensures taken { IfOk result (λ wrong. IfNone wrong
        (entries.new.items ≡ entries.old.items ++ said (entry_of line.now))) }
    ensures retained { IfOk result (λ wrong. OnSome wrong (entries.new.items ≡ entries.old.items)) }
{
    let entry = match entry_of(line) {
        Ok(Some(entry)) => entry,
        Ok(None) => return Ok(None),
        Err(wrong) => return Ok(Some(wrong)),
    };
    if let Some(wrong) = fault_after(entries, entry) {
        return Ok(Some(wrong));
    }
    entries.push(entry)?;
    Ok(None)
}

/// The schedule of a text: on each line a time of the day and a code of the hours, as `09:30:00 Q`, or
/// nothing. The time is UTC, or has the offset of the clock that it is read from, as
/// `09:30:00-05:00`. The codes stand in the order O, S, Q, M, E, C, of which some may be left out, and
/// no time is before that of the line before. What follows a `#` is a comment. It takes memory.
///
/// Errors: the first line that is wrong.
pub fn read_schedule(alloc: Global, text: &[u8]) -> Result<Schedule, ScheduleError>
    ensures ok { IfOk result (λ schedule. AreOfSchedule (lines_of text.now) schedule) }
    ensures err { IfErr result (IsFault text.now) }
{
    let mut entries = Vec::new(alloc);
    let mut rest = text;
    let mut number = 1;
    while let Some((line, others)) = split_once(rest, b'\n') {
        if let Some(wrong) = take_line(&mut entries, line)? {
            return Err(ScheduleError::Line { number, wrong });
        }
        rest = others;
        number += 1;
    }
    if let Some(wrong) = take_line(&mut entries, rest)? {
        return Err(ScheduleError::Line { number, wrong });
    }
    Ok(Schedule { left: entries })
}
