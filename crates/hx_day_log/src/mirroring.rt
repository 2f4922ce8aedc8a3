//! What a mirror of a day's log has and lacks.
ghost use Rattle.std.specs.Prelude.{◌≡◌, ◌≤◌, ◌++◌, true, length, take, map, IfOk, OnOk};
ghost use Rattle.hx_tape_lines.specs.Text.{record_of};
ghost use Rattle.hx_fenced_log.specs.Mirrors.{Mirrors};

use crate::fault::DayLogError;
use hx_journal::Journal;
use hx_market::Event;
use hx_tape_lines::write_record;
use std::alloc::{AllocError, Global};

// A mirror is synced after this number of records, so that few of them wait in memory.
const GROUP: usize = 10_000;

// Whether two events have one record.
fn is_same(alloc: Global, one: &Event, other: &Event) -> Result<bool, AllocError>
    ensures { IfOk result (λ same. same ≡ true → record_of one.now ≡ record_of other.now) }
{
    let mut text = Vec::new(alloc);
    write_record(alloc, &mut text, one)?;
    let mut other_text = Vec::new(alloc);
    write_record(alloc, &mut other_text, other)?;
    Ok(text.as_slice() == other_text.as_slice())
}

/// How many of the first events of two lists have the same records.
pub(crate) fn count_same(alloc: Global, one: &[Event], other: &[Event]) -> Result<usize, AllocError>
    ensures of_one { IfOk result (λ n. n ≤ length one.now) }
    ensures of_other { IfOk result (λ n. n ≤ length other.now) }
    ensures same { IfOk result (λ n. map record_of (take n one.now)
        ≡ map record_of (take n other.now)) }
{
    let most = one.len().min(other.len());
    for index in 0..most {
        if !is_same(alloc, &one[index], &other[index])? {
            return Ok(index);
        }
    }
    Ok(most)
}

// Appends the records of events.
fn append_records<M: Journal>(
    alloc: Global,
    mirror: &mut M,
    events: &[Event],
) -> Result<(), DayLogError>
    ensures { OnOk result (M.appended mirror.new
        ≡ M.appended mirror.old ++ map record_of events.now) }
{
    let mut text = Vec::new(alloc);
    for event in events {
        text.clear();
        write_record(alloc, &mut text, event)?;
        mirror.append(&text)?;
    }
    Ok(())
}

/// Appends the records of events group by group, and syncs each.
pub(crate) fn keep_records<M: Journal>(
    alloc: Global,
    mirror: &mut M,
    events: &[Event],
) -> Result<(), DayLogError>
    requires durable { M.durable mirror.old ≡ M.appended mirror.old }
    requires open { M.is_open mirror.old ≡ true }
    ensures { OnOk result (Mirrors M.appended M.durable M.is_open mirror.new
        (M.appended mirror.old ++ map record_of events.now)) }
{
    let mut rest = events;
    while !rest.is_empty() {
        let (group, others) = rest.split_at(rest.len().min(GROUP));
        append_records(alloc, mirror, group)?;
        mirror.sync()?;
        rest = others;
    }
    Ok(())
}
