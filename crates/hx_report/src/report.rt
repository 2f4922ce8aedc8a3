//! The report of a day.
ghost use Rattle.std.specs.Prelude.{◌≡◌, ◌<◌, ◌≤◌, ◌+◌, ℕ, List, length, take, IfOk, OnOk};
ghost use Rattle.std.specs.List.{AllZip, slice_index_or};
ghost use Rattle.hx_members.specs.Member.{Member as Person};
ghost use Rattle.hx_tape_lines.specs.Text.{Entry};
ghost use Rattle.hx_report.specs.Days.{IsDay};
ghost use Rattle.hx_report.specs.Reports.{IsRow, IsReport};

use crate::check::{Check, check_all, check_member};
use crate::day::Day;
use crate::rows::{Row, Tally};
use hx_members::Member;
use hx_replay::Counts;
use hx_units::NoMemory;
use std::alloc::Global;
use std::thread;
use std::thread::Threads;

/// Receives how far a report is.
pub trait Progress {
    /// This number of members is done, of all that there are.
    fn tell(&mut self, done: usize, of: usize);
}

/// What an audit says of a day.
#[derive(Drop)]
pub struct Report {
    /// What the day was: its events, the messages of its feed, and the replies.
    pub counts: Counts,
    /// Of each member of the setup, in the setup's order.
    pub rows: Vec<Row>,
    /// The feed without the quiet chains of all members.
    pub all: Check,
}

// The number of members that are checked at once.
const AT_ONCE: usize = 4;

// The row of the member at an index.
fn row_at(alloc: Global, day: &Day, members: &[Member], index: usize) -> Result<Row, NoMemory>
    requires { index < length members.now }
    ensures { IfOk result (λ row. (es : List Entry) (d : Person) → IsDay day.now es
        → IsRow day.now.setup es (slice_index_or members.now index d) row) }
{
    let member = members[index].number;
    Ok(Row {
        member,
        tally: Tally::of(day, member),
        check: check_member(alloc, day, member)?,
    })
}

// Adds the rows of the next members, each made by a thread of its own.
fn add_rows<R: Threads + Sync>(
    rt: &R,
    alloc: Global,
    day: &Day,
    members: &[Member],
    rows: &mut Vec<Row>,
) -> Result<(), NoMemory>
    requires { length rows.old.items < length members.now }
    ensures more { OnOk result (length rows.old.items < length rows.new.items) }
    ensures few { OnOk result (length rows.new.items ≤ length members.now) }
    ensures rows { OnOk result ((es : List Entry) → IsDay day.now es
        → AllZip (IsRow day.now.setup es) (take (length rows.old.items) members.now) rows.old.items
        → AllZip (IsRow day.now.setup es) (take (length rows.new.items) members.now)
        rows.new.items) }
{
    let from = rows.len();
    let count = AT_ONCE.min(members.len() - from);
    let row = move |i: usize| -> Result<Row, NoMemory>
        requires { from + i < length members.now }
        ensures { IfOk result (λ row. (es : List Entry) (d : Person) → IsDay day.entry.now es
            → IsRow day.entry.now.setup es (slice_index_or members.entry.now (from + i) d) row) }
    { row_at(alloc, day, members, from + i) };
    for made in &thread::map_indices(rt, alloc, count, &row)? {
        rows.push((*made)?)?;
    }
    Ok(())
}

/// Audits a day: counts what each member did, and compares what all others get of the day with and without that
/// member's quiet chains. `same` is said only if both texts are equal. Only memory can be wanting.
pub fn audit<R: Threads + Sync, P: Progress>(
    rt: &R,
    alloc: Global,
    day: &Day,
    progress: &mut P,
) -> Result<Report, NoMemory>
    ensures { IfOk result (λ report. (es : List Entry) → IsDay day.now es
        → IsReport day.now.setup es report) }
{
    let members = day.members();
    let mut rows = Vec::new(alloc);
    while rows.len() < members.len() {
        progress.tell(rows.len(), members.len());
        add_rows(rt, alloc, day, members, &mut rows)?;
    }
    progress.tell(rows.len(), members.len());
    Ok(Report {
        counts: day.counts,
        rows,
        all: check_all(alloc, day)?,
    })
}
