//! The journal of a day in a file, days over one that fails, is slow or is full, and days that resume from a journal.

mod at_once;
mod busy;
mod crash_points;
mod failing;
mod five_records;
mod going_on;
mod journal;
mod journal_tool;
mod output;
mod resuming;
mod shared_file;
mod worked_days;

use std::process::Abort;

// Both are the same, or the test ends.
fn equal<R: Abort, T: PartialEq + Drop>(rt: &R, found: T, wanted: T) {
    assert!(rt; found == wanted);
}

// It is so, or the test ends.
fn holds<R: Abort>(rt: &R, is_so: bool) {
    assert!(rt; is_so);
}
