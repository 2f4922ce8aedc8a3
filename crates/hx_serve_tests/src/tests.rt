//! Days on loopback, with clients in the test's own thread.

mod acceptors;
mod client;
mod datagrams;
mod day_contexts;
mod days;
mod faults;
mod gates;
mod histories;
mod journal_files;
mod lines;
mod notice_sinks;
mod notices;
mod open_days;
mod restarts;
mod two_parts;
mod vendor;

use std::fmt::Debug;
use std::process::Abort;

// Both are the same, or the test ends.
fn equal<R: Abort, T: PartialEq + Debug + Drop>(rt: &R, found: T, wanted: T) {
    assert_eq!(rt; found, wanted);
}

// It is so, or the test ends.
fn holds<R: Abort>(rt: &R, is_so: bool) {
    assert!(rt; is_so);
}
