//! Tests of a log that several append to, in memory and in an etcd, and of a journal and a day over it.

mod copies;
mod day_log;
mod etcd;
mod etcd_log;
mod log;
mod log_journal;
mod mirrors;
mod terms;

use std::fmt::Debug;
use std::process::Abort;

// Both are the same, or the test ends.
fn equal<R: Abort, T: PartialEq + Debug + Drop>(rt: &R, found: T, wanted: T) {
    assert_eq!(rt; found, wanted);
}

// It is so, or the test ends.
fn holds<R: Abort>(rt: &R, is_so: bool) {
    assert!(rt; is_so);
}
