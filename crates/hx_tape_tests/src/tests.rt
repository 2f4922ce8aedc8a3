//! Worked tapes: the output of each, what is struck, how it is shown, and what a report says of it.

mod all_members;
mod feed_book;
mod generated;
mod halts;
mod replaying;
mod reports;
mod showing;
mod striking;

use std::fmt::Debug;
use std::process::Abort;

/// Both are the same, or the test ends.
pub fn equal<R: Abort, T: PartialEq + Debug + Drop>(rt: &R, found: T, wanted: T) {
    assert_eq!(rt; found, wanted);
}

/// It is so, or the test ends.
pub fn holds<R: Abort>(rt: &R, is_so: bool) {
    assert!(rt; is_so);
}
