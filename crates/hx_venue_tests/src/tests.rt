//! A day's acceptors and its operator, the screen of a vendor, its web page, and the metrics page.

mod acceptors;
mod answered;
mod market_view;
mod metrics;
mod operator;
mod page;

use std::fmt::Debug;
use std::process::Abort;

// Both are the same, or the test ends.
fn equal<R: Abort, T: PartialEq + Debug + Drop>(rt: &R, found: T, wanted: T) {
    assert_eq!(rt; found, wanted);
}

// It is so, or the test ends.
fn holds<R: Abort>(rt: &R, is_so: bool) {
    assert!(rt; is_so);
}
