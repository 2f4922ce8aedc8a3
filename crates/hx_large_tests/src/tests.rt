//! What is large, and what is refused.

mod ahead;
mod chains;
mod day;
mod desk;
mod ending;
mod framing;
mod minimums;
mod packets;
mod refusals;
mod replaying;
mod script;
mod striking;
mod tokens;
mod widest;

use std::process::Abort;

// Both are the same, or the test ends.
fn equal<R: Abort, T: PartialEq + Drop>(rt: &R, found: T, wanted: T) {
    assert!(rt; found == wanted);
}

// It is so, or the test ends.
fn holds<R: Abort>(rt: &R, is_so: bool) {
    assert!(rt; is_so);
}
