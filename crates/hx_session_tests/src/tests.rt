//! Sessions over readers and writers in memory.

mod client;
mod copying;
mod cutting;
mod day;
mod failing;
mod fresh;
mod logins;
mod overlap;
mod packets;
mod parting;
mod reading;
mod refusing;
mod resuming;
mod sleeping;
mod stage;

use std::process::Abort;

// Both are the same, or the test ends.
fn equal<R: Abort, T: PartialEq + Drop>(rt: &R, found: T, wanted: T) {
    assert!(rt; found == wanted);
}

// It is so, or the test ends.
fn holds<R: Abort>(rt: &R, is_so: bool) {
    assert!(rt; is_so);
}
