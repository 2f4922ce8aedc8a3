//! Fields, messages, packets, frames and sessions, and readers of the feed.
ghost use Rattle.std.specs.Prelude.{◌≡◌};

mod blog;
mod itch;
mod mold;
mod ouch;
mod packets;
mod reader;
mod retransmit;
mod sessions;
mod soup;
mod texts;
mod units;

use std::fmt::Debug;
use std::process::Abort;

/// Both are the same, or the test ends.
pub fn equal<R: Abort, T: PartialEq + Debug + Drop>(rt: &R, found: T, wanted: T) {
    assert_eq!(rt; found, wanted);
}

/// It is so, or the test ends.
pub fn holds<R: Abort>(rt: &R, is_so: bool) {
    assert!(rt; is_so);
}

/// There are `wanted`, or the test ends.
pub fn count<R: Abort>(rt: &R, found: usize, wanted: usize)
    ensures { found ≡ wanted }
{
    assert_eq!(rt; found, wanted);
}
