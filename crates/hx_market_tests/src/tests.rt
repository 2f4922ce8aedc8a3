//! The worked rows, given to the calls of the market's crates.
ghost use Rattle.std.specs.Prelude.{◌≡◌};

mod books;
mod events;
mod histories;
mod market;
mod numbers;
mod orders;
mod plans;
mod setups;

use std::fmt::Debug;
use std::process::Abort;

/// Both are the same, or the test ends.
pub fn equal<R: Abort, T: PartialEq + Debug + Drop>(rt: &R, found: T, wanted: T) {
    assert_eq!(rt; found, wanted);
}

/// It is so, or the test ends.
pub fn holds<R: Abort>(rt: &R, is_so: bool) {
    assert!(rt; is_so);
}

/// There are `wanted`, or the test ends.
pub fn count<R: Abort>(rt: &R, found: usize, wanted: usize)
    ensures { found ≡ wanted }
{
    assert_eq!(rt; found, wanted);
}
