//! Worked rows and busy days, given to a desk and to an exchange.

mod busy_day;
mod desks;
mod exchanges;
mod refusing;
mod scenario;
mod turns;
mod two_sessions;
mod wakers;
mod waking;

use hx_market::Event;
use hx_testing::sending::{Order, enter};
use hx_units::MemberNo;
use std::alloc::Global;
use std::process::Abort;

// Both are the same, or the test ends.
fn equal<R: Abort, T: PartialEq + Drop>(rt: &R, found: T, wanted: T) {
    assert!(rt; found == wanted);
}

// It is so, or the test ends.
fn holds<R: Abort>(rt: &R, is_so: bool) {
    assert!(rt; is_so);
}

// The member of this number.
fn member_of<R: Abort>(rt: &R, number: u16) -> MemberNo {
    MemberNo::of(number).expect(rt, "a member")
}

// The message that enters an order.
fn entered<R: Abort>(rt: &R, alloc: Global, order: &Order) -> Event {
    enter(alloc, order).expect(rt, "an order")
}
