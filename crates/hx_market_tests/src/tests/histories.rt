//! Audits of worked days.

mod chains;
mod striking;

use hx_market::Event;
use hx_testing::Day;
use hx_testing::lines::{event_of, split_line};
use hx_testing::worked::HIDDEN_THEN_DISPLAYED;
use std::alloc::Global;
use std::process::Abort;
use std::test::Fail;

// A hidden order, and the same message once more at another time or of another member.
fn with_second(rt: &impl Abort, alloc: Global, time: u64, member: u16) -> Result<Vec<Event>, Fail> {
    let day = Day::of(alloc, HIDDEN_THEN_DISPLAYED)?;
    let (line, _) = split_line(&day.tape).expect(rt, "a line");
    let first = event_of(alloc, line)?;
    let Event::Message { bytes, .. } = event_of(alloc, line)? else {
        panic!(rt; "no message");
    };
    let second = Event::Message {
        member,
        time,
        bytes,
    };
    Ok(vec![in alloc; first, second].expect(rt, "memory"))
}
