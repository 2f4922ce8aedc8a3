//! A desk is given an event again if it lacks memory for it: nothing of the first time is left.
//!
//! Here it has all the memory that it needs. `tests/refusals` refuses each growth of this test in turn.
ghost use Rattle.std.specs.Prelude.{◌≡◌, length};

use super::days::{DAYS, Worked};
use crate::tests::{equal, holds};
use hx_blog::{Log, Reader};
use hx_desk::{Desk, DeskError, Done, Entry};
use hx_market::Event;
use hx_testing::Day;
use hx_testing::lines::{events_of, lines_that};
use hx_testing::setups::setup_of;
use hx_units::MemberNo;
use std::alloc::Global;
use std::process::Abort;
use std::test::*;

// The event is recorded, at the second time if there was no memory for it.
fn record_again(desk: &mut Desk, log: &Log<Entry>, event: &Event) -> Result<Done, DeskError>
    requires log { desk.old.log ≡ log.now }
    requires still { desk.old.published_end ≡ length desk.old.history }
    ensures log { desk.new.log ≡ desk.old.log }
    ensures still { desk.new.published_end ≡ length desk.new.history }
{
    match desk.submit(log, 1, event) {
        Err(DeskError::NoMemory) => desk.submit(log, 1, event),
        answer => answer,
    }
}

// All events are recorded, each at its index.
fn submit_all<R: Abort>(rt: &R, desk: &mut Desk, log: &Log<Entry>, events: &[Event])
    requires log { desk.old.log ≡ log.now }
    requires still { desk.old.published_end ≡ length desk.old.history }
    ensures { desk.new.log ≡ desk.old.log }
{
    for event in events {
        holds(rt, record_again(desk, log, event).is_ok());
    }
    equal(rt, desk.history_len(), events.len() as u64);
}

// Puts a message, spelled in digits, after the lines.
fn put_line<R: Abort>(
    rt: &R,
    alloc: Global,
    lines: &mut Vec<u8>,
    beginning: &str,
    number: u64,
    bytes: &[u8],
) {
    let digits = hex::encode(alloc, bytes).expect(rt, "digits");
    let line = format!(in alloc; "{beginning} {number} {digits}\n").expect(rt, "a line");
    lines.extend_from_slice(line.as_bytes()).expect(rt, "lines");
}

// The feed, as lines.
fn feed_of<R: Abort>(rt: &R, alloc: Global, log: &Log<Entry>, reader: &mut Reader<Entry>) -> Vec<u8>
    requires { reader.old.log ≡ log.now }
{
    let mut lines = Vec::new(alloc);
    let count = reader.look(log);
    for number in 1..=count {
        let message = reader.at(log, number).expect(rt, "a message");
        put_line(rt, alloc, &mut lines, "F", number, message.as_slice());
    }
    lines
}

// The replies to a member, as lines.
fn replies_of<R: Abort>(rt: &R, alloc: Global, desk: &Desk, number: u16) -> Vec<u8> {
    let member = MemberNo::of(number).expect(rt, "a member");
    let beginning = format!(in alloc; "M {number}").expect(rt, "a beginning");
    let replies = desk.replies_from(member, 0).expect(rt, "replies");
    let mut lines = Vec::new(alloc);
    for (index, reply) in replies.iter().enumerate() {
        let number = index as u64 + 1;
        put_line(rt, alloc, &mut lines, &beginning, number, reply.as_slice());
    }
    lines
}

// Each member's replies are the lines to it.
fn expect_replies<R: AllocGlobal + Abort>(rt: &R, desk: &Desk, day: &Day) {
    for (number, beginning) in [(1, b"M 1 "), (2, b"M 2 "), (3, b"M 3 ")] {
        let replies = replies_of(rt, rt.alloc(), desk, number);
        let lines = lines_that(rt.alloc(), &day.output, beginning, true).expect(rt, "lines");
        equal(rt, replies.as_slice(), lines.as_slice());
    }
}

// A worked day by a desk.
fn expect_day<R: AllocGlobal + Abort>(rt: &R, worked: &Worked) -> Result<(), Fail> {
    let alloc = rt.alloc();
    let day = Day::of(alloc, worked.words)?;
    let events = events_of(alloc, &day.tape)?;
    let setup = setup_of(alloc, worked.setup)?;
    let (log, writer, mut reader) = Log::<Entry>::new(alloc, 20).expect(rt, "a log");
    let mut desk = Desk::new(alloc, setup, writer).expect(rt, "a desk");
    submit_all(rt, &mut desk, &log, &events);
    let feed = feed_of(rt, alloc, &log, &mut reader);
    let lines = lines_that(alloc, &day.output, b"F ", true).expect(rt, "lines");
    equal(rt, feed.as_slice(), lines.as_slice());
    expect_replies(rt, &desk, &day);
    Ok(())
}

#[test]
fn days_by_a_desk(rt: HostRuntime) -> Result<(), Fail> {
    for worked in &DAYS {
        expect_day(&rt, worked)?;
    }
    Ok(())
}
