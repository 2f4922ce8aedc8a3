//! Histories without the messages of quiet chains.

use super::super::equal;
use super::with_second;
use hx_audit::{StrikeError, strike};
use hx_market::{Event, PrepareError};
use hx_members::Setup;
use hx_testing::Day;
use hx_testing::lines::{events_of, first_lines, last_lines, split_line};
use hx_testing::worked::{CHAIN_THAT_TRADED, DISPLAY_CHANGES, HIDDEN_THEN_DISPLAYED};
use hx_units::MemberNo;
use std::alloc::Global;
use std::process::Abort;
use std::test::Fail;

// The events of a tape without the messages of a member's quiet chains, by the standard setup.
fn struck(rt: &impl Abort, alloc: Global, tape: &[u8], member: u16) -> Result<Vec<Event>, Fail> {
    let setup = Setup::standard(alloc).expect(rt, "memory");
    let events = events_of(alloc, tape)?;
    let member = MemberNo::of(member).expect(rt, "a number of a member");
    Ok(strike(alloc, &setup, &events, member).expect(rt, "a strike"))
}

// Why these events are not audited.
fn refused(rt: &impl Abort, alloc: Global, events: &[Event]) -> StrikeError {
    let setup = Setup::standard(alloc).expect(rt, "memory");
    let member = MemberNo::of(1).expect(rt, "a number of a member");
    match strike(alloc, &setup, events, member) {
        Ok(_) => panic!(rt; "all events are accepted"),
        Err(error) => error,
    }
}

// A message as its line of a tape.
fn write_line(rt: &impl Abort, alloc: Global, text: &mut Vec<u8>, event: &Event) {
    let Event::Message {
        member,
        time,
        bytes,
    } = event
    else {
        panic!(rt; "no message");
    };
    let digits = hex::encode(alloc, bytes.as_slice()).expect(rt, "memory");
    let line = format!(in alloc; "{time} {member} {digits}\n").expect(rt, "memory");
    text.extend_from_slice(line.as_bytes()).expect(rt, "memory");
}

// These lines of a tape stay.
fn expect_struck<R: AllocGlobal + Abort>(
    rt: &R,
    tape: &[u8],
    member: u16,
    left: &[u8],
) -> Result<(), Fail> {
    let mut text = Vec::new(rt.alloc());
    for event in &struck(rt, rt.alloc(), tape, member)? {
        write_line(rt, rt.alloc(), &mut text, event);
    }
    equal(rt, text.as_slice(), left);
    Ok(())
}

#[test]
fn a_hidden_order_is_struck(rt: HostRuntime) -> Result<(), Fail> {
    let day = Day::of(rt.alloc(), HIDDEN_THEN_DISPLAYED)?;
    let tape = day.tape.as_slice();
    expect_struck(&rt, tape, 1, last_lines(tape, 1))?;
    expect_struck(&rt, tape, 2, tape)?;
    // The setup has no such member.
    expect_struck(&rt, tape, 77, tape)
}

#[test]
fn a_chain_that_traded_stays(rt: HostRuntime) -> Result<(), Fail> {
    let day = Day::of(rt.alloc(), CHAIN_THAT_TRADED)?;
    let tape = day.tape.as_slice();
    expect_struck(&rt, tape, 1, tape)?;
    expect_struck(&rt, first_lines(tape, 4), 1, b"")
}

#[test]
fn a_displayed_chain_stays(rt: HostRuntime) -> Result<(), Fail> {
    let day = Day::of(rt.alloc(), DISPLAY_CHANGES)?;
    let tape = day.tape.as_slice();
    expect_struck(&rt, tape, 1, tape)?;
    expect_struck(&rt, first_lines(tape, 2), 1, first_lines(tape, 2))
}

#[test]
fn refusals_tell_their_event(rt: HostRuntime) -> Result<(), Fail> {
    let events = with_second(&rt, rt.alloc(), 86_400_000_000_000, 1)?;
    let error = refused(&rt, rt.alloc(), &events);
    let late = StrikeError::Refused {
        index: 1,
        error: PrepareError::BadTime,
    };
    equal(&rt, error, late);
    let events = with_second(&rt, rt.alloc(), 20, 77)?;
    let error = refused(&rt, rt.alloc(), &events);
    let stranger = StrikeError::Refused {
        index: 1,
        error: PrepareError::NoMember,
    };
    equal(&rt, error, stranger);
    let text = format!(in rt.alloc(); "{error}").expect(&rt, "memory");
    equal(&rt, text.as_str(), "event 1 refused: no such member");
    Ok(())
}

#[test]
fn a_message_above_the_limit_is_refused(rt: HostRuntime) -> Result<(), Fail> {
    let day = Day::of(rt.alloc(), HIDDEN_THEN_DISPLAYED)?;
    let (line, _) = split_line(&day.tape).expect(&rt, "a line");
    let mut text = Vec::new(rt.alloc());
    for _ in 0..1001 {
        text.extend_from_slice(line).expect(&rt, "memory");
        text.push(b'\n').expect(&rt, "memory");
    }
    let error = refused(&rt, rt.alloc(), &events_of(rt.alloc(), &text)?);
    let limit = StrikeError::Refused {
        index: 1000,
        error: PrepareError::Limit { member: 1 },
    };
    equal(&rt, error, limit);
    Ok(())
}
