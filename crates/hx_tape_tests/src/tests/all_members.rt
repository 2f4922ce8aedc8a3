//! A day whose quiet chains are those of several members.

use super::equal;
use super::replaying::{expect_output, replayed};
use hx_audit::{StrikeError, strike_all, strike_chains};
use hx_market::{Event, PrepareError};
use hx_replay::{Kind, TapeError};
use hx_strike::strike_all_tape;
use hx_testing::Day;
use hx_testing::lines::{events_of, first_lines, last_lines};
use hx_testing::setups::standard;
use hx_units::{MemberNo, Token};
use std::alloc::Global;
use std::process::Abort;
use std::test::Fail;

// Two members have quiet chains, and the third has a displayed order.
const TWO_QUIET_MEMBERS: &str = "\
10 1 enter H1 buy 100 ABCD 10.0000 day hidden
  M 1 1 accepted 1.1
20 2 enter I1 buy 100 ABCD 10.0000 now shown
  M 2 1 accepted 2.1
  M 2 2 canceled I1 100 immediate
30 3 enter T1 buy 200 ABCD 10.0000 day shown
  F 1 add 1 buy 200 ABCD 10.0000
  M 3 1 accepted 1
40 1 replace H1 H9 100 10.0100 day hidden
  M 1 2 replaced buy 100 1.2
";

// The third line of a text.
fn third_line(text: &[u8]) -> &[u8] {
    first_lines(last_lines(text, 2), 1)
}

#[test]
fn the_day_is_as_reported(rt: HostRuntime) -> Result<(), Fail> {
    let day = Day::of(rt.alloc(), TWO_QUIET_MEMBERS)?;
    expect_output(&rt, &day, replayed(rt.alloc(), &day.tape));
    Ok(())
}

#[test]
fn without_all_quiet_chains_one_line_stays(rt: HostRuntime) -> Result<(), Fail> {
    let day = Day::of(rt.alloc(), TWO_QUIET_MEMBERS)?;
    let mut output = Vec::new(rt.alloc());
    let mut reader = day.tape.as_slice();
    let setup = standard(rt.alloc()).expect(&rt, "memory");
    let counts = strike_all_tape(rt.alloc(), &setup, &mut reader, &mut output).expect(
        &rt, "a strike",
    );
    equal(&rt, output.as_slice(), third_line(&day.tape));
    equal(&rt, (counts.events, counts.feed, counts.replies), (1, 0, 0));
    Ok(())
}

#[test]
fn a_bad_line_is_named(rt: HostRuntime) {
    let mut output = Vec::new(rt.alloc());
    let mut reader: &[u8] = b"10 0 4b\n20 7 zz\n";
    let setup = standard(rt.alloc()).expect(&rt, "memory");
    match strike_all_tape(rt.alloc(), &setup, &mut reader, &mut output) {
        Err(TapeError::Line { line, kind }) => equal(&rt, (line, kind), (2, Kind::Bad)),
        _ => panic!(rt; "the second line is bad"),
    }
    equal(&rt, output.len(), 0);
}

// When the events are: each of this day has a time of its own.
fn times(rt: &impl Abort, alloc: Global, events: &[Event]) -> Vec<u64> {
    let mut times = Vec::new(alloc);
    for event in events {
        let (Event::Message { time, .. }
        | Event::Tick { time }
        | Event::Hours { time, .. }
        | Event::Halt { time, .. }
        | Event::Break { time, .. }) = event;
        times.push(*time).expect(rt, "memory");
    }
    times
}

// The day's events without the chains of a member's tokens, by their times.
fn left(rt: &impl Abort, alloc: Global, member: u16, tokens: &[Token]) -> Result<Vec<u64>, Fail> {
    let day = Day::of(alloc, TWO_QUIET_MEMBERS)?;
    let events = events_of(alloc, &day.tape)?;
    let setup = standard(alloc).expect(rt, "memory");
    let member = MemberNo::of(member).expect(rt, "a number of a member");
    let retained = strike_chains(alloc, &setup, &events, member, tokens).expect(rt, "a strike");
    Ok(times(rt, alloc, &retained))
}

#[test]
fn all_quiet_chains_are_struck(rt: HostRuntime) -> Result<(), Fail> {
    let day = Day::of(rt.alloc(), TWO_QUIET_MEMBERS)?;
    let events = events_of(rt.alloc(), &day.tape)?;
    let setup = standard(rt.alloc()).expect(&rt, "memory");
    let retained = strike_all(rt.alloc(), &setup, &events).expect(&rt, "a strike");
    equal(
        &rt,
        times(&rt, rt.alloc(), &retained).as_slice(),
        [30].as_slice(),
    );
    Ok(())
}

#[test]
fn listed_chains_are_struck(rt: HostRuntime) -> Result<(), Fail> {
    let chain = left(&rt, rt.alloc(), 1, &[Token(*b"H9            ")])?;
    equal(&rt, chain.as_slice(), [20, 30].as_slice());
    let none = left(&rt, rt.alloc(), 1, &[])?;
    equal(&rt, none.as_slice(), [10, 20, 30, 40].as_slice());
    Ok(())
}

// Why a list of tokens is not struck from these events.
fn refused(
    rt: &impl Abort,
    alloc: Global,
    events: &[Event],
    member: u16,
    tokens: &[Token],
) -> StrikeError {
    let setup = standard(alloc).expect(rt, "memory");
    let member = MemberNo::of(member).expect(rt, "a number of a member");
    match strike_chains(alloc, &setup, events, member, tokens) {
        Ok(_) => panic!(rt; "these tokens are quiet"),
        Err(error) => error,
    }
}

#[test]
fn a_token_that_is_not_quiet_is_named(rt: HostRuntime) -> Result<(), Fail> {
    let day = Day::of(rt.alloc(), TWO_QUIET_MEMBERS)?;
    let events = events_of(rt.alloc(), &day.tape)?;
    let (displayed, quiet) = (Token(*b"T1            "), Token(*b"H1            "));
    // The displayed order's token; a quiet one of its first, which it never used; and a stranger's.
    for (member, tokens, want) in [
        (3, [displayed, displayed], displayed),
        (1, [quiet, displayed], displayed),
        (77, [quiet, displayed], quiet),
    ] {
        let error = refused(&rt, rt.alloc(), &events, member, &tokens);
        equal(&rt, error, StrikeError::NotQuiet { token: want });
    }
    Ok(())
}

#[test]
fn a_refused_event_comes_before_a_token_that_is_not_quiet(rt: HostRuntime) -> Result<(), Fail> {
    let day = Day::of(rt.alloc(), TWO_QUIET_MEMBERS)?;
    let mut events = events_of(rt.alloc(), &day.tape)?;
    events
        .push(Event::Tick {
            time: 86_400_000_000_000,
        })
        .expect(&rt, "memory");
    let error = refused(&rt, rt.alloc(), &events, 3, &[Token(*b"T1            ")]);
    let want = StrikeError::Refused {
        index: 4,
        error: PrepareError::BadTime,
    };
    equal(&rt, error, want);
    Ok(())
}
