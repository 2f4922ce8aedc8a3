//! The day without quiet chains: of one member, and of all.

use super::day::{BEFORE_QUIET, QUIET_OF_ALL, QUIET_OF_THIRD, SETUP, day};
use super::{equal, holds};
use hx_replay::replay;
use hx_strike::{strike_all_tape, strike_tape};
use hx_testing::Day;
use hx_testing::lines::{first_lines, last_lines, lines_that};
use hx_testing::setups::setup_of;
use hx_units::MemberNo;
use std::alloc::Global;
use std::process::Abort;
use std::test::Fail;

// The tape without its `quiet` lines of quiet chains.
fn without_quiet<R: Abort>(rt: &R, alloc: Global, tape: &[u8], quiet: u64) -> Vec<u8> {
    let mut left = Vec::from_slice(alloc, first_lines(tape, BEFORE_QUIET)).expect(rt, "a front");
    let others = last_lines(tape, BEFORE_QUIET.saturating_add(quiet));
    left.extend_from_slice(others).expect(rt, "the others");
    left
}

// The lines that a replay of this tape writes, and that begin so or do not, are those of the day's output.
fn expect_lines<R: AllocGlobal + Abort>(
    rt: &R,
    day: &Day,
    tape: &[u8],
    beginning: &[u8],
    begin: bool,
) -> Result<(), Fail> {
    let alloc = rt.alloc();
    let setup = setup_of(alloc, SETUP)?;
    let mut output = Vec::new(alloc);
    let mut reader = tape;
    replay(alloc, &setup, &mut reader, &mut output).expect(rt, "a day");
    let lines = lines_that(alloc, &output, beginning, begin).expect(rt, "lines");
    let outputs = lines_that(alloc, &day.output, beginning, begin).expect(rt, "lines");
    holds(rt, lines.as_slice() == outputs.as_slice());
    Ok(())
}

#[test]
fn the_hidden_chains_of_a_member(rt: HostRuntime) -> Result<(), Fail> {
    let alloc = rt.alloc();
    let setup = setup_of(alloc, SETUP)?;
    let day = day(alloc)?;
    let member = MemberNo::of(3).expect(&rt, "a number of a member");
    let mut left = Vec::new(alloc);
    let mut reader = day.tape.as_slice();
    let counts = strike_tape(alloc, &setup, &mut reader, &mut left, member).expect(&rt, "a tape");
    equal(&rt, counts.events, 20_000 - QUIET_OF_THIRD);
    let want = without_quiet(&rt, alloc, &day.tape, QUIET_OF_THIRD);
    holds(&rt, left.as_slice() == want.as_slice());
    // Nobody else sees that they are gone.
    expect_lines(&rt, &day, &left, b"M 3 ", false)
}

#[test]
fn the_quiet_chains_of_all(rt: HostRuntime) -> Result<(), Fail> {
    let alloc = rt.alloc();
    let setup = setup_of(alloc, SETUP)?;
    let day = day(alloc)?;
    let mut left = Vec::new(alloc);
    let mut reader = day.tape.as_slice();
    let counts = strike_all_tape(alloc, &setup, &mut reader, &mut left).expect(&rt, "a tape");
    equal(&rt, counts.events, 20_000 - QUIET_OF_ALL);
    let want = without_quiet(&rt, alloc, &day.tape, QUIET_OF_ALL);
    holds(&rt, left.as_slice() == want.as_slice());
    // The feed does not report that they are gone.
    expect_lines(&rt, &day, &left, b"F ", true)
}
