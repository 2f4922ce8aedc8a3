//! Tapes without the messages of a member's quiet chains.

use super::equal;
use super::replaying::{Replayed, expect_output, replayed};
use hx_replay::{Counts, Kind, TapeError};
use hx_strike::strike_tape;
use hx_testing::lines::first_lines;
use hx_testing::setups::standard;
use hx_testing::{Day, worked};
use hx_units::MemberNo;
use std::alloc::Global;
use std::io::{self, Read, Write};
use std::process::Abort;
use std::test::Fail;

// Strikes over the standard setup.
fn strike<R: Read, W: Write>(
    alloc: Global,
    reader: &mut R,
    writer: &mut W,
    number: u16,
) -> Result<Counts, TapeError> {
    let setup = standard(alloc)?;
    let Some(member) = MemberNo::of(number) else {
        return Err(TapeError::Turns);
    };
    strike_tape(alloc, &setup, reader, writer, member)
}

pub fn struck(alloc: Global, text: &[u8], number: u16) -> Replayed {
    let mut output = Vec::new(alloc);
    let mut reader = text;
    let result = strike(alloc, &mut reader, &mut output, number);
    (output, result)
}

// `events` lines stay of a text, and they are these.
pub fn expect_retained<R: Abort>(rt: &R, struck: Replayed, retained: &[u8], events: u64) {
    let (output, result) = struck;
    equal(rt, output.as_slice(), retained);
    let counts = result.expect(rt, "a strike");
    equal(
        rt,
        (counts.events, counts.feed, counts.replies),
        (events, 0, 0),
    );
}

// All lines stay.
fn expect_whole<R: AllocGlobal + Abort>(rt: &R, text: &[u8], number: u16, events: u64) {
    expect_retained(rt, struck(rt.alloc(), text, number), text, events);
}

// The first line goes, and with it the first output line alone.
fn expect_first_struck<R: AllocGlobal + Abort>(
    rt: &R,
    words: &str,
    events: u64,
) -> Result<(), Fail> {
    let day = Day::of(rt.alloc(), words)?;
    let left = day.without_first(rt.alloc())?;
    expect_retained(rt, struck(rt.alloc(), &day.tape, 1), &left.tape, events);
    expect_output(rt, &left, replayed(rt.alloc(), &left.tape));
    Ok(())
}

#[test]
fn hidden_then_displayed_leaves_the_second_line(rt: HostRuntime) -> Result<(), Fail> {
    expect_first_struck(&rt, worked::HIDDEN_THEN_DISPLAYED, 1)
}

#[test]
fn minimum_passed_over_leaves_the_others(rt: HostRuntime) -> Result<(), Fail> {
    expect_first_struck(&rt, worked::MINIMUM_PASSED_OVER, 2)
}

#[test]
fn chain_that_traded_stays(rt: HostRuntime) -> Result<(), Fail> {
    let day = Day::of(rt.alloc(), worked::CHAIN_THAT_TRADED)?;
    expect_whole(&rt, &day.tape, 1, 6);
    Ok(())
}

#[test]
fn chain_before_it_traded_goes(rt: HostRuntime) -> Result<(), Fail> {
    let day = Day::of(rt.alloc(), worked::CHAIN_THAT_TRADED)?;
    let text = first_lines(&day.tape, 4);
    expect_retained(&rt, struck(rt.alloc(), text, 1), b"", 0);
    Ok(())
}

#[test]
fn display_changes_stay(rt: HostRuntime) -> Result<(), Fail> {
    let day = Day::of(rt.alloc(), worked::DISPLAY_CHANGES)?;
    expect_whole(&rt, &day.tape, 1, 5);
    Ok(())
}

#[test]
fn first_display_change_stays(rt: HostRuntime) -> Result<(), Fail> {
    let day = Day::of(rt.alloc(), worked::DISPLAY_CHANGES)?;
    expect_whole(&rt, first_lines(&day.tape, 2), 1, 2);
    Ok(())
}

#[test]
fn other_members_keep_their_lines(rt: HostRuntime) -> Result<(), Fail> {
    let day = Day::of(rt.alloc(), worked::HIDDEN_THEN_DISPLAYED)?;
    expect_whole(&rt, &day.tape, 4095, 2);
    Ok(())
}

// The line after the tape of one displayed order is at fault, and nothing is written.
fn expect_fault<R: AllocGlobal + Abort>(rt: &R, text: &[u8], want: Kind) -> Result<(), Fail> {
    let day = Day::of(rt.alloc(), worked::ONE_DISPLAYED_ORDER)?;
    let mut output = Vec::new(rt.alloc());
    let mut reader = day.tape.as_slice().chain(text);
    match strike(rt.alloc(), &mut reader, &mut output, 1) {
        Err(TapeError::Line { line, kind }) => equal(rt, (line, kind), (2, want)),
        _ => panic!(rt; "the second line is at fault"),
    }
    equal(rt, output.len(), 0);
    Ok(())
}

#[test]
fn lines_at_fault(rt: HostRuntime) -> Result<(), Fail> {
    let cases: [(&[u8], Kind); 7] = [
        (b"20 1 zz\n", Kind::Bad),
        (b"5 0 5a\n", Kind::Bad),
        (b"20 1 00", Kind::Bad),
        (b"86400000000000 1 00\n", Kind::Time),
        (b"20 9 00\n", Kind::Member),
        (b"20 1 zz\n20 9 00\n", Kind::Bad),
        (b"20 9 00\n20 1 zz\n", Kind::Member),
    ];
    for (text, want) in cases {
        expect_fault(&rt, text, want)?;
    }
    Ok(())
}

/// Gives one text again and again, without an end.
#[derive(Drop)]
struct Endless<'a> {
    text: &'a [u8],
}

impl Read for Endless<'_> {
    fn read(&mut self, buf: &mut [u8]) -> io::Result<usize> {
        let count = self.text.len().min(buf.len());
        buf[..count].copy_from_slice(&self.text[..count]);
        Ok(count)
    }
}

// The first line of the endless text is bad, and the strike ends there.
fn expect_end<R: AllocGlobal + Abort>(rt: &R, text: &[u8]) {
    let mut output = Vec::new(rt.alloc());
    let mut reader = Endless { text };
    match strike(rt.alloc(), &mut reader, &mut output, 1) {
        Err(TapeError::Line { line, kind }) => equal(rt, (line, kind), (1, Kind::Bad)),
        _ => panic!(rt; "the first line is at fault"),
    }
    equal(rt, output.len(), 0);
}

#[test]
fn a_bad_line_ends_an_endless_tape(rt: HostRuntime) {
    expect_end(&rt, b"20 1 zz\n");
}

#[test]
fn bytes_without_a_line_feed_end(rt: HostRuntime) {
    expect_end(&rt, b"20 1 41");
}
