//! A large day, of which another thread reads the lines ahead, and writes their output.

use super::day::{SETUP, day};
use super::{equal, holds};
use hx_replay::{Kind, TapeError, replay};
use hx_replay_parallel::replay_ahead;
use hx_testing::Day;
use hx_testing::halts::{BREAK_OF_BOTH_SIDES, HALTS_AND_BREAKS, HALTS_AT_THEIR_EDGES};
use hx_testing::lines::{first_lines, front, last_lines};
use hx_testing::memory::{After, Bad, Input, Output};
use hx_testing::setups::{setup_of, standard};
use std::alloc::Global;
use std::io::ErrorKind;
use std::process::Abort;
use std::sync::atomic::AtomicU64;
use std::test::Fail;
use std::thread::Threads;

#[test]
fn the_day_in_turns(rt: HostRuntime) -> Result<(), Fail> {
    let setup = setup_of(rt.alloc(), SETUP)?;
    let day = day(rt.alloc())?;
    let mut output = Vec::new(rt.alloc());
    let mut reader = day.tape.as_slice();
    let counts = replay_ahead(&rt, rt.alloc(), &setup, &mut reader, &mut output).expect(
        &rt, "a day",
    );
    equal(&rt, counts.events, 20_000);
    holds(&rt, output.as_slice() == day.output.as_slice());
    Ok(())
}

// The first 15,000 lines of the day, seven times, and then the whole day: 125,000 lines, of which one read takes some
// 45,000.
fn seven_times_and_whole<R: Abort>(rt: &R, alloc: Global, day: &Day) -> Vec<u8> {
    let most = first_lines(&day.tape, 15_000);
    let mut tape = Vec::new(alloc);
    for _ in 0..7 {
        put(rt, &mut tape, most);
    }
    put(rt, &mut tape, &day.tape);
    tape
}

fn put<R: Abort>(rt: &R, bytes: &mut Vec<u8>, others: &[u8]) {
    bytes.extend_from_slice(others).expect(rt, "more bytes");
}

// The reader gives as much as there is room for, three times and the last time less, and then ends. What is written is what
// is written line by line.
#[test]
fn pieces_that_fill_their_room(rt: HostRuntime) -> Result<(), Fail> {
    let setup = setup_of(rt.alloc(), SETUP)?;
    let day = day(rt.alloc())?;
    let tape = seven_times_and_whole(&rt, rt.alloc(), &day);
    let (mut outputs, mut output) = (Vec::new(rt.alloc()), Vec::new(rt.alloc()));
    replay(rt.alloc(), &setup, &mut tape.as_slice(), &mut outputs).expect(&rt, "a day");
    let mut reader = Input::new(&tape);
    let counts = replay_ahead(&rt, rt.alloc(), &setup, &mut reader, &mut output).expect(
        &rt, "a day",
    );
    equal(&rt, (counts.events, reader.calls), (125_000, 4));
    holds(&rt, output.as_slice() == outputs.as_slice());
    Ok(())
}

// The first read fills its buffer, and the second one fails. The output of the whole lines of the first one is written,
// and nothing more is read.
#[test]
fn a_second_read_that_fails(rt: HostRuntime) -> Result<(), Fail> {
    let setup = setup_of(rt.alloc(), SETUP)?;
    let day = day(rt.alloc())?;
    let tape = seven_times_and_whole(&rt, rt.alloc(), &day);
    let (mut outputs, mut output) = (Vec::new(rt.alloc()), Vec::new(rt.alloc()));
    let mut reader = Input {
        bad: Bad {
            call: 2,
            kind: Some(ErrorKind::BrokenPipe),
        },
        ..Input::new(&tape)
    };
    let ended = replay_ahead(&rt, rt.alloc(), &setup, &mut reader, &mut output);
    holds(&rt, matches!(ended, Err(TapeError::Read)));
    equal(&rt, reader.calls, 2);
    let read = tape.len().saturating_sub(reader.bytes.len());
    holds(&rt, read > 1 << 22);
    // It breaks off in a line, which has no output.
    let whole = replay(rt.alloc(), &setup, &mut front(&tape, read), &mut outputs);
    let is_bad = matches!(
        whole,
        Err(TapeError::Line {
            kind: Kind::Bad,
            ..
        })
    );
    holds(&rt, is_bad);
    holds(&rt, output.as_slice() == outputs.as_slice());
    Ok(())
}

// The first read gives 5,000 lines, which does not fill its buffer. The second one waits until all of their output is
// written.
#[test]
fn all_is_written_before_more_is_waited_for(rt: HostRuntime) -> Result<(), Fail> {
    let setup = setup_of(rt.alloc(), SETUP)?;
    let day = day(rt.alloc())?;
    let few = first_lines(&day.tape, 5_000);
    let (mut lines, mut outputs) = (few, Vec::new(rt.alloc()));
    replay(rt.alloc(), &setup, &mut lines, &mut outputs).expect(&rt, "a day");
    let written = AtomicU64::new(0);
    let mut reader = Input {
        after: After::Waits {
            count: &written,
            wanted: outputs.len() as u64,
            last: last_lines(&day.tape, 5_000),
        },
        ..Input::new(few)
    };
    let mut output = Output::new(rt.alloc(), &written);
    let counts = replay_ahead(&rt, rt.alloc(), &setup, &mut reader, &mut output).expect(
        &rt, "a day",
    );
    equal(&rt, counts.events, 20_000);
    holds(&rt, output.taken.as_slice() == day.output.as_slice());
    Ok(())
}

// After n lines of a long tape, in the middle of a turn, comes a line with this fault: the output of those lines is
// written, as it is line by line.
fn expect_stop<R: AllocGlobal + Abort + Threads>(
    rt: &R,
    lines: u64,
    bad: &[u8],
    want: Kind,
) -> Result<(), Fail> {
    let setup = setup_of(rt.alloc(), SETUP)?;
    let day = day(rt.alloc())?;
    let long = seven_times_and_whole(rt, rt.alloc(), &day);
    let mut front = first_lines(&long, lines);
    let mut tape = Vec::new(rt.alloc());
    put(rt, &mut tape, front);
    put(rt, &mut tape, bad);
    put(rt, &mut tape, &long);
    let (mut outputs, mut output) = (Vec::new(rt.alloc()), Vec::new(rt.alloc()));
    replay(rt.alloc(), &setup, &mut front, &mut outputs).expect(rt, "a day");
    match replay_ahead(rt, rt.alloc(), &setup, &mut tape.as_slice(), &mut output) {
        Err(TapeError::Line { line, kind }) => {
            equal(rt, (line, kind), (lines.saturating_add(1), want));
        }
        _ => panic!(rt; "the line behind those is at fault"),
    }
    holds(rt, output.as_slice() == outputs.as_slice());
    Ok(())
}

#[test]
fn a_line_that_is_none(rt: HostRuntime) -> Result<(), Fail> {
    expect_stop(&rt, 5_000, b"no line\n", Kind::Bad)
}

// A message that comes as the day is over.
#[test]
fn a_line_that_is_refused(rt: HostRuntime) -> Result<(), Fail> {
    expect_stop(&rt, 5_000, b"86400000000000 1 58\n", Kind::Time)
}

// The first read gives less than 60,000 lines, so the same two lines stand in what the second one gives.
#[test]
fn a_line_of_the_second_read_that_is_none(rt: HostRuntime) -> Result<(), Fail> {
    expect_stop(&rt, 60_000, b"no line\n", Kind::Bad)
}

#[test]
fn a_line_of_the_second_read_that_is_refused(rt: HostRuntime) -> Result<(), Fail> {
    expect_stop(&rt, 60_000, b"86400000000000 1 58\n", Kind::Time)
}

// Each write takes at least 65,536 bytes, and the fourth one fails.
#[test]
fn a_write_that_fails(rt: HostRuntime) -> Result<(), Fail> {
    let setup = setup_of(rt.alloc(), SETUP)?;
    let day = day(rt.alloc())?;
    let count = AtomicU64::new(0);
    let mut output = Output::new(rt.alloc(), &count);
    output.bad = Bad {
        call: 4,
        kind: None,
    };
    let mut reader = day.tape.as_slice();
    let ended = replay_ahead(&rt, rt.alloc(), &setup, &mut reader, &mut output);
    holds(&rt, matches!(ended, Err(TapeError::Write)));
    holds(&rt, output.taken.len() >= 3 * 65_536);
    holds(&rt, day.output.starts_with(&output.taken));
    Ok(())
}

// A tape after 20,000 ticks, which have no output with an empty book: it is long enough to be applied in turns.
fn after_ticks<R: Abort>(rt: &R, alloc: Global, tape: &[u8]) -> Vec<u8> {
    let mut text = Vec::new(alloc);
    for _ in 0..20_000 {
        put(rt, &mut text, b"1 0 4b\n");
    }
    put(rt, &mut text, tape);
    text
}

// A worked day after these ticks has the output that it has by itself.
fn expect_in_turns<R: AllocGlobal + Abort + Threads>(rt: &R, words: &str) -> Result<(), Fail> {
    let day = Day::of(rt.alloc(), words)?;
    let tape = after_ticks(rt, rt.alloc(), &day.tape);
    let setup = standard(rt.alloc()).expect(rt, "a setup");
    let mut output = Vec::new(rt.alloc());
    replay_ahead(rt, rt.alloc(), &setup, &mut tape.as_slice(), &mut output).expect(rt, "a day");
    holds(rt, output.as_slice() == day.output.as_slice());
    Ok(())
}

#[test]
fn days_of_halts_and_breaks_in_turns(rt: HostRuntime) -> Result<(), Fail> {
    expect_in_turns(&rt, HALTS_AND_BREAKS)?;
    expect_in_turns(&rt, HALTS_AT_THEIR_EDGES)?;
    expect_in_turns(&rt, BREAK_OF_BOTH_SIDES)
}
