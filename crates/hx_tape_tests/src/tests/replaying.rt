//! Days as tapes, replayed over both books.

use super::equal;
use hx_book::ListBook;
use hx_replay::{Counts, Kind, TapeError, replay, replay_on};
use hx_testing::lines::count_lines;
use hx_testing::setups::{CLOSED, TWO_MESSAGES, setup_of, standard};
use hx_testing::{Day, worked};
use std::alloc::Global;
use std::io::{Read, Write};
use std::process::Abort;
use std::test::Fail;

// A replay over the standard setup, of which callers know nothing.
fn apply<R: Read, W: Write>(
    alloc: Global,
    reader: &mut R,
    writer: &mut W,
) -> Result<Counts, TapeError> {
    let setup = standard(alloc)?;
    replay(alloc, &setup, reader, writer)
}

// The same over a plain list of orders.
fn apply_on_list<R: Read, W: Write>(
    alloc: Global,
    reader: &mut R,
    writer: &mut W,
) -> Result<Counts, TapeError> {
    let setup = standard(alloc)?;
    replay_on(alloc, &setup, ListBook::new(alloc), reader, writer)
}

/// What a replay wrote, and how it ended.
pub type Replayed = (Vec<u8>, Result<Counts, TapeError>);

pub fn replayed(alloc: Global, text: &[u8]) -> Replayed {
    let mut output = Vec::new(alloc);
    let mut reader = text;
    let result = apply(alloc, &mut reader, &mut output);
    (output, result)
}

fn replayed_on_list(alloc: Global, text: &[u8]) -> Replayed {
    let mut output = Vec::new(alloc);
    let mut reader = text;
    let result = apply_on_list(alloc, &mut reader, &mut output);
    (output, result)
}

pub fn expect_output<R: Abort>(rt: &R, day: &Day, replayed: Replayed) {
    let (output, result) = replayed;
    equal(rt, output.as_slice(), day.output.as_slice());
    let counts = result.expect(rt, "a replay");
    equal(rt, counts.feed, count_lines(&day.output, b"F "));
    equal(rt, counts.replies, count_lines(&day.output, b"M "));
}

// A day over price levels, and over a plain list of orders.
pub fn expect_day<R: AllocGlobal + Abort>(rt: &R, day: &Day) {
    expect_output(rt, day, replayed(rt.alloc(), &day.tape));
    expect_output(rt, day, replayed_on_list(rt.alloc(), &day.tape));
}

// A day by this setup, over price levels.
fn replayed_by(alloc: Global, setup: &[u8], text: &[u8]) -> Result<Replayed, Fail> {
    let setup = setup_of(alloc, setup)?;
    let mut output = Vec::new(alloc);
    let mut reader = text;
    let result = replay(alloc, &setup, &mut reader, &mut output);
    Ok((output, result))
}

// The same over a plain list of orders.
fn replayed_by_on_list(alloc: Global, setup: &[u8], text: &[u8]) -> Result<Replayed, Fail> {
    let setup = setup_of(alloc, setup)?;
    let mut output = Vec::new(alloc);
    let mut reader = text;
    let book = ListBook::new(alloc);
    let result = replay_on(alloc, &setup, book, &mut reader, &mut output);
    Ok((output, result))
}

// A day that begins closed, over price levels, and over a plain list of orders.
fn expect_closed_day<R: AllocGlobal + Abort>(rt: &R, words: &str) -> Result<(), Fail> {
    let day = Day::of(rt.alloc(), words)?;
    expect_output(rt, &day, replayed_by(rt.alloc(), CLOSED, &day.tape)?);
    expect_output(
        rt,
        &day,
        replayed_by_on_list(rt.alloc(), CLOSED, &day.tape)?,
    );
    Ok(())
}

#[test]
fn days_that_begin_closed(rt: HostRuntime) -> Result<(), Fail> {
    for words in [worked::HOURS_OF_A_DAY, worked::AFTER_THE_MARKET_HOURS] {
        expect_closed_day(&rt, words)?;
    }
    Ok(())
}

#[test]
fn the_third_message_of_two(rt: HostRuntime) -> Result<(), Fail> {
    let day = Day::of(rt.alloc(), worked::LIMIT_OF_TWO_MESSAGES)?;
    let (output, result) = replayed_by(rt.alloc(), TWO_MESSAGES, &day.tape)?;
    equal(&rt, output.as_slice(), day.output.as_slice());
    match result {
        Err(TapeError::Line { line, kind }) => equal(&rt, (line, kind), (3, Kind::Limit)),
        _ => panic!(&rt; "the member may send two messages"),
    }
    Ok(())
}

#[test]
fn days_over_both_books(rt: HostRuntime) -> Result<(), Fail> {
    let days = [
        worked::ONE_DISPLAYED_ORDER,
        worked::HIDDEN_THEN_DISPLAYED,
        worked::DISPLAY_BEATS_TIME,
        worked::HIDDEN_EXECUTIONS_ON_BOTH_SIDES,
        worked::MINIMUM_PASSED_OVER,
        worked::MINIMUM_STAYS,
        worked::DISPLAYED_IMMEDIATE_OR_CANCEL,
        worked::TWO_LEVELS_TAKEN,
        worked::TIMES_GOING_BACK,
        worked::LIMITS_OF_FIELDS,
        worked::FAILED_REPLACE,
        worked::CHAIN_THAT_TRADED,
        worked::DISPLAY_CHANGES,
        worked::CANCELS,
        worked::REPLACES_THAT_TRADE,
        worked::TICKS,
        worked::REASONS,
        worked::SIDES_STOCKS_FIRMS,
        worked::LONGEST_LIVES,
        worked::REPLACES_OF_LIFE_AND_MINIMUM,
        worked::TWO_END_AT_ONE_TICK,
    ];
    for words in days {
        expect_day(&rt, &Day::of(rt.alloc(), words)?);
    }
    Ok(())
}

#[test]
fn minimum_passed_over_without_its_first_line(rt: HostRuntime) -> Result<(), Fail> {
    let day = Day::of(rt.alloc(), worked::MINIMUM_PASSED_OVER)?;
    expect_day(&rt, &day.without_first(rt.alloc())?);
    Ok(())
}

#[test]
fn empty_tape(rt: HostRuntime) {
    let (output, result) = replayed(rt.alloc(), b"");
    let counts = result.expect(&rt, "a replay");
    equal(&rt, output.len(), 0);
    equal(&rt, (counts.events, counts.feed, counts.replies), (0, 0, 0));
}

// A day, and its tape with more lines after it.
fn with_lines<R: AllocGlobal + Abort>(
    rt: &R,
    day: &str,
    text: &[u8],
) -> Result<(Day, Vec<u8>), Fail> {
    let day = Day::of(rt.alloc(), day)?;
    let mut tape = day.tape.clone().expect(rt, "memory");
    tape.extend_from_slice(text).expect(rt, "memory");
    Ok((day, tape))
}

// Two events are counted, and the output is that of the day.
fn expect_second_event<R: Abort>(rt: &R, day: &Day, replayed: Replayed) {
    let (output, result) = replayed;
    let counts = result.expect(rt, "a replay");
    equal(rt, counts.events, 2);
    equal(rt, output.as_slice(), day.output.as_slice());
}

#[test]
fn an_event_without_output(rt: HostRuntime) -> Result<(), Fail> {
    let (day, tape) = with_lines(&rt, worked::ONE_DISPLAYED_ORDER, b"20 1 00\n")?;
    expect_second_event(&rt, &day, replayed(rt.alloc(), &tape));
    expect_second_event(&rt, &day, replayed_on_list(rt.alloc(), &tape));
    Ok(())
}

// The second line is bad, after the output of the day.
fn expect_bad_line<R: Abort>(rt: &R, day: &Day, replayed: Replayed, want: Kind) {
    let (output, result) = replayed;
    match result {
        Err(TapeError::Line { line, kind }) => equal(rt, (line, kind), (2, want)),
        _ => panic!(rt; "the second line fails"),
    }
    equal(rt, output.as_slice(), day.output.as_slice());
}

// The line after the tape of one displayed order is bad, over either book.
pub fn expect_bad<R: AllocGlobal + Abort>(rt: &R, text: &[u8], want: Kind) -> Result<(), Fail> {
    let (day, tape) = with_lines(rt, worked::ONE_DISPLAYED_ORDER, text)?;
    expect_bad_line(rt, &day, replayed(rt.alloc(), &tape), want);
    expect_bad_line(rt, &day, replayed_on_list(rt.alloc(), &tape), want);
    Ok(())
}

#[test]
fn bad_lines(rt: HostRuntime) -> Result<(), Fail> {
    let cases: [(&[u8], Kind); 11] = [
        (b"20 1 zz\n", Kind::Bad),
        (b"020 1 00\n", Kind::Bad),
        (b"20 1 4F\n", Kind::Bad),
        (b"20 1 \n", Kind::Bad),
        (b"20 1 00", Kind::Bad),
        (b"5 0 5a\n", Kind::Bad),
        (b"5 0 4b4b\n", Kind::Bad),
        (b"86400000000000 1 00\n", Kind::Time),
        (b"86400000000000 9 00\n", Kind::Time),
        (b"20 9 00\n", Kind::Member),
        (b"20 9999 00\n", Kind::Member),
    ];
    for (text, want) in cases {
        expect_bad(&rt, text, want)?;
    }
    Ok(())
}

#[test]
fn member_at_limit(rt: HostRuntime) {
    let mut text = Vec::new(rt.alloc());
    for _ in 0..1001 {
        text.extend_from_slice(b"20 1 00\n").expect(&rt, "memory");
    }
    let (_, result) = replayed(rt.alloc(), &text);
    match result {
        Err(TapeError::Line { line, kind }) => equal(&rt, (line, kind), (1001, Kind::Limit)),
        _ => panic!(&rt; "the member may send 1,000 messages"),
    }
}

fn expect_text<R: AllocGlobal + Abort>(rt: &R, fault: TapeError, text: &str) {
    let outputs = format!(in rt.alloc(); "{fault}").expect(rt, "memory");
    equal(rt, outputs.as_str(), text);
}

#[test]
fn texts_of_faults(rt: HostRuntime) {
    let kinds = [
        (Kind::Bad, "line 7: bad line"),
        (Kind::Time, "line 7: bad time"),
        (Kind::Member, "line 7: no such member"),
        (Kind::Limit, "line 7: member at limit"),
    ];
    for (kind, text) in kinds {
        expect_text(&rt, TapeError::Line { line: 7, kind }, text);
    }
    expect_text(&rt, TapeError::NoMemory, "no memory");
    expect_text(&rt, TapeError::Read, "read failed");
    expect_text(&rt, TapeError::Write, "write failed");
    expect_text(&rt, TapeError::Turns, "too many reads");
}
