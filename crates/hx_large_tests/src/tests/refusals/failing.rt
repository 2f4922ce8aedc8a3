//! Each read and each write of a command goes wrong in turn, in each way.

use super::days::{Case, Command, DAYS};
use crate::tests::{equal, holds};
use hx_replay::{Counts, Kind, TapeError};
use hx_testing::lines::count_lines;
use hx_testing::memory::{Bad, Input, NONE_BAD, Output};
use std::alloc::Global;
use std::io::ErrorKind;
use std::process::Abort;
use std::sync::atomic::AtomicU64;
use std::test::Fail;

// How a call goes wrong: by an error, or it gives or takes nothing.
const WAYS: [Option<ErrorKind>; 7] = [
    Some(ErrorKind::Interrupted),
    Some(ErrorKind::WouldBlock),
    Some(ErrorKind::TimedOut),
    Some(ErrorKind::BrokenPipe),
    Some(ErrorKind::ConnectionReset),
    Some(ErrorKind::Other),
    None,
];

// More calls than any of these runs takes.
const MANY: u64 = 1000;

// How many bytes a call gives or takes at most: less than a line of an order.
const PIECE: usize = 100;

// What came of a run: what it wrote, how it ended, and how often it read and wrote.
#[derive(Drop)]
struct Ended {
    output: Vec<u8>,
    result: Result<Counts, TapeError>,
    reads: u64,
    writes: u64,
}

// A run with a read and a write that go wrong.
fn run(alloc: Global, case: &Case, read: Bad, write: Bad) -> Result<Ended, Fail> {
    let count = AtomicU64::new(0);
    let mut input = Input {
        most: PIECE,
        bad: read,
        ..Input::new(&case.tape)
    };
    let mut output = Output {
        most: PIECE,
        bad: write,
        ..Output::new(alloc, &count)
    };
    let result = case.run(alloc, &mut input, &mut output)?;
    let writes = output.calls;
    Ok(Ended {
        output: output.taken,
        result,
        reads: input.calls,
        writes,
    })
}

// All was written, and all was well.
fn expect_whole<R: Abort>(rt: &R, case: &Case, ended: &Ended) {
    equal(rt, ended.output.as_slice(), case.whole.as_slice());
    holds(rt, ended.result.is_ok());
}

// A replay has written a beginning of its output; what is struck is written only once all was read.
fn expect_beginning<R: Abort>(rt: &R, case: &Case, ended: &Ended) {
    holds(rt, case.whole.starts_with(&ended.output));
    holds(
        rt,
        case.command == Command::Replay || ended.output.is_empty(),
    );
}

// The tape ended after these bytes: well after a line; else the line after the whole ones is bad.
fn expect_cut<R: Abort>(rt: &R, case: &Case, front: &[u8], ended: &Ended) {
    if front.is_empty() || front.ends_with(b"\n") {
        holds(rt, ended.result.is_ok());
        return;
    }
    expect_beginning(rt, case, ended);
    match &ended.result {
        Err(TapeError::Line { line, kind }) => {
            let after = count_lines(front, b"").saturating_add(1);
            equal(rt, (*line, *kind), (after, Kind::Bad));
        }
        _ => panic!(rt; "the last line has no line feed"),
    }
}

// What a read that goes wrong after these bytes makes of a run.
fn expect_read<R: Abort>(rt: &R, case: &Case, way: Option<ErrorKind>, front: &[u8], ended: &Ended) {
    match way {
        Some(ErrorKind::Interrupted) => expect_whole(rt, case, ended),
        Some(_) => {
            holds(rt, matches!(ended.result, Err(TapeError::Read)));
            expect_beginning(rt, case, ended);
        }
        None => expect_cut(rt, case, front, ended),
    }
}

// Each read goes wrong in turn, until a run has fewer. How many went wrong.
fn fail_reads<R: AllocGlobal + Abort>(
    rt: &R,
    case: &Case,
    way: Option<ErrorKind>,
) -> Result<u64, Fail> {
    let mut front = 0;
    for call in 1..MANY {
        let ended = run(rt.alloc(), case, Bad { call, kind: way }, NONE_BAD)?;
        if ended.reads < call {
            expect_whole(rt, case, &ended);
            return Ok(call);
        }
        let given = front.min(case.tape.len());
        expect_read(rt, case, way, &case.tape[..given], &ended);
        front = front.saturating_add(PIECE);
    }
    Err("too many reads".into())
}

// What a write that goes wrong makes of a run.
fn expect_write<R: Abort>(rt: &R, case: &Case, way: Option<ErrorKind>, ended: &Ended) {
    if way == Some(ErrorKind::Interrupted) {
        expect_whole(rt, case, ended);
        return;
    }
    holds(rt, matches!(ended.result, Err(TapeError::Write)));
    holds(rt, ended.output.len() < case.whole.len());
    holds(rt, case.whole.starts_with(&ended.output));
}

// Each write goes wrong in turn, until a run has fewer. How many went wrong.
fn fail_writes<R: AllocGlobal + Abort>(
    rt: &R,
    case: &Case,
    way: Option<ErrorKind>,
) -> Result<u64, Fail> {
    for call in 1..MANY {
        let ended = run(rt.alloc(), case, NONE_BAD, Bad { call, kind: way })?;
        if ended.writes < call {
            expect_whole(rt, case, &ended);
            return Ok(call);
        }
        expect_write(rt, case, way, &ended);
    }
    Err("too many writes".into())
}

// A day takes some reads and some writes, and each goes wrong in each way.
fn fail_all<R: AllocGlobal + Abort>(rt: &R, case: &Case) -> Result<(), Fail> {
    for way in WAYS {
        let (reads, writes) = (fail_reads(rt, case, way)?, fail_writes(rt, case, way)?);
        holds(rt, reads > 4);
        holds(rt, writes > 3);
    }
    Ok(())
}

#[test]
fn each_call_of_a_replay(rt: HostRuntime) -> Result<(), Fail> {
    for worked in &DAYS {
        fail_all(&rt, &Case::of(rt.alloc(), Command::Replay, worked)?)?;
    }
    Ok(())
}

#[test]
fn each_call_of_a_strike(rt: HostRuntime) -> Result<(), Fail> {
    for worked in &DAYS {
        fail_all(&rt, &Case::of(rt.alloc(), Command::Strike, worked)?)?;
    }
    Ok(())
}
