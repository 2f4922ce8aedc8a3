//! Commands that are run again if they lack memory: what they wrote is a beginning, and the second run is whole.
//!
//! Here they have all the memory that they need. `tests/refusals` refuses each growth of these tests in turn.

use super::days::{Case, Command, DAYS};
use crate::tests::{equal, holds};
use hx_replay::{Counts, TapeError};
use std::alloc::Global;
use std::process::Abort;
use std::test::Fail;

// What a run wrote, and how it ended.
type Ended = (Vec<u8>, Result<Counts, TapeError>);

// A run, whose output has its room before, so that only the call itself grows.
fn run(alloc: Global, case: &Case) -> Result<Ended, Fail> {
    let mut output = Vec::with_capacity(alloc, case.whole.len())?;
    let mut reader = case.tape.as_slice();
    let result = case.run(alloc, &mut reader, &mut output)?;
    Ok((output, result))
}

fn expect_whole<R: Abort>(rt: &R, case: &Case, ended: &Ended) {
    equal(rt, ended.0.as_slice(), case.whole.as_slice());
    holds(rt, ended.1.is_ok());
}

// A run, and another one if the first lacked memory.
fn run_again<R: AllocGlobal + Abort>(rt: &R, case: &Case) -> Result<(), Fail> {
    let ended = run(rt.alloc(), case)?;
    if !matches!(ended.1, Err(TapeError::NoMemory)) {
        expect_whole(rt, case, &ended);
        return Ok(());
    }
    holds(rt, case.whole.starts_with(&ended.0));
    holds(rt, case.command == Command::Replay || ended.0.is_empty());
    expect_whole(rt, case, &run(rt.alloc(), case)?);
    Ok(())
}

#[test]
fn replays(rt: HostRuntime) -> Result<(), Fail> {
    for worked in &DAYS {
        run_again(&rt, &Case::of(rt.alloc(), Command::Replay, worked)?)?;
    }
    Ok(())
}

#[test]
fn strikes(rt: HostRuntime) -> Result<(), Fail> {
    for worked in &DAYS {
        run_again(&rt, &Case::of(rt.alloc(), Command::Strike, worked)?)?;
    }
    Ok(())
}
