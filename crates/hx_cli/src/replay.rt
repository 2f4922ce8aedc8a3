//! The command that replays a tape.

use crate::fault::RunError;
use crate::progress::WatchedInput;
use crate::setups::read_setup;
use clap::ArgMatches;
use hx_replay::{Counts, TapeError};
use hx_replay_parallel::replay_ahead;
use std::io;
use std::io::{BufWriter, Write};
use std::rt::Files;
use std::thread::Threads;

// How many bytes of output are written at once.
const BUFFER: usize = 1 << 16;

// The answer of a run whose output was written out in the end.
fn ended(run: Result<Counts, TapeError>, written: io::Result<()>) -> Result<(), RunError> {
    run?;
    match written {
        Ok(()) => Ok(()),
        Err(_) => Err(RunError::Tape(TapeError::Write)),
    }
}

/// Replays the input. What was written before a fault is written out as well.
pub fn replay_input<R: AllocGlobal + Input + Print + Eprint + Files + Threads + Sync>(
    rt: &R,
    matches: &ArgMatches<'_>,
) -> Result<(), RunError>
where
    R::Reader: Send,
{
    let alloc = rt.alloc();
    let setup = read_setup(rt, matches)?;
    let Ok(mut writer) = BufWriter::with_capacity(alloc, BUFFER, io::writer(rt)) else {
        return Err(RunError::Tape(TapeError::NoMemory));
    };
    let mut input = WatchedInput::new(rt);
    let run = replay_ahead(rt, alloc, &setup, &mut input, &mut writer);
    input.end();
    ended(run, writer.flush())
}
