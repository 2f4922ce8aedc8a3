//! The command that shows a tape in words.

use crate::fault::RunError;
use crate::progress::WatchedInput;
use clap::ArgMatches;
use hx_replay::TapeError;
use hx_show::{Choice, show};
use hx_units::MemberNo;
use std::io;
use std::io::BufReader;
use std::rt::Files;

// How many bytes are read at once.
const BUFFER: usize = 1 << 16;

// The lines that the command line chooses.
fn choice_of(matches: &ArgMatches<'_>) -> Choice {
    if matches.get_flag("feed") {
        return Choice::Feed;
    }
    match matches.get_one::<u16>("member").and_then(MemberNo::of) {
        Some(member) => Choice::Member(member),
        None => Choice::All,
    }
}

/// Shows the input in words. Each line's words go out before the next line is read.
pub fn show_input<R: AllocGlobal + Input + Print + Eprint + Files>(
    rt: &R,
    matches: &ArgMatches<'_>,
) -> Result<(), RunError> {
    let alloc = rt.alloc();
    let Ok(mut reader) = BufReader::with_capacity(alloc, BUFFER, WatchedInput::new(rt)) else {
        return Err(RunError::Tape(TapeError::NoMemory));
    };
    let shown = show(alloc, &mut reader, &mut io::writer(rt), choice_of(matches));
    reader.into_inner().end();
    Ok(shown?)
}
