//! The command that writes how a shell completes the words of the program.

use crate::commands::Shell;
use crate::fault::RunError;
use clap::ArgMatches;
use hx_replay::TapeError;
use std::io;
use std::io::Write;

/// Writes what the shell that the command line names has to read.
pub fn write_completions<R: AllocGlobal + Print>(
    rt: &R,
    matches: &ArgMatches<'_>,
) -> Result<(), RunError> {
    let Some(shell) = matches.get_str("shell").and_then(Shell::of) else {
        return Err(RunError::CommandLine);
    };
    match io::writer(rt).write_all(shell.completions().as_bytes()) {
        Ok(()) => Ok(()),
        Err(_) => Err(RunError::Tape(TapeError::Write)),
    }
}
