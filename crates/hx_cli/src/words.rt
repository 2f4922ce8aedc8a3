//! The words of the command line, and what they are answered if they name no command.

use crate::fault::RunError;
use clap::Error;
use clap::error::ErrorKind;
use hx_replay::TapeError;
use std::rt::Env;
use std::{env, io};

/// The words of the command line, with the program's name in front.
pub fn read_words<R: AllocGlobal + Env>(rt: &R) -> Result<Vec<String>, RunError> {
    let words = match env::args(rt) {
        Ok(words) => words,
        Err(e) if e.kind() == io::ErrorKind::OutOfMemory => {
            return Err(RunError::Tape(TapeError::NoMemory));
        }
        Err(_) => return Err(RunError::NoText),
    };
    Ok(words.collect(rt.alloc())?)
}

/// Prints what `clap` answers in place of matches, which may be the help that was asked for.
pub fn refuse<R: Print + Eprint>(rt: &R, error: &Error) -> Result<(), RunError> {
    if error.kind() == ErrorKind::OutOfMemory {
        return Err(RunError::Tape(TapeError::NoMemory));
    }
    let printed = error.print(rt);
    if error.use_stderr() {
        return Err(RunError::CommandLine);
    }
    match printed {
        Ok(()) => Ok(()),
        Err(_) => Err(RunError::Tape(TapeError::Write)),
    }
}
