//! The setup of a day.

use crate::fault::RunError;
use clap::ArgMatches;
use hx_members::Setup;
use hx_replay::TapeError;
use std::alloc::Global;
use std::rt::Files;
use std::{fs, io};

/// The text of the setup that the command line names; none if it names no file.
pub fn read_setup_text<R: AllocGlobal + Files>(
    rt: &R,
    matches: &ArgMatches<'_>,
) -> Result<Option<Vec<u8>>, RunError> {
    let Some(file) = matches.get_str("setup") else {
        return Ok(None);
    };
    match fs::read(rt, file) {
        Ok(text) => Ok(Some(text)),
        Err(e) if e.kind() == io::ErrorKind::OutOfMemory => {
            Err(RunError::Tape(TapeError::NoMemory))
        }
        Err(_) => Err(RunError::Tape(TapeError::Read)),
    }
}

/// The setup of a text, or the standard one without a text.
pub fn setup_of(alloc: Global, text: Option<&[u8]>) -> Result<Setup, RunError> {
    let Some(text) = text else {
        return Ok(Setup::standard(alloc)?);
    };
    match Setup::read(alloc, text) {
        Ok(setup) => Ok(setup),
        Err(error) => Err(RunError::Setup(error)),
    }
}

/// The setup that the command line names, or the standard one.
pub fn read_setup<R: AllocGlobal + Files>(
    rt: &R,
    matches: &ArgMatches<'_>,
) -> Result<Setup, RunError> {
    let text = read_setup_text(rt, matches)?;
    setup_of(rt.alloc(), text.as_deref())
}
