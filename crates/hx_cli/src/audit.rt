//! The command that reports a day to an auditor.

use crate::fault::RunError;
use crate::members::Members;
use crate::progress::WatchedInput;
use crate::setups::{read_setup_text, setup_of};
use clap::ArgMatches;
use hx_replay::TapeError;
use hx_report::{Day, Document, audit, write_html, write_json, write_plain};
use std::alloc::Global;
use std::io::{Read, Write};
use std::rt::Files;
use std::thread::Threads;
use std::{fs, io};

// All of the input.
fn read_input<R: Input + Eprint + Files>(rt: &R, alloc: Global) -> Result<Vec<u8>, RunError> {
    let mut text = Vec::new(alloc);
    let mut input = WatchedInput::new(rt);
    let read = input.read_to_end(&mut text);
    input.end();
    match read {
        Ok(_) => Ok(text),
        Err(e) if e.kind() == io::ErrorKind::OutOfMemory => {
            Err(RunError::Tape(TapeError::NoMemory))
        }
        Err(_) => Err(RunError::Tape(TapeError::Read)),
    }
}

// Writes a text to standard output.
fn print_text<R: Print>(rt: &R, text: &str) -> Result<(), RunError> {
    match io::writer(rt).write_all(text.as_bytes()) {
        Ok(()) => Ok(()),
        Err(_) => Err(RunError::Tape(TapeError::Write)),
    }
}

// Writes a page to the file that the command line names, if it names one.
fn write_page<R: AllocGlobal + Files>(
    rt: &R,
    matches: &ArgMatches<'_>,
    document: &Document<'_>,
) -> Result<(), RunError> {
    let Some(file) = matches.get_str("html") else {
        return Ok(());
    };
    let page = write_html(rt.alloc(), document)?;
    match fs::write(rt, file, page.as_bytes()) {
        Ok(()) => Ok(()),
        Err(_) => Err(RunError::Tape(TapeError::Write)),
    }
}

// The day of the input.
fn read_day<R: AllocGlobal + Input + Eprint + Files>(
    rt: &R,
    setup: Option<&[u8]>,
) -> Result<Day, RunError> {
    let alloc = rt.alloc();
    let setup = setup_of(alloc, setup)?;
    let text = read_input(rt, alloc)?;
    Ok(Day::of(alloc, &setup, text)?)
}

/// Reports the day of the input.
pub fn audit_input<R: AllocGlobal + Input + Print + Eprint + Files + Threads + Sync>(
    rt: &R,
    matches: &ArgMatches<'_>,
) -> Result<(), RunError> {
    let alloc = rt.alloc();
    let setup = read_setup_text(rt, matches)?;
    let day = read_day(rt, setup.as_deref())?;
    let mut members = Members::new(rt);
    let report = audit(rt, alloc, &day, &mut members)?;
    let document = Document {
        report: &report,
        members: day.members(),
        has_setup: setup.is_some(),
    };
    write_page(rt, matches, &document)?;
    let text = if matches.get_flag("json") {
        write_json(alloc, &document)?
    } else {
        write_plain(alloc, &document)?
    };
    print_text(rt, &text)
}
