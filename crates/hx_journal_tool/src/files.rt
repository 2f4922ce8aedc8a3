//! Journals in files of the system.

use crate::cutting::cut_after;
use crate::fault::ToolError;
use crate::reporting::report;
use crate::taping::write_tape;
use hx_journal::{open_file, survey_of};
use std::fs;
use std::io::Write;
use std::rt::Files;

/// Writes how far the journal of a file goes: see `report`.
pub fn report_file<R: AllocGlobal + Files, W: Write>(
    rt: &R,
    path: &str,
    writer: &mut W,
) -> Result<(), ToolError> {
    let text = fs::read(rt, path)?;
    report(rt.alloc(), &text, writer)
}

/// Writes the history of the journal of a file as a tape: see `write_tape`.
pub fn tape_file<R: AllocGlobal + Files, W: Write>(
    rt: &R,
    path: &str,
    writer: &mut W,
) -> Result<(), ToolError> {
    let text = fs::read(rt, path)?;
    write_tape(rt.alloc(), &text, writer)
}

/// Cuts the journal of a file after its last whole block, if it is damaged or torn, and writes what
/// was cut: see `cut_after`. A file that is not there is not made.
pub fn cut_file<R: AllocGlobal + Files<File = fs::File>, W: Write>(
    rt: &R,
    path: &str,
    writer: &mut W,
) -> Result<(), ToolError> {
    let _there = fs::metadata(rt, path)?;
    let (mut file, text) = open_file(rt, path)?;
    let survey = survey_of(rt.alloc(), &text)?;
    let written = match cut_after(&mut file, &text, &survey)? {
        Some(cut) => writeln!(writer, "{cut}"),
        None => writeln!(writer, "nothing to cut"),
    };
    if written.is_err() || writer.flush().is_err() {
        return Err(ToolError::Write);
    }
    Ok(())
}
