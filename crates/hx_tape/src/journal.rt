//! The command over the journal of a day.

use crate::failure::Failure;
use clap::ArgMatches;
use hx_cli::RunError;
use hx_journal_tool::{cut_file, report_file, tape_file};
use std::rt::Files;
use std::{fs, io};

/// Reports how far a journal goes, or writes its history, or cuts it, as the command line asks.
pub fn journal_file<R: AllocGlobal + Print + Files<File = fs::File>>(
    rt: &R,
    matches: &ArgMatches<'_>,
) -> Result<(), Failure> {
    let Some(path) = matches.get_str("file") else {
        return Err(Failure::Run(RunError::CommandLine));
    };
    let mut writer = io::writer(rt);
    if matches.get_flag("tape") {
        tape_file(rt, path, &mut writer)?;
    } else if matches.get_flag("cut") {
        cut_file(rt, path, &mut writer)?;
    } else {
        report_file(rt, path, &mut writer)?;
    }
    Ok(())
}
