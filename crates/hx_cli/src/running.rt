//! What is run for each command over tapes.

use crate::audit::audit_input;
use crate::completions::write_completions;
use crate::fault::RunError;
use crate::replay::replay_input;
use crate::show::show_input;
use crate::strike::strike_input;
use clap::ArgMatches;
use std::rt::Files;
use std::thread::Threads;

/// Runs the command over tapes that the command line names, or writes completions; `CommandLine` if it names none.
pub fn run_command<R: AllocGlobal + Input + Print + Eprint + Files + Threads + Sync>(
    rt: &R,
    matches: &ArgMatches<'_>,
) -> Result<(), RunError>
where
    R::Reader: Send,
{
    let (name, own) = matches.subcommand().unwrap_or(("", matches));
    match name {
        "replay" => replay_input(rt, own),
        "strike" => strike_input(rt, own),
        "show" => show_input(rt, own),
        "completions" => write_completions(rt, own),
        "audit" => audit_input(rt, own),
        _ => Err(RunError::CommandLine),
    }
}
