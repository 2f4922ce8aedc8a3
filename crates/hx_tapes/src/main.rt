//! Replays a tape, writes it without quiet chains, shows it in words, or reports it to an auditor, from standard
//! input to standard output: the part of `hx_tape` that needs no sockets.
#![tactic(auto)]

use hx_cli::{RunError, read_words, refuse, run_command, tape_command};
use std::process::ExitCode;
use std::rt::{Env, Files};
use std::thread::Threads;

fn answer<R: AllocGlobal + Input + Print + Eprint + Env + Files + Threads + Sync>(
    rt: &R,
) -> Result<(), RunError>
where
    R::Reader: Send,
{
    let words = read_words(rt)?;
    match tape_command(rt.alloc())?.try_get_matches_from(words.as_slice()) {
        Ok(matches) => run_command(rt, &matches),
        Err(error) => refuse(rt, &error),
    }
}

fn main(rt: HostRuntime) -> ExitCode {
    match answer(&rt) {
        Ok(()) => ExitCode::SUCCESS,
        Err(error) => {
            if !matches!(error, RunError::CommandLine) {
                let _ = eprintln!(rt; "{error}");
            }
            ExitCode::from(error.status())
        }
    }
}
