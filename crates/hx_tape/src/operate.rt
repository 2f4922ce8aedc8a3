//! The command by which an operator speaks to a running server.

use crate::failure::Failure;
use clap::ArgMatches;
use hx_cli::RunError;
use hx_operator::operate;
use std::io;
use std::net::Net;

/// Says the words to the server whose operator's socket the command line names, and writes its answer. A refusal is
/// `Refused`, whose reason is written already.
pub fn operate_server<R: AllocGlobal + Print + Net>(
    rt: &R,
    matches: &ArgMatches<'_>,
) -> Result<(), Failure> {
    let Some(path) = matches.get_str("path") else {
        return Err(Failure::Run(RunError::CommandLine));
    };
    let words = matches.get_strs("words").unwrap_or(&[]);
    let mut output = io::writer(rt);
    if operate(rt, rt.alloc(), path, words, &mut output)? {
        return Ok(());
    }
    Err(Failure::Refused)
}
