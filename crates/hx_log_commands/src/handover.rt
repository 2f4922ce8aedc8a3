//! The command by which an operator has a standby take over.

use crate::fault::LogCommandError;
use crate::leaving::OPERATOR;
use crate::nodes::{nodes_of, words_of};
use clap::ArgMatches;
use hx_day_log::DayLogError;
use std::net::{Net, TcpStream};

/// Tells the standbys that this writer resigns. The word stands: a server that stands by later takes over from this
/// writer, too.
///
/// Errors: no node has taken the word.
pub fn hand_over<R: AllocGlobal + Net<Stream = TcpStream>>(
    rt: &R,
    matches: &ArgMatches<'_>,
) -> Result<(), LogCommandError> {
    let alloc = rt.alloc();
    let nodes = nodes_of(alloc, matches.get_str("log").unwrap_or(""))?;
    let writer = matches.get_one::<u64>("writer").unwrap_or(0);
    let word = format!(in alloc; "{writer}")?;
    if words_of(rt, &nodes)?.show(OPERATOR, word.as_bytes()) {
        Ok(())
    } else {
        Err(LogCommandError::Log(DayLogError::Unreachable))
    }
}
