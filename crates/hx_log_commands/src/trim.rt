//! The command that trims the log of a day up to what its copies have.

use crate::fault::LogCommandError;
use crate::nodes::{copies_of, nodes_of};
use clap::ArgMatches;
use hx_day_log::DayLogError;
use hx_etcd::Trimmed;
use hx_etcd_log::{AskError, Copies, Nodes, trim_index};
use std::alloc::Global;
use std::net::{Net, TcpStream};
use std::rt::Clock;
use std::thread;
use std::time::Duration;

// The interval, in milliseconds, at which the log is trimmed.
const TRIM_AGAIN: u64 = 1_000;

// The most trims.
const MOST_TRIMS: u64 = 1_000_000_000_000;

// The numbers of copies, with commas between.
fn numbers_of(alloc: Global, text: &str) -> Result<Vec<u64>, LogCommandError> {
    let mut numbers = Vec::new(alloc);
    for word in text.split(',') {
        match word.parse::<u64>() {
            Ok(number) if number > 0 => numbers.push(number)?,
            _ => return Err(LogCommandError::NoCopies),
        }
    }
    Ok(numbers)
}

// Trims the log up to what these copies have, if each of them has shown enough, and frees what that took.
fn trim_after<N: Nodes>(
    alloc: Global,
    copies: &mut Copies<N>,
    numbers: &[u64],
    stay: u64,
) -> Result<(), AskError> {
    let mut counts = Vec::new(alloc);
    for number in numbers {
        if counts.push(copies.seen(*number)?).is_err() {
            return Err(AskError::Unsent);
        }
    }
    if let Some(index) = trim_index(&counts, stay) {
        if let Trimmed::Done { revision } = copies.trim(index)? {
            copies.compact(revision);
        }
    }
    Ok(())
}

/// Deletes from the log of a day what each of its copies has, but the last records of that; once, or once a second.
/// While no node answers it goes on.
///
/// Errors: a word that is no number of a copy; if it is done once, no node answered.
pub fn trim_log<R: AllocGlobal + Net<Stream = TcpStream> + Clock>(
    rt: &R,
    matches: &ArgMatches<'_>,
) -> Result<(), LogCommandError> {
    let alloc = rt.alloc();
    let nodes = nodes_of(alloc, matches.get_str("log").unwrap_or(""))?;
    let numbers = numbers_of(alloc, matches.get_str("copies").unwrap_or(""))?;
    let stay = matches.get_one::<u64>("stay").unwrap_or(u64::MAX);
    let mut copies = copies_of(rt, &nodes)?;
    let is_once = matches.get_flag("once");
    for _ in 0..MOST_TRIMS {
        let outcome = trim_after(alloc, &mut copies, &numbers, stay);
        if is_once {
            return outcome.map_err(|_| LogCommandError::Log(DayLogError::Unreachable));
        }
        thread::sleep(rt, Duration::from_millis(TRIM_AGAIN));
    }
    Ok(())
}
