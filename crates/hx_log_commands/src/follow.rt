//! The command that follows the log of a day.

use crate::fault::LogCommandError;
use crate::nodes::{copied_log_of, nodes_of};
use clap::ArgMatches;
use hx_day_log::{DayLogError, News, write_on};
use hx_fenced_log::Follower;
use std::net::{Net, TcpStream};
use std::rt::{Clock, Files};
use std::time::Duration;
use std::{fs, io, thread};

// The interval, in milliseconds, at which the log is read.
const READ_AGAIN: u64 = 20;

// The most reads of the log.
const MOST_READS: u64 = 1_000_000_000_000;

// A follower writes nothing to the log.
const NO_WRITER: u64 = 0;

/// Writes the tape of the log of a day, begun with a copy if there is one; once, or on and on.
pub fn follow_log<
    R: AllocGlobal + Print + Files<File = fs::File> + Net<Stream = TcpStream> + Clock,
>(rt: &R, matches: &ArgMatches<'_>) -> Result<(), LogCommandError> {
    let alloc = rt.alloc();
    let nodes = nodes_of(alloc, matches.get_str("log").unwrap_or(""))?;
    let log = copied_log_of(rt, &nodes, matches.get_str("from"))?;
    let mut follower = Follower::new(log, NO_WRITER);
    let mut output = io::writer(rt);
    let is_once = matches.get_flag("once");
    for _ in 0..MOST_READS {
        match write_on(alloc, &mut follower, &mut output)? {
            News::Some => {}
            News::None if is_once => return Ok(()),
            News::Unreachable if is_once => return Err(LogCommandError::Log(
                DayLogError::Unreachable,
            )),
            News::None | News::Unreachable => {
                thread::sleep(rt, Duration::from_millis(READ_AGAIN));
            }
        }
    }
    Ok(())
}
