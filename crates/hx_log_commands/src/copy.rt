//! The command that copies the log of a day.

use crate::copy_file::open_copy;
use crate::fault::LogCommandError;
use crate::nodes::{copies_of, log_of, nodes_of};
use clap::ArgMatches;
use hx_day_log::{DayLogError, News, copy_on};
use hx_etcd_log::{Copies, TcpNodes};
use std::net::{Net, TcpStream};
use std::rt::{Clock, Files};
use std::time::{Duration, Instant};
use std::{fs, thread};

// The interval, in milliseconds, at which the log is read.
const READ_AGAIN: u64 = 20;

// The most reads of the log.
const MOST_READS: u64 = 1_000_000_000_000;

// The shortest interval, in milliseconds, at which the copy shows what it has.
const SHOW_AGAIN: u64 = 500;

// What a copy has shown.
#[derive(Drop)]
struct Shown<'x, R> {
    rt: &'x R,
    copies: Copies<TcpNodes<'x, R>>,
    // The number of the copy.
    copy: u64,
    // How many records are on the disk, and how many were shown.
    synced: u64,
    shown: u64,
    // When a node was asked last.
    since: Option<Instant>,
}

impl<'x, R: AllocGlobal + Net<Stream = TcpStream> + Clock> Shown<'x, R> {
    // Syncs the file, which then has `count` records.
    fn sync(&mut self, file: &fs::File, count: u64) -> Result<(), LogCommandError> {
        if count > self.synced {
            if file.sync_data().is_err() {
                return Err(LogCommandError::Log(DayLogError::Write));
            }
            self.synced = count;
        }
        Ok(())
    }

    // Whether it is time to ask a node again.
    fn is_due(&self) -> bool {
        match &self.since {
            Some(since) => match since.elapsed(self.rt) {
                Ok(time) => time >= Duration::from_millis(SHOW_AGAIN),
                Err(_) => true,
            },
            None => true,
        }
    }

    // Shows what is on the disk, unless that is shown.
    fn show(&mut self) -> bool {
        if self.shown == self.synced {
            return true;
        }
        self.since = Instant::now(self.rt).ok();
        let is_shown = self.copies.show(self.copy, self.synced);
        if is_shown {
            self.shown = self.synced;
        }
        is_shown
    }
}

/// Copies the log of a day into a file, and shows in the etcd how many records are on the disk there; once, or on and
/// on.
///
/// Errors: those of the file, and of `copy_on`.
pub fn copy_log<R: AllocGlobal + Files<File = fs::File> + Net<Stream = TcpStream> + Clock>(
    rt: &R,
    matches: &ArgMatches<'_>,
) -> Result<(), LogCommandError> {
    let alloc = rt.alloc();
    let nodes = nodes_of(alloc, matches.get_str("log").unwrap_or(""))?;
    let mut log = log_of(rt, &nodes)?;
    let mut file = open_copy(rt, &nodes, matches.get_str("to").unwrap_or(""), &mut log)?;
    let mut next = log.len().saturating_add(1);
    let mut shown = Shown {
        rt,
        copies: copies_of(rt, &nodes)?,
        copy: matches.get_one::<u64>("as").unwrap_or(0),
        synced: 0,
        shown: 0,
        since: None,
    };
    let is_once = matches.get_flag("once");
    for _ in 0..MOST_READS {
        let news = copy_on(alloc, &mut log, &mut next, &mut file)?;
        shown.sync(&file, next.saturating_sub(1))?;
        if shown.is_due() {
            shown.show();
        }
        match news {
            News::Some => {}
            News::None if is_once && shown.show() => return Ok(()),
            News::None | News::Unreachable if is_once => {
                return Err(LogCommandError::Log(DayLogError::Unreachable));
            }
            News::None | News::Unreachable => {
                thread::sleep(rt, Duration::from_millis(READ_AGAIN));
            }
        }
    }
    Ok(())
}
