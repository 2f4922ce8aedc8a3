//! The command that watches a feed.

use crate::failure::Failure;
use clap::ArgMatches;
use hx_cli::RunError;
use hx_feed_clients::{WatchArgs, watch, watch_on_page};
use hx_units::Symbol;
use std::hash::RandomState;
use std::io;
use std::net::{Ipv4Addr, Net, TcpListener, TcpStream};
use std::random::RandomSource;
use std::rt::Clock;
use std::sync::Wait;
use std::thread::Threads;

// The name of a stock, filled with spaces on the right; none if it has no or more than 8 bytes.
fn symbol_of(word: &str) -> Option<Symbol> {
    let mut name = [b' '; 8];
    let bytes = word.as_bytes();
    if bytes.is_empty() {
        return None;
    }
    name.get_mut(..bytes.len())?.copy_from_slice(bytes);
    Some(Symbol(name))
}

// The words of the command line, whose ranges `clap` has checked.
fn args_of(matches: &ArgMatches<'_>) -> Option<WatchArgs> {
    let stock = match matches.get_str("stock") {
        Some(word) => Some(symbol_of(word)?),
        None => None,
    };
    Some(WatchArgs {
        feed: matches.get_one::<u16>("feed")?,
        requests: matches.get_one::<u16>("requests")?,
        stock,
    })
}

// Watches a feed, and serves its page at this port besides.
fn watch_with_page<
    R: AllocGlobal
        + Print
        + Net<Listener = TcpListener, Stream = TcpStream>
        + Clock
        + RandomSource
        + Threads
        + Wait
        + Sync,
>(rt: &R, args: &WatchArgs, port: u16) -> Result<(), Failure> {
    let Ok(keys) = RandomState::new(rt) else {
        return Err(Failure::NoPage);
    };
    match TcpListener::bind(rt, (Ipv4Addr::new(127, 0, 0, 1), port)) {
        Ok(listener) => Ok(watch_on_page(rt, args, &mut io::writer(rt), listener, keys)?),
        Err(_) => Err(Failure::NoPage),
    }
}

/// Watches a feed, and writes what changes as it changes; and serves its web page, if the command
/// line has a port for it.
pub fn watch_feed<
    R: AllocGlobal
        + Print
        + Net<Listener = TcpListener, Stream = TcpStream>
        + Clock
        + RandomSource
        + Threads
        + Wait
        + Sync,
>(rt: &R, matches: &ArgMatches<'_>) -> Result<(), Failure> {
    let Some(args) = args_of(matches) else {
        return Err(Failure::Run(RunError::CommandLine));
    };
    match matches.get_one::<u16>("web") {
        Some(port) => watch_with_page(rt, &args, port),
        None => Ok(watch(rt, &args, &mut io::writer(rt))?),
    }
}
