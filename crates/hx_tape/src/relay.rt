//! The command that relays the feed of a day.

use crate::failure::Failure;
use clap::ArgMatches;
use hx_feed_clients::{RelayArgs, relay_feed};
use hx_listener::address_of;
use std::alloc::Global;
use std::net::{Net, SocketAddr};
use std::rt::Clock;

// The address that a flag has.
fn read(flag: &'static str, word: &str) -> Result<SocketAddr, Failure> {
    match address_of(word) {
        Some(address) if address.port() != 0 => Ok(address),
        _ => Err(Failure::NoAddress { flag }),
    }
}

// The addresses of a flag that is given several times.
fn read_all(
    alloc: Global,
    flag: &'static str,
    words: Option<&[&str]>,
) -> Result<Vec<SocketAddr>, Failure> {
    let mut addresses = Vec::new(alloc);
    for word in words.unwrap_or(&[]) {
        addresses.push(read(flag, word)?)?;
    }
    Ok(addresses)
}

/// Relays the feed of a day as the command line asks.
pub fn relay_day<R: AllocGlobal + Net + Clock>(
    rt: &R,
    matches: &ArgMatches<'_>,
) -> Result<(), Failure> {
    let alloc = rt.alloc();
    let requests = read_all(alloc, "--requests", matches.get_strs("requests"))?;
    let to = read_all(alloc, "--to", matches.get_strs("to"))?;
    let args = RelayArgs {
        feed: read("--feed", matches.get_str("feed").unwrap_or(""))?,
        requests: &requests,
        to: &to,
        answers: read("--answers", matches.get_str("answers").unwrap_or(""))?,
    };
    if relay_feed(rt, &args)? {
        Ok(())
    } else {
        Err(Failure::NoEnd)
    }
}
