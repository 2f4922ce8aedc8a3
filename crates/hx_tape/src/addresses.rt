//! Where the command line says that a day listens and sends.

use crate::failure::Failure;
use clap::ArgMatches;
use hx_cli::RunError;
use hx_listener::{Addresses, MOST_FEEDS, address_of};
use std::alloc::Global;
use std::net::{Ipv4Addr, SocketAddr};

// The address of a flag: a port of 127.0.0.1, or in an open day an address.
fn read(flag: &'static str, word: &str, is_open: bool) -> Result<SocketAddr, Failure> {
    match address_of(word) {
        Some(address) if address.port() != 0 && (is_open || word.parse::<u16>().is_ok()) => {
            Ok(address)
        }
        _ => Err(Failure::NoAddress { flag }),
    }
}

// Where members connect.
fn listen_of(matches: &ArgMatches<'_>, is_open: bool) -> Result<SocketAddr, Failure> {
    if let Some(word) = matches.get_str("listen") {
        return read("--listen", word, is_open);
    }
    match matches.get_one::<u16>("port") {
        Some(port) => Ok(SocketAddr::from((Ipv4Addr::new(127, 0, 0, 1), port))),
        None => Err(Failure::Run(RunError::CommandLine)),
    }
}

// Where the feed goes: to one address, or in an open day to several.
fn feeds_of(
    alloc: Global,
    matches: &ArgMatches<'_>,
    is_open: bool,
) -> Result<Vec<SocketAddr>, Failure> {
    let mut feeds = Vec::new(alloc);
    for word in matches.get_strs("feed").unwrap_or(&[]) {
        feeds.push(read("--feed", word, is_open)?)?;
    }
    if feeds.len() > MOST_FEEDS || (feeds.len() > 1 && !is_open) {
        return Err(Failure::ManyFeeds);
    }
    Ok(feeds)
}

/// Where the command line says that a day listens and sends.
pub fn addresses_of(alloc: Global, matches: &ArgMatches<'_>) -> Result<Addresses, Failure> {
    let is_open = matches.get_flag("open");
    let listen = listen_of(matches, is_open)?;
    let feeds = feeds_of(alloc, matches, is_open)?;
    let requests = read(
        "--requests",
        matches.get_str("requests").unwrap_or(""),
        is_open,
    )?;
    let ttl = matches.get_one::<u8>("ttl").unwrap_or(1);
    Addresses::of(listen, feeds, requests, ttl).ok_or(Failure::SamePorts)
}
