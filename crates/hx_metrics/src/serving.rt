//! The page of a venue over sockets.

use crate::clients::Clients;
use crate::watched::Watched;
use std::alloc::Global;
use std::hash::RandomState;
use std::net::TcpListener;
use std::time::{Clock, Duration, Instant};
use std::{io, thread};

// The interval, in milliseconds, at which the connections are served.
const LOOK_AGAIN: u64 = 20;

/// Answers `GET /metrics` with the figures of a venue and `GET /health` with its health (HTTP/1.1,
/// RFC 9112), until its day is over, in the thread that calls. Fifty times a second it answers all
/// that was asked, and waits for nobody. At most 16 connections are there at a time: one more, and
/// the oldest is closed. Each is closed five seconds after its last request.
///
/// Errors: those of the listener and of memory, before anybody was answered, and
/// those of the clock. What is wrong with a connection ends that one alone.
pub fn serve_metrics<W: Watched, T: Clock>(
    rt: &T,
    alloc: Global,
    listener: TcpListener,
    watched: &W,
    keys: RandomState,
) -> io::Result<()> {
    listener.set_nonblocking(true)?;
    let mut clients = Clients::new(alloc, keys)?;
    for _ in 0..u64::MAX {
        if watched.is_over() {
            break;
        }
        let now = Instant::now(rt)?;
        clients.welcome(&listener, now);
        clients.attend(watched, now);
        thread::sleep(rt, Duration::from_millis(LOOK_AGAIN));
    }
    Ok(())
}
