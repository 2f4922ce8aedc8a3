//! Connections that have come and are not taken yet: the system queues them.

use libc::net;
use libc::types::pollfd;
use std::net::TcpListener;
use std::os::fd::AsRawFd;
use std::thread;
use std::time::{Clock, Duration};

// The number of connections that may wait, if the system allows it: a connection after them is tried again only after a
// second.
const MOST: i32 = 4_096;

/// What there is to be taken.
#[derive(Clone, Copy, Debug, PartialEq, Eq)]
pub enum Queue {
    /// There may be more connections.
    Full,
    /// There are none.
    Empty,
    /// None can be taken now.
    Stuck,
}

/// Makes room for connections that come at once. If the system does not allow it, the number that may wait stays.
pub fn make_room(listener: &TcpListener) {
    net::listen(listener.as_raw_fd(), MOST);
}

/// Waits for a connection for `limit` milliseconds at most, and not at all if there may be one.
pub fn await_next<T: Clock>(rt: &T, listener: &TcpListener, queue: Queue, limit: u16) {
    let mut wanted = [pollfd {
        fd: listener.as_raw_fd(),
        events: net::POLLIN,
        revents: 0,
    }];
    let waited = match queue {
        Queue::Full => true,
        Queue::Empty => net::poll(&mut wanted, i32::from(limit)) >= 0,
        Queue::Stuck => false,
    };
    if !waited {
        thread::sleep(rt, Duration::from_millis(u64::from(limit)));
    }
}
