//! Sources of bytes.

use crate::waker::Waker;
use libc::net;
use libc::types::pollfd;
use std::net::{TcpStream, UdpSocket};
use std::os::fd::AsRawFd;
use std::time::Duration;

/// A source of bytes, on which a thread sleeps together with a waker.
pub trait Source {
    /// Sleeps until a read would not wait, or the waker wakes, or this time is over. Returns whether a read would not
    /// wait. It may end before that.
    fn wait(&self, waker: &Waker, limit: Duration) -> bool;

    /// Whether one write of a few kilobytes to the sender of these bytes would not wait now; false if that is not
    /// known.
    fn takes_at_once(&self) -> bool {
        false
    }
}

impl Source for TcpStream {
    fn wait(&self, waker: &Waker, limit: Duration) -> bool {
        waker.wait(self, limit)
    }

    fn takes_at_once(&self) -> bool {
        let mut wanted = [pollfd {
            fd: self.as_raw_fd(),
            events: net::POLLOUT,
            revents: 0,
        }];
        net::poll(&mut wanted, 0);
        wanted[0].revents == net::POLLOUT
    }
}

impl Source for UdpSocket {
    fn wait(&self, waker: &Waker, limit: Duration) -> bool {
        waker.wait(self, limit)
    }
}
