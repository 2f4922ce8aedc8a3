//! The sockets of a relay.

use crate::Relay;
use crate::datagrams::{CannotRead, hear, receive};
use std::io;
use std::net::{Net, SocketAddr, UdpSocket};
use std::time::Duration;

// The longest wait for a datagram of the feed, in milliseconds.
const WAIT: u64 = 1;

// The largest number of pending requests that are answered before the feed is read again.
const MOST_ANSWERS: usize = 64;

/// The sockets of the feed and of requests.
#[derive(Drop)]
pub(crate) struct Lines {
    feed: UdpSocket,
    answers: UdpSocket,
}

impl Lines {
    /// Binds both.
    pub(crate) fn open<R: Net>(rt: &R, feed: SocketAddr, answers: SocketAddr) -> io::Result<Lines> {
        let feed = UdpSocket::bind(rt, feed)?;
        feed.set_read_timeout(Some(Duration::from_millis(WAIT)))?;
        let answers = UdpSocket::bind(rt, answers)?;
        answers.set_nonblocking(true)?;
        Ok(Lines { feed, answers })
    }

    /// The length of the next datagram of the feed; none if none has come for a moment.
    pub(crate) fn hear(&self, buffer: &mut [u8]) -> Result<Option<usize>, CannotRead> {
        hear(&self.feed, buffer)
    }

    /// Sends a datagram of the feed, or a request. If it cannot be sent it is lost, as any datagram may be.
    pub(crate) fn send(&self, bytes: &[u8], to: SocketAddr) {
        let _sent = self.feed.send_to(bytes, to);
    }

    /// Answers requests that have come, some at most. An answer that cannot be sent is lost.
    pub(crate) fn answer(&self, relay: &mut Relay, buffer: &mut [u8]) -> Result<(), CannotRead> {
        for _ in 0..MOST_ANSWERS {
            let Some((count, from)) = receive(&self.answers, buffer)? else {
                return Ok(());
            };
            if let Some(request) = buffer.get(..count)
                && let Some(packet) = relay.answer(request)
            {
                let _sent = self.answers.send_to(packet.as_slice(), from);
            }
        }
        Ok(())
    }
}
