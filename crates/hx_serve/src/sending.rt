//! How a datagram is sent.

use crate::backoff::Rest;
use hx_listener::Datagrams;
use std::io::ErrorKind;
use std::net::SocketAddr;
use std::time::Clock;

/// Sends a datagram, in at most `tries` attempts if the socket's buffer is full, and returns whether it went out.
pub fn send<T: Clock, D: Datagrams>(
    rt: &T,
    socket: &D,
    bytes: &[u8],
    to: SocketAddr,
    tries: u32,
) -> bool {
    let mut rest = Rest::new();
    for _ in 0..tries {
        match socket.send(bytes, to) {
            Ok(_) => return true,
            Err(error) => match error.kind() {
                ErrorKind::WouldBlock => rest.sleep(rt),
                // An answer to an earlier datagram: nobody listens there.
                ErrorKind::Interrupted | ErrorKind::ConnectionRefused => {}
                _ => return false,
            },
        }
    }
    false
}
