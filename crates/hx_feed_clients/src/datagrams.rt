//! What every client of a feed does with its datagrams.

use hx_mold::{MoldPacket, decode_packet};
use std::io;
use std::io::ErrorKind;
use std::net::{SocketAddr, UdpSocket};
use std::time::{Clock, Instant};

/// The most bytes of a datagram.
pub const DATAGRAM: usize = 65_536;

/// How many messages ahead of a missing one are stored.
pub const AHEAD: usize = 65_536;

/// The time after which missing messages are requested again, in milliseconds.
pub const AGAIN: u64 = 20;

/// A socket or the clock could not be read.
#[derive(Clone, Copy)]
pub struct CannotRead;

/// The session of a datagram, if it is a packet.
pub fn session_of(datagram: &[u8]) -> Option<[u8; 10]> {
    match decode_packet(datagram)? {
        MoldPacket::Blocks { session, .. } => Some(session),
        MoldPacket::Heartbeat { session, .. } => Some(session),
        MoldPacket::EndOfSession { session, .. } => Some(session),
    }
}

// Whether an error of a socket that is read passes: nothing has come yet, or nobody listened at the address of an earlier
// request.
fn passes(error: &io::Error) -> bool {
    matches!(
        error.kind(),
        ErrorKind::WouldBlock
            | ErrorKind::TimedOut
            | ErrorKind::Interrupted
            | ErrorKind::ConnectionRefused
    )
}

/// The next datagram of a socket: its length, and the address of its sender; none if none has come in time.
pub fn receive(
    socket: &UdpSocket,
    buffer: &mut [u8],
) -> Result<Option<(usize, SocketAddr)>, CannotRead> {
    match socket.recv_from(buffer) {
        Ok(found) => Ok(Some(found)),
        Err(error) if passes(&error) => Ok(None),
        Err(_) => Err(CannotRead),
    }
}

/// The length of the next datagram of a socket; none if none has come in time.
pub fn hear(socket: &UdpSocket, buffer: &mut [u8]) -> Result<Option<usize>, CannotRead> {
    match receive(socket, buffer)? {
        Some((count, _)) => Ok(Some(count)),
        None => Ok(None),
    }
}

/// The time that has passed on the machine's clock.
pub fn now<R: Clock>(rt: &R) -> Result<Instant, CannotRead> {
    match Instant::now(rt) {
        Ok(now) => Ok(now),
        Err(_) => Err(CannotRead),
    }
}
