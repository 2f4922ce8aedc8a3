//! The sockets of a day.
ghost use Rattle.std.specs.Prelude.{◌≤◌, IfOk, length};

use crate::addresses::{Addresses, reaches};
use crate::connection::Connection;
use crate::fault::AcceptorsError;
use arrayvec::ArrayVec;
use hx_wake::Waker;
use std::alloc::Global;
use std::io;
use std::io::ErrorKind;
use std::net::{Ipv4Addr, Ipv6Addr, Net, SocketAddr, TcpListener, TcpStream, UdpSocket};
use std::time::Duration;

/// Datagrams that go out and come in, without waiting.
pub trait Datagrams {
    /// Sends a datagram, and returns how many of its bytes went out.
    fn send(&self, bytes: &[u8], to: SocketAddr) -> io::Result<usize>;

    /// The next datagram, as far as there is room for it, and who sent it.
    fn receive(&self, buffer: &mut [u8]) -> io::Result<(usize, SocketAddr)>
        ensures { IfOk result (λ r. r.0 ≤ length buffer.old) };

    /// Sleeps until a datagram has come, or the waker wakes, or this time is over: whether one has come. It may end
    /// before that.
    fn wait(&self, waker: &Waker, limit: Duration) -> bool;
}

impl Datagrams for UdpSocket {
    fn send(&self, bytes: &[u8], to: SocketAddr) -> io::Result<usize> {
        self.send_to(bytes, to)
    }

    fn receive(&self, buffer: &mut [u8]) -> io::Result<(usize, SocketAddr)> {
        self.recv_from(buffer)
    }

    fn wait(&self, waker: &Waker, limit: Duration) -> bool {
        waker.wait(self, limit)
    }
}

/// The socket on which requests come in and from which all is sent, and one of each family for the addresses that it
/// does not reach.
#[derive(Drop)]
pub struct Sockets {
    requests: UdpSocket,
    at: SocketAddr,
    ipv4: Option<UdpSocket>,
    ipv6: Option<UdpSocket>,
}

// A socket that waits for nothing.
fn bind_socket<T: Net>(rt: &T, at: SocketAddr) -> io::Result<UdpSocket> {
    let socket = UdpSocket::bind(rt, at)?;
    socket.set_nonblocking(true)?;
    Ok(socket)
}

// A socket at any address of a family, if one of these addresses is out of reach otherwise.
fn bind_beside<T: Net>(
    rt: &T,
    addresses: &Addresses,
    any: SocketAddr,
) -> io::Result<Option<UdpSocket>> {
    let at = addresses.requests;
    for to in &addresses.feeds {
        if to.is_ipv4() == any.is_ipv4() && !reaches(at, *to) {
            return Ok(Some(bind_socket(rt, any)?));
        }
    }
    Ok(None)
}

impl Sockets {
    /// Binds what is needed for these addresses.
    pub fn bind<T: Net>(rt: &T, addresses: &Addresses) -> io::Result<Sockets> {
        let any4 = SocketAddr::from((Ipv4Addr::UNSPECIFIED, 0));
        let any6 = SocketAddr::from((Ipv6Addr::UNSPECIFIED, 0));
        let sockets = Sockets {
            requests: bind_socket(rt, addresses.requests)?,
            at: addresses.requests,
            ipv4: bind_beside(rt, addresses, any4)?,
            ipv6: bind_beside(rt, addresses, any6)?,
        };
        sockets.set_ttl(addresses)?;
        Ok(sockets)
    }

    // Sets how far packets to IPv4 groups go, if any address is one.
    fn set_ttl(&self, addresses: &Addresses) -> io::Result<()> {
        for to in &addresses.feeds {
            if to.is_ipv4() && to.ip().is_multicast() {
                self.way_to(*to)
                    .set_multicast_ttl_v4(u32::from(addresses.ttl))?;
            }
        }
        Ok(())
    }

    // The socket that reaches an address.
    fn way_to(&self, to: SocketAddr) -> &UdpSocket {
        if reaches(self.at, to) {
            return &self.requests;
        }
        let beside = match to {
            SocketAddr::V4(_) => &self.ipv4,
            SocketAddr::V6(_) => &self.ipv6,
        };
        beside.as_ref().unwrap_or(&self.requests)
    }
}

impl Datagrams for Sockets {
    fn send(&self, bytes: &[u8], to: SocketAddr) -> io::Result<usize> {
        self.way_to(to).send_to(bytes, to)
    }

    fn receive(&self, buffer: &mut [u8]) -> io::Result<(usize, SocketAddr)> {
        self.requests.recv_from(buffer)
    }

    fn wait(&self, waker: &Waker, limit: Duration) -> bool {
        waker.wait(&self.requests, limit)
    }
}

/// What a day listens to: members who connect, and requests.
#[derive(Drop)]
pub struct Acceptors<D> {
    /// The socket that members connect to.
    pub listener: TcpListener,
    /// What sends the feed and answers requests.
    pub socket: D,
}

impl Acceptors<Sockets> {
    /// Listens at these addresses.
    pub fn open<T: Net<Listener = TcpListener, Stream = TcpStream>>(
        rt: &T,
        addresses: &Addresses,
    ) -> Result<Acceptors<Sockets>, AcceptorsError> {
        let listener = match TcpListener::bind(rt, addresses.listen) {
            Ok(listener) => listener,
            Err(error) => return Err(AcceptorsError::of(&error)),
        };
        match Sockets::bind(rt, addresses) {
            Ok(socket) => Ok(Acceptors { listener, socket }),
            Err(error) => Err(AcceptorsError::of(&error)),
        }
    }
}

/// Takes `count` connections. One that is gone before it is taken does not count.
pub fn take(
    alloc: Global,
    listener: &TcpListener,
    count: u16,
) -> Result<Vec<Connection>, AcceptorsError> {
    let mut connections = Vec::new(alloc);
    for _ in 0..u64::MAX {
        if connections.len() >= count as usize {
            break;
        }
        match listener.accept() {
            Ok((stream, from)) => {
                if let Ok(connection) = Connection::of(stream, from, ArrayVec::new()) {
                    connections.push(connection)?;
                }
            }
            Err(error) => match error.kind() {
                ErrorKind::Interrupted | ErrorKind::ConnectionAborted => {}
                _ => return Err(AcceptorsError::of(&error)),
            },
        }
    }
    Ok(connections)
}
