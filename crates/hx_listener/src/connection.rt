//! A member's connection.

use arrayvec::ArrayVec;
use hx_members::Setup;
use hx_soup::decode_login;
use hx_units::MemberNo;
use hx_wake::{Source, Waker};
use std::io;
use std::io::{ErrorKind, Read, Write};
use std::net::{Shutdown, SocketAddr, TcpStream};
use std::time::Duration;

// Before a member's login its input is waited for in steps of this number of milliseconds: the day may end meanwhile.
const READ_LIMIT: u64 = 50;

// The session of a member who reads nothing for this number of seconds is ended.
const WRITE_LIMIT: u64 = 10;

// At its end a connection is read at most `LAST_READS` times; at most `LAST_WAITS` of these reads may wait in vain.
const LAST_READS: u32 = 1_000;

const LAST_WAITS: u32 = 10;

/// The bytes of a login packet: its length, its type, and 46 of payload.
pub const LOGIN: usize = 49;

const HEADER: usize = 3;

/// The member whose login packet these bytes are.
pub fn member_of(bytes: &[u8], setup: &Setup) -> Option<MemberNo> {
    let login = decode_login(bytes.get(HEADER..)?)?;
    setup.login(&login.user, &login.password)
}

/// The input of a session. It stores the bytes of the login, some of which the acceptor may have read.
#[derive(Drop)]
pub struct Inlet {
    stream: TcpStream,
    login: ArrayVec<u8, 49>,
    // How many of them the session has taken.
    taken: usize,
}

impl Inlet {
    /// The member whose login these bytes are.
    pub fn member(&self, setup: &Setup) -> Option<MemberNo> {
        member_of(self.login.as_slice(), setup)
    }
}

impl Read for Inlet {
    fn read(&mut self, buffer: &mut [u8]) -> io::Result<usize> {
        if self.taken < self.login.len() {
            let ahead = &self.login.as_slice()[self.taken..];
            let count = ahead.len().min(buffer.len());
            buffer[..count].copy_from_slice(&ahead[..count]);
            self.taken += count;
            return Ok(count);
        }
        let count = self.stream.read(buffer)?;
        let room = LOGIN - self.login.len();
        let _ = self.login.try_extend_from_slice(&buffer[..count.min(room)]);
        self.taken = self.login.len();
        Ok(count)
    }
}

impl Source for Inlet {
    fn wait(&self, waker: &Waker, limit: Duration) -> bool {
        self.taken < self.login.len() || waker.wait(&self.stream, limit)
    }

    fn takes_at_once(&self) -> bool {
        self.stream.takes_at_once()
    }
}

/// The output of a session. To flush it ends the connection, which a session does once, at its end (lingering close):
/// the member learns that nothing more comes, and what the member still sends is read and thrown away for a while,
/// since closing a line with unread bytes would take from the member what was not yet read.
#[derive(Drop)]
pub struct Outlet {
    stream: TcpStream,
}

impl Write for Outlet {
    fn write(&mut self, bytes: &[u8]) -> io::Result<usize> {
        self.stream.write(bytes)
    }

    fn flush(&mut self) -> io::Result<()> {
        self.stream.shutdown(Shutdown::Write)?;
        let mut waits = 0;
        let mut buffer = [0; 4096];
        for _ in 0..LAST_READS {
            match self.stream.read(&mut buffer) {
                Ok(0) => break,
                Ok(_) => {}
                Err(error) => match error.kind() {
                    ErrorKind::Interrupted => {}
                    ErrorKind::WouldBlock | ErrorKind::TimedOut if waits < LAST_WAITS => waits += 1,
                    _ => break,
                },
            }
        }
        self.stream.shutdown(Shutdown::Both)
    }
}

/// Both sides of a member's connection.
#[derive(Drop)]
pub struct Connection {
    /// What the member sends.
    pub inlet: Inlet,
    /// What goes to the member.
    pub outlet: Outlet,
    /// The member's address.
    pub from: SocketAddr,
}

impl Connection {
    /// A connection of which these bytes, the first ones, were read already.
    pub fn of(
        stream: TcpStream,
        from: SocketAddr,
        login: ArrayVec<u8, 49>,
    ) -> io::Result<Connection> {
        stream.set_nonblocking(false)?;
        stream.set_nodelay(true)?;
        stream.set_read_timeout(Some(Duration::from_millis(READ_LIMIT)))?;
        stream.set_write_timeout(Some(Duration::from_secs(WRITE_LIMIT)))?;
        let other = stream.try_clone()?;
        Ok(Connection {
            inlet: Inlet {
                stream,
                login,
                taken: 0,
            },
            outlet: Outlet { stream: other },
            from,
        })
    }
}
