//! A connection before its login.

use crate::connection::{Connection, LOGIN, member_of};
use crate::left::Left;
use crate::source::source_of;
use arrayvec::ArrayVec;
use hx_members::Setup;
use std::io;
use std::io::{ErrorKind, Read};
use std::net::{IpAddr, SocketAddr, TcpStream};

// A login's length, of its type and its payload, and its type (SoupBinTCP 3.00, Login Request Packet).
const LOGIN_HEAD: [u8; 3] = [0, 47, b'L'];

/// What is known of a pending login's login.
#[derive(Clone, Copy, Debug, PartialEq, Eq)]
pub enum Login {
    /// It is not whole, or was not looked up.
    Unread,
    /// It is a member's.
    Known,
    /// It is nobody's.
    Unknown,
}

/// What has become of a pending login.
pub enum Stage {
    /// Its login is not whole.
    Waits,
    /// It is.
    IsReady,
    /// It is closed.
    Goes(Left),
}

/// A connection before its login.
#[derive(Drop)]
pub struct PendingLogin {
    stream: TcpStream,
    bytes: ArrayVec<u8, 49>,
    /// Its address.
    pub from: SocketAddr,
    /// The address that it counts for.
    pub source: IpAddr,
    /// When it came, in milliseconds since the acceptor was opened.
    pub came: u64,
    /// How many of its address waited when it came.
    pub beside: usize,
    /// What is known of its login.
    pub login: Login,
    /// From when on it is looked up, as far as is known.
    pub paused: u64,
}

impl PendingLogin {
    /// A pending login who has sent nothing yet.
    pub fn new(stream: TcpStream, from: SocketAddr, came: u64, beside: usize) -> PendingLogin {
        PendingLogin {
            stream,
            bytes: ArrayVec::new(),
            from,
            source: source_of(from.ip()),
            came,
            beside,
            login: Login::Unread,
            paused: 0,
        }
    }

    /// Reads what is there, up to a login's bytes.
    pub fn read(&mut self) -> Stage {
        let mut buffer = [0; LOGIN];
        let room = LOGIN - self.bytes.len();
        if room == 0 {
            return Stage::IsReady;
        }
        match self.stream.read(&mut buffer[..room]) {
            Ok(0) => Stage::Goes(Left::Gone),
            Ok(count) => {
                let _ = self.bytes.try_extend_from_slice(&buffer[..count]);
                self.stage()
            }
            Err(error) => match error.kind() {
                ErrorKind::WouldBlock | ErrorKind::TimedOut | ErrorKind::Interrupted => {
                    Stage::Waits
                }
                _ => Stage::Goes(Left::Gone),
            },
        }
    }

    // By the bytes that are there.
    fn stage(&self) -> Stage {
        let bytes = self.bytes.as_slice();
        let head = &bytes[..bytes.len().min(LOGIN_HEAD.len())];
        if !LOGIN_HEAD.starts_with(head) {
            return Stage::Goes(Left::NoLogin);
        }
        if bytes.len() < LOGIN {
            return Stage::Waits;
        }
        Stage::IsReady
    }

    /// Whether its login is to be looked up now.
    pub fn is_due(&self, now: u64) -> bool {
        self.login == Login::Unread && self.paused <= now
    }

    /// Looks whose login it is, once it is whole.
    pub fn look_up(&mut self, setup: &Setup) {
        self.login = match member_of(self.bytes.as_slice(), setup) {
            Some(_) => Login::Known,
            None => Login::Unknown,
        };
    }

    /// Why it is closed when its time is over.
    pub fn lateness(&self) -> Left {
        if self.bytes.len() < LOGIN {
            return Left::Late;
        }
        match self.login {
            Login::Unread => Left::Paused,
            Login::Known | Login::Unknown => Left::NoSlot,
        }
    }

    /// How soon it has to make room: never before others if it is a member's, else the sooner the more of its address
    /// waited when it came.
    pub fn weight(&self) -> usize {
        match self.login {
            Login::Known => 0,
            Login::Unread | Login::Unknown => self.beside.saturating_add(1),
        }
    }

    /// The connection that it becomes in a session slot.
    pub fn connection(self) -> io::Result<Connection> {
        let PendingLogin {
            stream,
            bytes,
            from,
            ..
        } = self;
        Connection::of(stream, from, bytes)
    }
}
