//! The clients of the metrics: each has a connection of its own, and none can hold up another.

use crate::answering::MetricsService;
use crate::watched::Watched;
use http_server::{Config, Connection};
use http1::Limits;
use std::alloc::{AllocError, Global};
use std::hash::RandomState;
use std::io;
use std::io::{ErrorKind, Read};
use std::net::{Shutdown, TcpListener, TcpStream};
use std::time::{Clock, Duration, Instant};

// The most connections at a time. If one more comes, the oldest is closed.
const ROOM: usize = 16;

// A connection is closed this number of seconds after its last request.
const PATIENCE: u64 = 5;

// How often a connection is read and written in one look at most.
const TURNS: u32 = 16;

// The bytes after a last answer that are thrown away in one look.
const THROWN: usize = 4096;

// The limits of a connection.
const CONFIG: Config = Config {
    // A head, in bytes. Prometheus sends less than a thousand.
    limits: Limits {
        max_head_len: 8192,
        max_extensions_len: 1024,
        max_trailers_len: 1024,
    },
    // Nothing is done with a body.
    max_body_len: 1024,
    // While more bytes than this wait to be sent, no request is read.
    max_pending: 8192,
    read_size: 4096,
};

// The state of a connection.
#[derive(Clone, Copy, PartialEq, Eq)]
enum Stage {
    // It may ask.
    Asks,
    // It has got its last answer, and the end of the stream after it.
    Leaves,
    // It is closed.
    IsGone,
}

// A client.
#[derive(Drop)]
struct Client {
    stream: TcpStream,
    connection: Connection,
    // When it came, or when its last request was answered.
    since: Instant,
    stage: Stage,
}

// Whether something was moved; not if that would wait.
fn has_moved(moving: io::Result<usize>) -> io::Result<bool> {
    match moving {
        Ok(_) => Ok(true),
        Err(error) => match error.kind() {
            ErrorKind::WouldBlock | ErrorKind::TimedOut | ErrorKind::Interrupted => Ok(false),
            _ => Err(error),
        },
    }
}

impl Client {
    // Reads and writes once each, as far as that does not wait. Returns whether anything was moved.
    fn exchange<W: Watched>(&mut self, service: &mut MetricsService<'_, W>) -> io::Result<bool> {
        let mut moved = false;
        if self.connection.wants_read() {
            moved = has_moved(self.connection.read_from(&mut self.stream))?;
        }
        self.connection.advance(service);
        if self.connection.wants_write() {
            moved |= has_moved(self.connection.write_to(&mut self.stream))?;
        }
        Ok(moved)
    }

    // Reads, answers and writes, until there is nothing to move, or the connection has ended.
    fn converse<W: Watched>(&mut self, service: &mut MetricsService<'_, W>) -> io::Result<Stage> {
        for _ in 0..TURNS {
            let moved = self.exchange(service)?;
            if self.connection.is_done() {
                self.stream.shutdown(Shutdown::Write)?;
                return Ok(Stage::Leaves);
            }
            if !moved {
                break;
            }
        }
        Ok(Stage::Asks)
    }

    // Throws away what still comes: to close a line with unread bytes would take from the other
    // side what it has not read.
    fn leave(&mut self) -> Stage {
        let mut thrown = [0; THROWN];
        match self.stream.read(&mut thrown) {
            Ok(0) => Stage::IsGone,
            read => match has_moved(read) {
                Ok(_) => Stage::Leaves,
                Err(_) => Stage::IsGone,
            },
        }
    }

    // What becomes of it at this time.
    fn attend<W: Watched>(&mut self, alloc: Global, watched: &W, now: Instant) {
        let mut service = MetricsService::new(alloc, watched);
        self.stage = match self.stage {
            Stage::Asks => self.converse(&mut service).unwrap_or(Stage::IsGone),
            Stage::Leaves => self.leave(),
            Stage::IsGone => Stage::IsGone,
        };
        if service.is_read {
            self.since = now;
        }
        if now.saturating_duration_since(self.since) >= Duration::from_secs(PATIENCE) {
            self.stage = Stage::IsGone;
        }
    }
}

/// The clients, in the order in which they came.
#[derive(Drop)]
pub struct Clients {
    alloc: Global,
    keys: RandomState,
    clients: Vec<Client>,
}

impl Clients {
    /// No clients. The keys are secret: a peer chooses the names of its headers.
    pub fn new(alloc: Global, keys: RandomState) -> Result<Clients, AllocError> {
        Ok(Clients {
            alloc,
            keys,
            clients: Vec::with_capacity(alloc, ROOM)?,
        })
    }

    // Lets the first go.
    fn drop_first(&mut self) {
        if let Some(client) = self.clients.first_mut() {
            client.stage = Stage::IsGone;
        }
        self.let_go();
    }

    // Removes the clients that have ended.
    fn let_go(&mut self) {
        self.clients.retain(|client| client.stage != Stage::IsGone);
    }

    // Takes one in. If too many are there, the one that came first goes.
    fn enter(&mut self, stream: TcpStream, now: Instant) {
        if stream.set_nonblocking(true).is_err() {
            return;
        }
        if self.clients.len() >= ROOM {
            self.drop_first();
        }
        let _ = self.clients.push(Client {
            stream,
            connection: Connection::new(self.alloc, self.keys, CONFIG),
            since: now,
            stage: Stage::Asks,
        });
    }

    /// Accepts the clients that have come.
    pub fn welcome(&mut self, listener: &TcpListener, now: Instant) {
        for _ in 0..ROOM {
            let Ok((stream, _)) = listener.accept() else {
                return;
            };
            self.enter(stream, now);
        }
    }

    /// Answers all that was asked. Removes the clients that have ended, or asked nothing for too
    /// long.
    pub fn attend<W: Watched>(&mut self, watched: &W, now: Instant) {
        for client in self.clients.iter_mut() {
            client.attend(self.alloc, watched, now);
        }
        self.let_go();
    }
}
