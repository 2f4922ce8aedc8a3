//! The clients that read the web page: each has a connection of its own, and none can hold up another.

use crate::answering::WebService;
use crate::browser::Browser;
use http_server::{Config, Connection, State};
use http1::Limits;
use hx_market_view::MarketView;
use std::alloc::{AllocError, Global};
use std::hash::RandomState;
use std::io;
use std::io::{ErrorKind, Read};
use std::net::{Shutdown, TcpListener, TcpStream};
use std::time::{Clock, Duration, Instant};

// At most this number of clients ask at a time. For one more the oldest of them is dropped.
const ASKERS: usize = 64;

// At most this number of browsers receive changes.
const BROWSERS: usize = 128;

// A connection is closed this time after its last request, in seconds.
const PATIENCE: u64 = 5;

// How often a connection is read and written in one look at most.
const TURNS: u32 = 4;

// In one look requests are answered for at most this time, in milliseconds.
const BUDGET: u64 = 5;

// At most this number of bytes that come after a last answer are discarded in one look.
const THROWN: usize = 4096;

// The limits of a connection.
const CONFIG: Config = Config {
    // A head, in bytes. Browsers send one or two thousand.
    limits: Limits {
        max_head_len: 8192,
        max_extensions_len: 1024,
        max_trailers_len: 1024,
    },
    // Nothing is done with a body.
    max_body_len: 1024,
    // While more bytes than this wait to be sent, no request is read.
    max_pending: 8192,
    read_size: 4096,
};

// The stage of a client.
#[derive(Clone, Copy, PartialEq, Eq)]
enum Stage {
    // It may ask.
    Asks,
    // It receives changes.
    Watches,
    // It has got its last answer, and its connection is shut down for writing.
    Leaves,
    // It is dropped.
    IsGone,
}

// A client that reads: it asks by the connection, until it receives changes as a browser.
#[derive(Drop)]
struct Client {
    stream: TcpStream,
    connection: Option<Connection>,
    browser: Option<Browser>,
    // When it came, or when its last request was answered.
    since: Instant,
    stage: Stage,
}

// Whether something was moved; not if that would wait.
fn has_moved(moving: io::Result<usize>) -> io::Result<bool> {
    match moving {
        Ok(_) => Ok(true),
        Err(error) => match error.kind() {
            ErrorKind::WouldBlock | ErrorKind::TimedOut | ErrorKind::Interrupted => Ok(false),
            _ => Err(error),
        },
    }
}

// Reads and writes once each, as far as that does not wait. Returns whether anything was moved.
fn exchange(
    stream: &mut TcpStream,
    connection: &mut Connection,
    service: &mut WebService<'_>,
) -> io::Result<bool> {
    let mut moved = false;
    if connection.wants_read() {
        moved = has_moved(connection.read_from(stream))?;
    }
    connection.advance(service);
    if connection.wants_write() {
        moved |= has_moved(connection.write_to(stream))?;
    }
    Ok(moved)
}

// Reads, answers and writes, until there is nothing to move, or the connection has ended.
fn converse(
    stream: &mut TcpStream,
    connection: &mut Connection,
    service: &mut WebService<'_>,
) -> io::Result<()> {
    for _ in 0..TURNS {
        let moved = exchange(stream, connection, service)?;
        if !moved || connection.state() != State::Open {
            break;
        }
    }
    Ok(())
}

// What becomes of one whose connection was answered.
fn after(stream: &mut TcpStream, connection: &Connection) -> Stage {
    if connection.state() == State::Upgraded {
        return Stage::Watches;
    }
    if !connection.is_done() {
        return Stage::Asks;
    }
    match stream.shutdown(Shutdown::Write) {
        Ok(()) => Stage::Leaves,
        Err(_) => Stage::IsGone,
    }
}

// Throws away what still comes: to close a line with unread bytes would take from the other side
// what it has not read.
fn leave(stream: &mut TcpStream) -> Stage {
    let mut thrown = [0; THROWN];
    match stream.read(&mut thrown) {
        Ok(0) => Stage::IsGone,
        read => match has_moved(read) {
            Ok(_) => Stage::Leaves,
            Err(_) => Stage::IsGone,
        },
    }
}

impl Client {
    fn is_browser(&self) -> bool {
        self.stage == Stage::Watches
    }

    fn is_gone(&self) -> bool {
        self.stage == Stage::IsGone
    }

    // Reads, answers and writes for a client that asks, and returns its next stage.
    fn reply(&mut self, service: &mut WebService<'_>) -> Stage {
        let Some(connection) = &mut self.connection else {
            return Stage::IsGone;
        };
        match converse(&mut self.stream, connection, service) {
            Ok(()) => after(&mut self.stream, connection),
            Err(_) => Stage::IsGone,
        }
    }

    // From now on the client receives changes.
    fn go_over(&mut self, alloc: Global, now: Instant) {
        if let Some(connection) = self.connection.take() {
            let (input, output) = connection.into_buffers();
            self.browser = Some(Browser::new(alloc, input, output, now));
        }
    }

    // Answers a client that asks.
    fn answer(&mut self, alloc: Global, market_view: &MarketView, now: Instant) {
        let mut service = WebService::new(alloc, market_view);
        self.stage = match self.stage {
            Stage::Asks => self.reply(&mut service),
            Stage::Leaves => leave(&mut self.stream),
            other => other,
        };
        if service.is_read {
            self.since = now;
        }
        if self.is_browser() {
            self.go_over(alloc, now);
        } else if now.saturating_duration_since(self.since) >= Duration::from_secs(PATIENCE) {
            self.stage = Stage::IsGone;
        }
    }

    // Sends changes to a client that watches.
    fn tell(&mut self, market_view: &MarketView, now: Instant) {
        if let Some(browser) = &mut self.browser {
            if !browser.attend(&mut self.stream, market_view, now) {
                self.stage = Stage::IsGone;
            }
        }
    }

    // Sends a client that watches that nothing more comes.
    fn end(&mut self, market_view: &MarketView) {
        if let Some(browser) = &mut self.browser {
            browser.end(market_view);
        }
    }

    // Whether something is left to send to it.
    fn is_owed(&self) -> bool {
        match (self.stage, &self.connection, &self.browser) {
            (Stage::Asks, Some(connection), _) => connection.wants_write(),
            (Stage::Watches, _, Some(browser)) => !browser.is_reported(),
            _ => false,
        }
    }
}

/// The clients that are there, the oldest first.
#[derive(Drop)]
pub struct Clients {
    alloc: Global,
    keys: RandomState,
    clients: Vec<Client>,
    // The client whose requests are answered next.
    turn: usize,
}

impl Clients {
    /// Nobody is there. The keys are secret: a peer chooses the names of its headers.
    pub fn new(alloc: Global, keys: RandomState) -> Result<Clients, AllocError> {
        Ok(Clients {
            alloc,
            keys,
            clients: Vec::with_capacity(alloc, ASKERS + BROWSERS)?,
            turn: 0,
        })
    }

    // How many ask.
    fn askers(&self) -> usize {
        let mut count: usize = 0;
        for client in self.clients.iter() {
            if !client.is_browser() {
                count = count.saturating_add(1);
            }
        }
        count
    }

    // Drops the oldest client that asks.
    fn drop_first(&mut self) {
        for client in self.clients.iter_mut() {
            if !client.is_browser() {
                client.stage = Stage::IsGone;
                break;
            }
        }
        self.clients.retain(|client| !client.is_gone());
    }

    // Takes one in. If there are too many, the oldest is dropped.
    fn enter(&mut self, stream: TcpStream, now: Instant) {
        if stream.set_nonblocking(true).is_err() || stream.set_nodelay(true).is_err() {
            return;
        }
        if self.askers() >= ASKERS {
            self.drop_first();
        }
        let _ = self.clients.push(Client {
            stream,
            connection: Some(Connection::new(self.alloc, self.keys, CONFIG)),
            browser: None,
            since: now,
            stage: Stage::Asks,
        });
    }

    /// Takes in the clients that have come.
    pub fn welcome(&mut self, listener: &TcpListener, now: Instant) {
        for _ in 0..ASKERS {
            let Ok((stream, _)) = listener.accept() else {
                return;
            };
            self.enter(stream, now);
        }
    }

    // Closes the youngest browsers, if there are too many.
    fn make_room(&mut self) {
        let mut count: usize = 0;
        self.clients.retain(|client| {
            if client.is_browser() {
                count = count.saturating_add(1);
            }
            !client.is_gone() && (count <= BROWSERS || !client.is_browser())
        });
    }

    /// Sends each browser what has changed.
    pub fn tell(&mut self, market_view: &MarketView, now: Instant) {
        for client in self.clients.iter_mut() {
            client.tell(market_view, now);
        }
    }

    /// Answers requests, one client after the other, for a short time; the first client that is not served is the first
    /// next time. Drops the clients that have ended, or that asked nothing for too long.
    pub fn answer<T: Clock>(&mut self, rt: &T, market_view: &MarketView, now: Instant) {
        let count = self.clients.len();
        for _ in 0..count {
            if self.turn >= count {
                self.turn = 0;
            }
            if let Some(client) = self.clients.get_mut(self.turn) {
                if !client.is_browser() {
                    client.answer(self.alloc, market_view, now);
                }
            }
            self.turn += 1;
            if has_run_out(rt, now) {
                break;
            }
        }
        self.make_room();
    }

    /// Sends all that nothing more comes.
    pub fn end(&mut self, market_view: &MarketView) {
        for client in self.clients.iter_mut() {
            client.end(market_view);
        }
    }

    /// Whether somebody is owed something.
    pub fn are_owed(&self) -> bool {
        for client in self.clients.iter() {
            if client.is_owed() {
                return true;
            }
        }
        false
    }
}

// Whether the time for answers has run out.
fn has_run_out<T: Clock>(rt: &T, since: Instant) -> bool {
    match Instant::now(rt) {
        Ok(now) => now.saturating_duration_since(since) >= Duration::from_millis(BUDGET),
        Err(_) => true,
    }
}
