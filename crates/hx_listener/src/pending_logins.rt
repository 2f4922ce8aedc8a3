//! Connections that have sent their login and wait for a session slot.
ghost use Rattle.std.specs.Prelude.{◌≡◌, ◌+◌, ◌<◌, ◌^◌, ◌↔◌, IsNone, IsSome, IsTrue};
ghost use Rattle.hx_listener.specs.Promises.{Promises, Keeps};

use crate::connection::Connection;
use crate::source::source_of;
use std::alloc::Global;
use std::marker::Model;
use std::net::{IpAddr, SocketAddr};
use std::sync::{Condvar, Mutex, Wait};

// A connection that went to a session slot: its address, the address that it counts for, and whether its login is a
// member's.
// a member's.
#[derive(Clone, Copy, Drop)]
struct Client {
    from: SocketAddr,
    source: IpAddr,
    is_known: bool,
}

// Connections that wait for session slots, and session slots that wait for connections. Besides, all connections that
// are here or in session slots.
#[derive(Drop)]
struct Waiting {
    connections: Vec<Connection>,
    clients: Vec<Client>,
    slots: u64,
    closed: bool,
}

// No session slot is promised to two connections.
impl Model for Waiting {
    ghost use Rattle.std.specs.Prelude.{◌≤◌, length};
    ghost use Rattle.hx_listener.specs.Promises.{Lobbied};

    ghost Value = { Lobbied };

    ghost view = { λ w. record { connections = length w.connections.items; slots = w.slots } };

    ghost invariant = { λ w. length w.connections.items ≤ w.slots };
}

impl Waiting {
    // Whether a waiting slot is promised to no connection.
    fn has_slot(&self) -> bool
        ensures { IsTrue result ↔ self.now.connections < self.now.slots }
    {
        (self.connections.len() as u64) < self.slots
    }

    // Promises a session slot to a connection. Gives the connection back if no slot waits, or there is no memory.
    fn promise(&mut self, client: Client, connection: Connection) -> Option<Connection>
        ensures ok { IsNone result → Promises self.old self.new }
        ensures back { IsSome result → self.new ≡ self.old }
    {
        if !self.has_slot() || self.clients.push(client).is_err() {
            return Some(connection);
        }
        if let Err(error) = self.connections.push(connection) {
            let _ = self.clients.pop();
            return Some(error.value);
        }
        None
    }

    // A session slot begins to wait.
    fn wait(&mut self)
        ensures connections { self.new.connections ≡ self.old.connections }
        ensures slots { self.old.slots + 1 < 2 ^ 64 → self.new.slots ≡ self.old.slots + 1 }
    {
        self.slots = self.slots.saturating_add(1);
    }

    // Gives a connection to a slot that has waited, if there is one.
    fn keep(&mut self) -> Option<Connection>
        ensures keeps { Keeps self.old self.new }
        ensures given { IsSome result ↔ 0 < self.old.connections }
    {
        let connection = self.connections.pop();
        self.slots = self.slots.saturating_sub(1);
        connection
    }

    // A connection has left its session slot.
    fn forget(&mut self, from: SocketAddr)
        ensures { self.new ≡ self.old }
    {
        if let Some(slot) = self.clients.iter().position(|client| client.from == from)
            && slot < self.clients.len()
        {
            self.clients.remove(slot);
        }
    }
}

/// Hands connections to session slots. It holds no more connections than there are slots that wait.
#[derive(Drop)]
pub struct PendingLogins {
    waiting: Mutex<Waiting>,
    // Notified when a connection comes, and when the pending logins are closed.
    came: Condvar,
}

impl PendingLogins {
    /// No connection waits.
    pub fn new(alloc: Global) -> PendingLogins {
        PendingLogins {
            waiting: Mutex::new(Waiting {
                connections: Vec::new(alloc),
                clients: Vec::new(alloc),
                slots: 0,
                closed: false,
            }),
            came: Condvar::new(),
        }
    }

    /// Whether a session slot waits for a connection.
    pub fn has_slot(&self, rt: &impl Wait) -> bool {
        self.waiting.lock(rt).has_slot()
    }

    /// Whether a session slot waits for a connection whose login is nobody's: at most one such connection is in a slot.
    pub fn has_slot_for_unknown(&self, rt: &impl Wait) -> bool {
        let waiting = self.waiting.lock(rt);
        waiting.has_slot() && waiting.clients.iter().all(|client| client.is_known)
    }

    /// How many connections that count for an address are here or in session slots.
    pub fn inside(&self, rt: &impl Wait, source: IpAddr) -> usize {
        let waiting = self.waiting.lock(rt);
        waiting
            .clients
            .iter()
            .filter(|client| client.source == source)
            .count()
    }

    /// Gives a connection to a session slot. Gives it back if every waiting slot is promised to another one, or if
    /// there is no memory.
    pub fn enter(
        &self,
        rt: &impl Wait,
        connection: Connection,
        is_known: bool,
    ) -> Option<Connection> {
        let from = connection.from;
        let client = Client {
            from,
            source: source_of(from.ip()),
            is_known,
        };
        let back = self.waiting.lock(rt).promise(client, connection);
        self.came.notify_one();
        back
    }

    /// The session of a connection has ended.
    pub fn leave(&self, rt: &impl Wait, from: SocketAddr) {
        self.waiting.lock(rt).forget(from);
    }

    /// The next connection, once there is one; none once the pending logins is closed.
    pub fn take(&self, rt: &impl Wait) -> Option<Connection> {
        let mut waiting = self.waiting.lock(rt);
        waiting.wait();
        self.came
            .wait_while(rt, waiting, |waiting| {
                waiting.connections.is_empty() && !waiting.closed
            })
            .keep()
    }

    /// From now on no session slot waits any more.
    pub fn close(&self, rt: &impl Wait) {
        let mut waiting = self.waiting.lock(rt);
        waiting.closed = true;
        drop(waiting);
        self.came.notify_all();
    }
}
