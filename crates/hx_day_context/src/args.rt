//! What the command line asks of a server.
ghost use Rattle.std.specs.Prelude.{◌↔◌, ◌≡◌, IfOk, IfSome, IsSome};
ghost use Rattle.std.specs.Net.Socket.{socket_port};
ghost use Rattle.hx_listener.specs.Addresses.{AreLoopback, IsLoopback};
ghost use Rattle.hx_day_context.specs.Arguments.{AreInRange, AreWithin, IsWithin, most_answers, most_indices, whole_share};

use hx_listener::Addresses;
use std::alloc::{AllocError, Global};
use std::net::{Ipv4Addr, SocketAddr};

/// The addresses at which a server listens and sends, and its limits.
#[derive(Clone, Copy, Debug, PartialEq, Eq)]
pub struct ServeArgs {
    /// The TCP port of the members' sessions.
    pub port: u16,
    /// The UDP port that the packets of the feed go to.
    pub feed: u16,
    /// The UDP port on which requests for messages again come in.
    pub requests: u16,
    /// How many sessions there are, 1 to 63; of an open day how many may be logged in at a time, 1 to 1,000.
    pub sessions: u16,
    /// How many messages the log of the feed has room for, 1 to 1,000,000.
    pub capacity: u64,
    /// How many reads and how many turns of its output each session has, and how many reads the operator's input: 1 to
    /// 1,000,000,000.
    pub turns: u64,
    /// How many requests of one source are answered a second, 1 to 1,000,000; eight times that number are answered in
    /// all.
    pub answers: u32,
    /// For how much of the time, in percent, the market may pass over orders for one session, 1 to 100.
    pub share: u32,
    pub ghost in_range: { AreWithin most_indices port feed requests sessions capacity turns },
}

/// The arguments of an open day, which accepts connections all day.
#[derive(Clone, Copy, Debug, PartialEq, Eq)]
pub struct OpenArgs {
    /// How many seconds a connection has for its login.
    pub login_limit: u32,
    /// For how many seconds the end of the feed's session is sent, once a second.
    pub end: u32,
    /// How many connections of one address there may be, 1 to 1,000.
    pub connections_per_address: u32,
}

impl ServeArgs {
    ghost use Rattle.hx_day_context.specs.Given.{AreAtPorts, AreThese, usual_answers, usual_share};

    /// These arguments, or none if one of the numbers is out of its range, or the feed would go to the port of
    /// requests. 1,000 requests of a source are answered a second, and the market may pass over orders for one session
    /// for a tenth of the time.
    pub fn of(
        port: u16,
        feed: u16,
        requests: u16,
        sessions: u16,
        capacity: u64,
        turns: u64,
    ) -> Option<ServeArgs>
        ensures fits { IsSome result ↔ AreInRange port feed requests sessions capacity turns }
        ensures same { IfSome result
            (AreThese port feed requests sessions capacity turns usual_answers usual_share) }
    {
        if port == 0 || feed == 0 || requests == 0 || feed == requests {
            return None;
        }
        if sessions == 0 || sessions > 63 || capacity == 0 || capacity > 1_000_000 {
            return None;
        }
        if turns == 0 || turns > 1_000_000_000 {
            return None;
        }
        Some(ServeArgs {
            port,
            feed,
            requests,
            sessions,
            capacity,
            turns,
            answers: 1_000,
            share: 10,
        })
    }

    /// The same, but for how many requests of a source are answered a second; none if that is out of its range.
    pub fn with_answers(self, answers: u32) -> Option<ServeArgs>
        ensures fits { IsSome result ↔ IsWithin most_answers answers }
        ensures same { IfSome result (AreThese self.port self.feed self.requests self.sessions
            self.capacity self.turns answers self.share) }
    {
        if answers == 0 || answers > 1_000_000 {
            return None;
        }
        Some(ServeArgs {
            port: self.port,
            feed: self.feed,
            requests: self.requests,
            sessions: self.sessions,
            capacity: self.capacity,
            turns: self.turns,
            answers,
            share: self.share,
        })
    }

    /// The same, but for how much of the time the market may pass over orders for one session; none if that is out of
    /// its range.
    pub fn with_share(self, share: u32) -> Option<ServeArgs>
        ensures fits { IsSome result ↔ IsWithin whole_share share }
        ensures same { IfSome result (AreThese self.port self.feed self.requests self.sessions
            self.capacity self.turns self.answers share) }
    {
        if share == 0 || share > 100 {
            return None;
        }
        Some(ServeArgs {
            port: self.port,
            feed: self.feed,
            requests: self.requests,
            sessions: self.sessions,
            capacity: self.capacity,
            turns: self.turns,
            answers: self.answers,
            share,
        })
    }

    /// The same, but for how many sessions may be logged in at a time; none if that is out of its range.
    pub fn with_indices(self, indices: u16) -> Option<ServeArgs>
        ensures fits { IsSome result ↔ IsWithin most_indices indices }
        ensures same { IfSome result (AreThese self.port self.feed self.requests indices
            self.capacity self.turns self.answers self.share) }
    {
        if indices == 0 || indices > 1_000 {
            return None;
        }
        Some(ServeArgs {
            port: self.port,
            feed: self.feed,
            requests: self.requests,
            sessions: indices,
            capacity: self.capacity,
            turns: self.turns,
            answers: self.answers,
            share: self.share,
        })
    }

    /// Where a day of these arguments listens and sends: at 127.0.0.1.
    pub fn addresses(&self, alloc: Global) -> Result<Addresses, AllocError>
        ensures loopback { IfOk result (λ a. AreLoopback a.listen a.feeds.items a.requests) }
        ensures ports { IfOk result (AreAtPorts self.now.port self.now.feed self.now.requests) }
    {
        let mut feeds = Vec::new(alloc);
        feeds.push(at_loopback(self.feed))?;
        Ok(Addresses {
            listen: at_loopback(self.port),
            feeds,
            requests: at_loopback(self.requests),
            ttl: 1,
        })
    }
}

// A port of 127.0.0.1.
fn at_loopback(port: u16) -> SocketAddr
    ensures loopback { IsLoopback result }
    ensures port { socket_port result ≡ port }
{
    SocketAddr::from((Ipv4Addr::new(127, 0, 0, 1), port))
}
