//! Where a day listens and sends.
ghost use Rattle.std.specs.Prelude.{◌≡◌, ◌↔◌, All, IsTrue, IsSome, IfSome};
ghost use Rattle.hx_listener.specs.Addresses.{IsFeed, IsLoopback, Names, Reaches};
ghost use Rattle.std.specs.declared.net.socket_addr.SocketAddr.{SocketAddr};

use std::net::{Ipv4Addr, SocketAddr};

/// The most addresses that the feed goes to.
pub const MOST_FEEDS: usize = 16;

/// Where a day listens and sends.
#[derive(Drop)]
pub struct Addresses {
    /// Where members connect.
    pub listen: SocketAddr,
    /// Where each packet of the feed goes: machines and multicast groups, 1 to 16 of them.
    pub feeds: Vec<SocketAddr>,
    /// Where requests for messages again come in.
    pub requests: SocketAddr,
    /// How many networks a packet to an IPv4 group passes (RFC 1112, Time To Live).
    pub ttl: u8,
}

impl Addresses {
    ghost use Rattle.hx_listener.specs.Addresses.{AreAddresses, AreLoopback};

    /// These addresses; none if a port is 0, if the feed goes nowhere or to more than 16 addresses, or if it would go
    /// to the port of requests.
    pub fn of(
        listen: SocketAddr,
        feeds: Vec<SocketAddr>,
        requests: SocketAddr,
        ttl: u8,
    ) -> Option<Addresses>
        ensures fits { IsSome result ↔ AreAddresses listen feeds.items requests }
        ensures same { IfSome result (λ a. (a.listen ≡ listen) × (a.feeds ≡ feeds)
            × (a.requests ≡ requests) × (a.ttl ≡ ttl)) }
    {
        if listen.port() == 0 || requests.port() == 0 {
            return None;
        }
        if feeds.is_empty() || feeds.len() > MOST_FEEDS || !are_feeds(&feeds, requests) {
            return None;
        }
        Some(Addresses {
            listen,
            feeds,
            requests,
            ttl,
        })
    }

    /// Whether no other machine sees anything of the day.
    pub fn are_loopback(&self) -> bool
        ensures { IsTrue result ↔ AreLoopback self.now.listen self.now.feeds.items self.now.requests }
    {
        is_loopback(self.listen) && is_loopback(self.requests) && all_loopback(&self.feeds)
    }
}

// Whether the feed may go to each of these.
fn are_feeds(feeds: &[SocketAddr], requests: SocketAddr) -> bool
    ensures { IsTrue result ↔ All (IsFeed requests) feeds.now }
{
    feeds
        .iter()
        .all(|feed| feed.port() != 0 && feed.port() != requests.port())
}

// Whether each of these is loopback.
fn all_loopback(feeds: &[SocketAddr]) -> bool
    ensures { IsTrue result ↔ All IsLoopback feeds.now }
{
    feeds.iter().all(|feed| is_loopback(*feed))
}

/// Whether no other machine sees what goes there: 127.0.0.0/8 and ::1.
pub fn is_loopback(address: SocketAddr) -> bool
    ensures { IsTrue result ↔ IsLoopback address }
{
    address.ip().is_loopback()
}

/// Whether a datagram gets there from a socket at this address.
pub fn reaches(from: SocketAddr, to: SocketAddr) -> bool
    ensures { IsTrue result ↔ Reaches from to }
{
    from.is_ipv4() == to.is_ipv4() && (!is_loopback(from) || is_loopback(to))
}

/// The address that a word names: a port alone is one of 127.0.0.1; else it is an address and a port, as
/// `10.0.0.5:9001` or `[fd00::5]:9001`.
pub fn address_of(word: &str) -> Option<SocketAddr>
    ensures named { IfSome result (Names word.now) }
    ensures all { (a : SocketAddr) → Names word.now a → IsSome result }
{
    if let Ok(port) = word.parse::<u16>() {
        return Some(SocketAddr::from((Ipv4Addr::new(127, 0, 0, 1), port)));
    }
    word.parse::<SocketAddr>().ok()
}
