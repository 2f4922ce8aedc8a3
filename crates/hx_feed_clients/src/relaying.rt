//! A relay at work.

mod fault;
mod relay;
mod sockets;

use crate::datagrams::{AGAIN, AHEAD, DATAGRAM, now, session_of};
use crate::relaying::sockets::Lines;
pub use fault::RelayError;
use hx_mold::encode_request;
pub use relay::Relay;
use std::alloc::Global;
use std::net::{Net, SocketAddr};
use std::time::{Clock, Duration, Instant};

// A feed that is silent for this time, in seconds, is over.
const SILENCE: u64 = 30;

/// The addresses at which a relay hears, sends and answers.
#[derive(Clone, Copy)]
pub struct RelayArgs<'a> {
    /// The address to which the feed comes.
    pub feed: SocketAddr,
    /// The addresses at which it requests missing messages, one after the other.
    pub requests: &'a [SocketAddr],
    /// The address to which the feed goes on.
    pub to: &'a [SocketAddr],
    /// The address at which vendors ask it.
    pub answers: SocketAddr,
}

// A relay of a session that was heard of.
#[derive(Drop)]
struct Relaying {
    session: [u8; 10],
    relay: Relay,
    // When a packet of the session was heard last, and when something was asked for.
    heard: Instant,
    asked: Option<Instant>,
    // How often something was asked for.
    asks: usize,
}

impl Relaying {
    // Waits for the first packet, of whichever session: a relay of that.
    fn begin<R: Clock>(
        rt: &R,
        alloc: Global,
        lines: &Lines,
        buffer: &mut [u8],
        args: &RelayArgs<'_>,
    ) -> Result<Relaying, RelayError> {
        for _ in 0..u64::MAX {
            if let Some(count) = lines.hear(buffer)?
                && let Some(datagram) = buffer.get(..count)
                && let Some(session) = session_of(datagram)
            {
                let mut relaying = Relaying {
                    session,
                    relay: Relay::new(alloc, session, AHEAD)?,
                    heard: now(rt)?,
                    asked: None,
                    asks: 0,
                };
                relaying.take(lines, datagram, args)?;
                return Ok(relaying);
            }
        }
        Err(RelayError::Network)
    }

    // Sends a datagram on if it is a packet of the session, and retains its messages.
    fn take(
        &mut self,
        lines: &Lines,
        datagram: &[u8],
        args: &RelayArgs<'_>,
    ) -> Result<bool, RelayError> {
        if session_of(datagram) != Some(self.session) {
            return Ok(false);
        }
        for to in args.to {
            lines.send(datagram, *to);
        }
        self.relay.receive(datagram)?;
        Ok(true)
    }

    // Asks for what is missing, if that is due.
    fn ask(&mut self, lines: &Lines, args: &RelayArgs<'_>, now: Instant) {
        let Some(request) = self.relay.request() else {
            return;
        };
        if let Some(asked) = &self.asked
            && now.saturating_duration_since(*asked) < Duration::from_millis(AGAIN)
        {
            return;
        }
        self.asked = Some(now);
        let index = self.asks.checked_rem(args.requests.len()).unwrap_or(0);
        self.asks = self.asks.wrapping_add(1);
        if let Some(to) = args.requests.get(index) {
            lines.send(encode_request(request).as_slice(), *to);
        }
    }

    // Whether the feed has been silent for too long.
    fn is_over(&self, now: Instant) -> bool {
        now.saturating_duration_since(self.heard) >= Duration::from_secs(SILENCE)
    }

    // Relays until the feed has been silent for too long. Returns whether the session has ended and nothing is missing.
    fn go_on<R: Clock>(
        &mut self,
        rt: &R,
        lines: &Lines,
        buffer: &mut [u8],
        args: &RelayArgs<'_>,
    ) -> Result<bool, RelayError> {
        for _ in 0..u64::MAX {
            let time = now(rt)?;
            if self.is_over(time) {
                break;
            }
            self.ask(lines, args, time);
            lines.answer(&mut self.relay, buffer)?;
            if let Some(count) = lines.hear(buffer)?
                && let Some(datagram) = buffer.get(..count)
                && self.take(lines, datagram, args)?
            {
                self.heard = now(rt)?;
            }
        }
        Ok(self.relay.is_whole())
    }
}

/// Relays a feed: sends its packets on as they come, asks for what it misses, and answers requests for messages, until the
/// feed has been silent for 30 seconds. It waits for the first packet, of whichever session, for as long as none comes.
/// Returns whether the session has ended and nothing is missing.
///
/// Errors: a socket that cannot be bound or read; no memory.
pub fn relay_feed<R: AllocGlobal + Net + Clock>(
    rt: &R,
    args: &RelayArgs<'_>,
) -> Result<bool, RelayError> {
    let alloc = rt.alloc();
    let Ok(lines) = Lines::open(rt, args.feed, args.answers) else {
        return Err(RelayError::Network);
    };
    let mut buffer = vec![in alloc; 0u8; DATAGRAM]?;
    let mut relaying = Relaying::begin(rt, alloc, &lines, &mut buffer, args)?;
    relaying.go_on(rt, &lines, &mut buffer, args)
}
