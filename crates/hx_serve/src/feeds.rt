//! Where the feed goes: each packet to each address.

use crate::sending::send;
use hx_day_context::{Notice, NoticeSink};
use hx_listener::{Datagrams, MOST_FEEDS};
use std::net::SocketAddr;
use std::time::Clock;

// How often a packet is tried if the socket's buffer is full.
const TRIES: u32 = 10_000;

// Whether an address failed, and whether that is still to be reported.
#[derive(Clone, Copy, PartialEq, Eq)]
enum Trouble {
    None,
    Untold,
    Reported,
}

/// The addresses that the feed goes to, and which of them failed.
#[derive(Drop)]
pub struct Feeds<'a> {
    to: &'a [SocketAddr],
    troubles: [Trouble; MOST_FEEDS],
}

impl<'a> Feeds<'a> {
    /// The feed's addresses; those after the first 16 get nothing. If `is_reported` is false, no failure is reported.
    pub fn new(to: &'a [SocketAddr], is_reported: bool) -> Feeds<'a> {
        let trouble = if is_reported {
            Trouble::None
        } else {
            Trouble::Reported
        };
        Feeds {
            to,
            troubles: [trouble; MOST_FEEDS],
        }
    }

    /// Sends a packet to each address, whether another one failed or not. Returns whether none did.
    pub fn send<T: Clock, D: Datagrams>(&mut self, rt: &T, socket: &D, packet: &[u8]) -> bool {
        let mut all = true;
        for (to, trouble) in self.to.iter().zip(self.troubles.iter_mut()) {
            if !send(rt, socket, packet, *to, TRIES) {
                all = false;
                if *trouble == Trouble::None {
                    *trouble = Trouble::Untold;
                }
            }
        }
        all
    }

    /// Posts a notice of each address that failed, once.
    pub fn tell<B: NoticeSink>(&mut self, notice_sink: &B) {
        for (to, trouble) in self.to.iter().zip(self.troubles.iter_mut()) {
            if *trouble == Trouble::Untold {
                *trouble = Trouble::Reported;
                notice_sink.post(Notice::Unsent { to: *to });
            }
        }
    }
}
