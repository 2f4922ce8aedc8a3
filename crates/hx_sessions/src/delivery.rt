//! Replies that go out, one a turn.
ghost use Rattle.std.specs.Prelude.{◌≡◌, ◌<◌, ◌+◌, ◌^◌, false, length};
ghost use Rattle.hx_units.specs.Fields.{texts};

use arrayvec::ArrayVec;
use hx_soup::{frame, kinds};
use hx_units::is_heartbeat_due;
use std::marker::Model;

// A heartbeat is due after this number of nanoseconds without a packet.
const SILENCE: u64 = 1_000_000_000;

/// What a turn gives.
#[derive(Debug, Drop)]
pub enum Turn {
    /// The bytes of a packet that goes out.
    Frame(ArrayVec<u8, 1026>),
    /// Nothing goes out now.
    Idle,
    /// The end of the session has gone out, and nothing goes out any more.
    Over,
}

/// What has gone out to a client. Contracts see the number of the next reply, `next`, the time of the last
/// packet in nanoseconds, `last`, and whether the end of the session has gone out, `over`.
#[derive(Clone, Copy, Debug, PartialEq, Eq)]
pub struct Delivery {
    next: u64,
    last: u64,
    over: bool,
}

impl Model for Delivery {
    ghost use Rattle.hx_sessions.specs.Deliveries.{Delivery};

    ghost Value = { Delivery };

    ghost view = { λ d. record { next = d.next; last = d.last; over = d.over } };

    ghost inverse = { λ d. record { next = d.next; last = d.last; over = d.over } };
}

impl Delivery {
    ghost use Rattle.hx_sessions.specs.Deliveries.{TurnGives, until_heartbeat};

    /// A delivery that begins with the reply of number `first`. The time `now` counts as that of a packet.
    pub fn new(first: u64, now: u64) -> Self
        ensures { result ≡ record { next = first; last = now; over = false } }
    {
        Delivery {
            next: first,
            last: now,
            over: false,
        }
    }

    /// The number of the next reply that goes out.
    pub fn next(&self) -> u64
        ensures { result ≡ self.now.next }
    {
        self.next
    }

    /// The number of nanoseconds from the time `now` to the next heartbeat, if nothing else goes out.
    pub fn until_heartbeat(&self, now: u64) -> u64
        ensures { result ≡ until_heartbeat self.now.last now }
    {
        if is_heartbeat_due(self.last, now) {
            return 0;
        }
        SILENCE - (now - self.last)
    }

    /// What goes out at the time `now`, in nanoseconds, if `rows` are the replies from number `next` on: the next reply
    /// (SoupBinTCP 3.00, Sequenced Data Packet); else, if the day has ended, the end of the session (End of Session
    /// Packet), and nothing from then on; else a heartbeat (Server Heartbeat Packet), if the clock went back or the
    /// last packet was a second ago or longer; else nothing.
    pub fn turn(&mut self, rows: &[ArrayVec<u8, 80>], ended: bool, now: u64) -> Turn
        requires { self.old.next + length rows.now < 2 ^ 64 }
        ensures { TurnGives self.old self.new (texts rows.now) ended now result }
    {
        if self.over {
            return Turn::Over;
        }
        let packet = if let [row, ..] = rows {
            self.next += 1;
            frame(kinds::SEQUENCED_DATA, row.as_slice())
        } else if ended {
            self.over = true;
            frame(kinds::END_OF_SESSION, &[])
        } else if is_heartbeat_due(self.last, now) {
            frame(kinds::SERVER_HEARTBEAT, &[])
        } else {
            return Turn::Idle;
        };
        self.last = now;
        Turn::Frame(packet)
    }
}
