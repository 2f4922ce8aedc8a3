//! The feed's messages in order, each once, out of its packets.
ghost use Rattle.std.specs.Prelude.{◌≡◌, ◌≤◌, ◌<◌, ◌+◌, ◌-◌, ◌^◌, ◌↔◌, IsTrue, IfOk, true, option_map, option_copied, List, ℕ, length};
ghost use Rattle.std.specs.VecDeque.{deque_len};
ghost use Rattle.hx_reader.specs.Readings.{Reading, opening, longest, last_number, slots, filled, placed, all_placed, delivered_to, comes, session_of, received, ready, handed, gap, request_of, is_whole};
ghost use Rattle.hx_mold.specs.Packets.{IsPacket, end_count};

use arrayvec::ArrayVec;
use hx_mold::{Blocks, MoldPacket, Request, decode_packet};
use hx_units::NoMemory;
use std::alloc::Global;
use std::collections::VecDeque;
use std::marker::Model;

// The bytes of the longest message of the feed.
const LONGEST: usize = 44;

// The most messages that a request can ask for.
const MOST: u64 = 65_535;

// A copy of a message's bytes.
fn text_of(message: &[u8]) -> ArrayVec<u8, 44>
    requires { length message.now ≤ longest }
    ensures { result.items ≡ message.now }
{
    let mut text = ArrayVec::new();
    let _ = text.try_extend_from_slice(message);
    text
}

// Puts a message into a vacant slot of the window.
fn fill(window: &mut VecDeque<Option<ArrayVec<u8, 44>>>, slot: usize, message: &[u8])
    requires { length message.now ≤ longest }
    ensures { slots window.new.items ≡ filled slot message.now (slots window.old.items) }
{
    if slot >= window.len() {
        return;
    }
    if window[slot].is_some() {
        return;
    }
    window[slot] = Some(text_of(message));
}

// The number of vacant slots at the front of the window.
#[tactic(auto, using(crate::proofs::Windows::gap_more, crate::proofs::Windows::gap_over, crate::proofs::Windows::gap_past))]
fn vacant_front(window: &VecDeque<Option<ArrayVec<u8, 44>>>) -> usize
    ensures gap { result ≡ gap (slots window.now.items) }
    ensures within { result ≤ length window.now.items }
{
    let mut count = 0;
    while count < window.len() && !window[count].is_some() {
        count += 1;
    }
    count
}

// The session that a packet is of.
fn session(packet: &MoldPacket<'_>) -> [u8; 10]
    ensures { result ≡ session_of packet.now }
{
    match packet {
        MoldPacket::Blocks { session, .. } => *session,
        MoldPacket::Heartbeat { session, .. } => *session,
        MoldPacket::EndOfSession { session, .. } => *session,
    }
}

/// Takes the feed's messages out of its packets (MoldUDP64 1.00, Downstream Packet), which may be lost, come again, in
/// another order, or be none. It stores messages from the next one on, one in each of its slots, and no more. Contracts
/// see it as what it knows.
#[derive(Drop)]
pub struct FeedReader {
    session: [u8; 10],
    next: u64,
    delivered: u64,
    ended: bool,
    window: VecDeque<Option<ArrayVec<u8, 44>>>,
}

impl Model for FeedReader {
    ghost Value = { Reading };

    ghost view = { λ r. record {
      session = r.session;
      next = r.next;
      delivered = r.delivered;
      ended = r.ended;
      window = slots r.window.items;
    } };
}

impl FeedReader {
    /// A reader of a session that has seen nothing, with `indices` slots, each for one message. It takes all its memory
    /// here; its only error is that there is none.
    #[tactic(auto, using(crate::proofs::Windows::slots_replicate))]
    pub fn new(alloc: Global, session: [u8; 10], indices: usize) -> Result<Self, NoMemory>
        ensures { IfOk result (λ r. r ≡ opening session indices) }
    {
        let mut window = VecDeque::with_capacity(alloc, indices)?;
        while window.len() < indices {
            window.push_back(None)?;
        }
        Ok(FeedReader {
            session,
            next: 1,
            delivered: 1,
            ended: false,
            window,
        })
    }

    // A message has come.
    #[tactic(auto, unfolding(crate::specs::Readings::placed))]
    fn slot(&mut self, number: u64, message: &[u8])
        ensures { self.new ≡ placed number message.now self.old }
    {
        if number < self.next {
            return;
        }
        if message.len() > LONGEST {
            return;
        }
        fill(&mut self.window, (number - self.next) as usize, message);
    }

    // Messages have come.
    #[tactic(auto, using(crate::proofs::Windows::placed_first, crate::proofs::Windows::placed_none))]
    fn index_all(&mut self, first: u64, messages: &mut Blocks<'_>) -> u64
        requires { first + length messages.old < 2 ^ 64 }
        ensures placed { self.new ≡ all_placed first messages.old self.old }
        ensures number { result ≡ first + length messages.old }
    {
        let mut number = first;
        while let Some(message) = messages.next() {
            self.slot(number, message);
            number += 1;
        }
        number
    }

    // A packet announces that the next message after those that there are has this number.
    fn tell(&mut self, next: u64)
        ensures { self.new ≡ delivered_to next self.old }
    {
        self.delivered = self.delivered.max(next);
    }

    // A packet of the reader's session comes.
    fn take_packet(&mut self, packet: MoldPacket<'_>)
        requires { IsPacket packet }
        ensures { self.new ≡ comes self.old packet.entry }
    {
        match packet {
            MoldPacket::Blocks {
                sequence,
                mut messages,
                ..
            } => {
                if sequence <= u64::MAX - MOST {
                    let end = self.index_all(sequence, &mut messages);
                    self.tell(end);
                }
            }
            MoldPacket::Heartbeat { next, .. } => self.tell(next),
            MoldPacket::EndOfSession { next, .. } => {
                self.tell(next);
                self.ended = true;
            }
        }
    }

    /// Takes a datagram. Bytes that are no packet, packets of other sessions, messages that were handed out or are
    /// stored already, and those that have no slot change nothing. It takes no memory.
    #[tactic(auto, unfolding(crate::specs::Readings::received))]
    pub fn receive(&mut self, datagram: &[u8])
        ensures { self.new ≡ received self.old datagram.now }
    {
        let Some(packet) = decode_packet(datagram) else {
            return;
        };
        if session(&packet) != self.session {
            return;
        }
        self.take_packet(packet);
    }

    /// The feed's next message, or none if it has not come. It changes nothing, and takes no memory.
    pub fn peek(&self) -> Option<&ArrayVec<u8, 44>>
        ensures { option_map (λ m. m.items) (option_copied result) ≡ ready self.now }
    {
        if self.next == u64::MAX || self.window.is_empty() {
            return None;
        }
        self.window[0].as_ref()
    }

    /// Hands out the feed's next message, or none if it has not come. It takes no memory.
    pub fn hand_out(&mut self) -> Option<ArrayVec<u8, 44>>
        ensures message { option_map (λ m. m.items) result ≡ ready self.old }
        ensures after { self.new ≡ handed self.old (ready self.old) }
    {
        if self.next == u64::MAX || self.window.is_empty() || self.window[0].is_none() {
            return None;
        }
        let first = self.window.pop_front()?;
        let _ = self.window.push_back(None);
        self.next += 1;
        first
    }

    /// The request for the messages that are missing from the next one on, up to one that is stored (MoldUDP64 1.00,
    /// Request Packet), or none if none is missing that a packet has announced. It takes no memory.
    pub fn request(&self) -> Option<Request>
        ensures { result ≡ request_of self.now }
    {
        if self.delivered <= self.next {
            return None;
        }
        let later = self.delivered - self.next;
        let count = (vacant_front(&self.window) as u64).min(later).min(MOST);
        if count == 0 {
            return None;
        }
        Some(Request {
            session: self.session,
            sequence: self.next,
            count: count as u16,
        })
    }

    /// The number of the message that is handed out next, all before it having been; and the number after the last
    /// message that a packet has announced, which is how far the feed is known to be. It takes no memory.
    pub fn progress(&self) -> (u64, u64)
        ensures { result ≡ (self.now.next, self.now.delivered) }
    {
        (self.next, self.delivered)
    }

    /// Whether the session has ended and all its messages were handed out. It takes no memory.
    pub fn is_whole(&self) -> bool
        ensures { result ≡ is_whole self.now }
    {
        self.ended && self.delivered <= self.next
    }
}
