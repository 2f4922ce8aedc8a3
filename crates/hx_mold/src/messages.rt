//! Numbered messages, and packets of them.
ghost use Rattle.std.specs.Prelude.{◌≡◌, ◌≤◌, ◌<◌, ◌+◌, ◌-◌, ◌^◌, ◌++◌, List, ℕ, [], true, false, length, option_map, IfSome, IfNone, IfOk, IfErr};
ghost use Rattle.hx_mold.specs.Packets.{room, block, header, IsHeader};
ghost use Rattle.hx_units.specs.Fields.{texts};
ghost use Rattle.hx_mold.specs.Fronts.{Grows, message_at, wanted, CutsInto, Gathers, Answers, NoneThere};
ghost use Rattle.hx_mold.specs.Filling.{Fills};

use crate::packet::write_header;
use crate::request::Request;
use arrayvec::ArrayVec;
use hx_units::NoMemory;
use hx_units::fields::{put, u16_bytes};
use std::alloc::Global;

// The bytes that blocks may fill in a packet: 1,400 less the header.
const ROOM: usize = 1380;

/// Messages that are numbered from 1, and of which there may come more. They are fewer than 2^64 - 1, and
/// none ever changes or goes.
pub trait Messages {
    /// The messages that can be asked for.
    ghost messages: { Self → List (List ℕ) };

    /// The second is what one look at its source makes of the first: a list of its own stays as it is.
    ghost counted: { Self → Self → Type 0 };

    /// Looks how many there are now. There may be more than before.
    fn count(&mut self) -> u64
        ensures looks { counted self.old self.new }
        ensures grows { Grows (messages self.old) (messages self.new) }
        ensures count { result ≡ length (messages self.new) }
        ensures few { result < 2 ^ 64 - 1 };

    /// The message of number `n`, or none if `n` is 0 or above what was counted last. It changes nothing.
    fn get(&mut self, n: u64) -> Option<ArrayVec<u8, 44>>
        ensures found { option_map (λ m. m.items) result ≡ message_at n (messages self.old) }
        ensures same { self.new ≡ self.old };
}

// Appends a message's block if it fits.
fn add(body: &mut ArrayVec<u8, 1380>, message: &ArrayVec<u8, 44>) -> bool
    ensures yes { result ≡ true →
        (body.new.items ≡ body.old.items ++ block message.now.items)
        × (length body.new.items ≤ room) }
    ensures first { body.old.items ≡ [] → result ≡ true }
    ensures no { result ≡ false →
        (body.new.items ≡ body.old.items)
        × (room < length (body.old.items ++ block message.now.items)) }
{
    if body.len() + 2 + message.len() > ROOM {
        return false;
    }
    put(body, &u16_bytes(message.len() as u16));
    put(body, message.as_slice());
    true
}

// A whole packet.
fn finish(
    session: [u8; 10],
    first: u64,
    count: u16,
    body: &ArrayVec<u8, 1380>,
) -> ArrayVec<u8, 1400>
    ensures items { result.items ≡ header session first count ++ body.now.items }
    ensures head { IsHeader session first }
{
    let mut out = write_header(session, first, count);
    put(&mut out, body.as_slice());
    out
}

// Writes the blocks of the messages that fit.
fn fill(body: &mut ArrayVec<u8, 1380>, messages: &[ArrayVec<u8, 44>]) -> u16
    requires { body.old.items ≡ [] }
    ensures { Fills result body.new.items (texts messages.now) }
{
    let mut count: u16 = 0;
    for message in messages {
        if !add(body, message) {
            return count;
        }
        count += 1;
    }
    count
}

/// The packets of these messages, the first of which has the number `first`: the messages in order, each packet full of
/// messages up to 1,400 bytes, and no packet if there is no message (MoldUDP64 1.00, Downstream Packet). It takes
/// memory if there is a message, and fails only when out of memory.
pub fn cut(
    alloc: Global,
    session: [u8; 10],
    first: u64,
    messages: &[ArrayVec<u8, 44>],
) -> Result<Vec<ArrayVec<u8, 1400>>, NoMemory>
    requires { first + length messages.now ≤ 2 ^ 64 }
    ensures packets { IfOk result (λ packets.
        CutsInto session first (texts messages.now) (texts packets.items)) }
    ensures memory { IfErr result (λ _. 0 < length messages.now) }
{
    let mut packets = Vec::new(alloc);
    let mut done = 0;
    while done < messages.len() {
        let mut body = ArrayVec::new();
        let count = fill(&mut body, &messages[done..]);
        packets.push(finish(session, first + done as u64, count, &body))?;
        done += count as usize;
    }
    Ok(packets)
}

// Writes the blocks of the messages from a number on that fit, at most `most` of them.
fn collect<M: Messages>(
    body: &mut ArrayVec<u8, 1380>,
    messages: &mut M,
    first: u64,
    most: u16,
    total: u64,
) -> u16
    requires empty { body.old.items ≡ [] }
    requires first { 0 < first }
    requires total { total ≡ length (M.messages messages.old) }
    requires few { total < 2 ^ 64 - 1 }
    ensures same { messages.new ≡ messages.old }
    ensures fills { Fills result body.new.items (wanted first most (M.messages messages.old)) }
{
    let mut count: u16 = 0;
    let mut next = first;
    while count < most && next <= total {
        let Some(message) = messages.get(next) else {
            return count;
        };
        if !add(body, &message) {
            return count;
        }
        count += 1;
        next += 1;
    }
    count
}

/// The packet of the messages from number `first` on, at most `most` of them and as far as they fit into 1,400 bytes,
/// and how many it brings; or none for number 0, for 0 messages, and if message `first` is not there yet. The messages
/// are counted once, first. It takes no memory.
pub fn gather<M: Messages>(
    session: [u8; 10],
    messages: &mut M,
    first: u64,
    most: u16,
) -> Option<(ArrayVec<u8, 1400>, u16)>
    ensures looks { M.counted messages.old messages.new }
    ensures grows { Grows (M.messages messages.old) (M.messages messages.new) }
    ensures few { length (M.messages messages.new) < 2 ^ 64 - 1 }
    ensures some { IfSome result (λ p.
        (0 < first) × Gathers session first most (M.messages messages.new) p.0.items p.1) }
    ensures within { IfSome result (λ p. first + p.1 ≤ length (M.messages messages.new) + 1) }
    ensures none { IfNone result (NoneThere first most (M.messages messages.new)) }
{
    let total = messages.count();
    if first == 0 {
        return None;
    }
    let mut body = ArrayVec::new();
    let count = collect(&mut body, messages, first, most, total);
    if count == 0 {
        return None;
    }
    Some((finish(session, first, count, &body), count))
}

/// The answer to a request (MoldUDP64 1.00, Request Packet): one packet with the messages that were asked for, from the
/// first one on, as far as they are there and fit into 1,400 bytes; or none for another session, for count 0, for
/// number 0, and for a number that is not there yet. The messages are counted once, first. It takes no memory.
pub fn answer<M: Messages>(
    session: [u8; 10],
    messages: &mut M,
    request: &Request,
) -> Option<ArrayVec<u8, 1400>>
    ensures looks { M.counted messages.old messages.new }
    ensures grows { Grows (M.messages messages.old) (M.messages messages.new) }
    ensures answers { Answers session request.now (M.messages messages.new)
        (option_map (λ p. p.items) result) }
{
    if request.session != session {
        let _ = messages.count();
        return None;
    }
    let (packet, _) = gather(session, messages, request.sequence, request.count)?;
    Some(packet)
}
