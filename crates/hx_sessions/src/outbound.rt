//! The direction of a session that sends replies.
ghost use Rattle.std.specs.Prelude.{ℕ, List, ◌≡◌, ◌⊎◌, ◌+◌, ◌<◌, ◌≤◌, ◌^◌, ◌++◌, [], length, drop, true, false, IfOk, IfErr, OnErr, OnOk};
ghost use mathlib.Core.List.{IsPrefix};
ghost use Rattle.hx_units.specs.Fields.{texts};
ghost use Rattle.hx_desk.specs.Known.{known_replies};
ghost use Rattle.hx_sessions.specs.Frames.{day_over, IsNextOf, Sends, Sent, WritesAll, WritesSome};
ghost use Rattle.hx_sessions.specs.Workers.{SendsMore, StopsIn, SentRound, SentUntil};

use crate::clock_and_gate::Clock;
use crate::delivery::{Delivery, Turn};
use crate::ending::{Ended, Fault, Stop};
use arrayvec::ArrayVec;
use hx_blog::{Reader, Receipt};
use hx_engine::{Entry, Exchange, Journal, Venue};
use hx_units::{MemberNo, WriteFailed, write_whole};
use std::io::Write;
use std::sync::Wait;

// The most replies that are taken from the exchange at once.
const PAGE: u64 = 64;

// The bytes of a page of replies, each after the three bytes of its packet's head.
const BATCH: usize = 64 * 83;

/// What it has, and gives back.
#[derive(Drop)]
pub struct Outbox<W, C> {
    pub output: W,
    pub clock: C,
    pub reader: Reader<Entry>,
    pub delivery: Delivery,
}

// One turn of a delivery: what it gives is written.
fn send<W: Write>(
    output: &mut W,
    delivery: &mut Delivery,
    rows: &[ArrayVec<u8, 80>],
    ended: bool,
    now: u64,
) -> Result<(), WriteFailed>
    requires live { delivery.old.over ≡ false }
    requires room { delivery.old.next + length rows.now < 2 ^ 64 }
    ensures ok { OnOk result (
        (frames : List (List ℕ))
        × Sends delivery.old delivery.new (texts rows.now) ended frames
        × WritesAll (W.contents output.old) (W.contents output.new) frames) }
    ensures err { OnErr result (
        (frames : List (List ℕ))
        × Sends delivery.old delivery.new (texts rows.now) ended frames
        × WritesSome (W.contents output.old) (W.contents output.new) frames) }
{
    match delivery.turn(rows, ended, now) {
        Turn::Frame(frame) => {
            let bytes = frame.as_slice();
            match write_whole(output, bytes) {
                Ok(()) => Ok(()),
                Err(WriteFailed) => Err(WriteFailed),
            }
        }
        Turn::Idle | Turn::Over => Ok(()),
    }
}

// Puts the packets of replies, which are the next ones, into a batch, as long as there are turns left.
fn fill<C: Clock>(
    clock: &mut C,
    delivery: &mut Delivery,
    rows: &[ArrayVec<u8, 80>],
    left: &mut u64,
    batch: &mut ArrayVec<u8, BATCH>,
) -> Result<(), Stop>
    requires live { delivery.old.over ≡ false }
    requires room { delivery.old.next + length rows.now < 2 ^ 64 }
    ensures live { OnOk result (delivery.new.over ≡ false) }
    ensures ok { OnOk result (SendsMore (texts rows.now) delivery.old delivery.new
        batch.old.items batch.new.items) }
    ensures err { IfErr result (StopsIn (texts rows.now) delivery.old delivery.new
        batch.old.items batch.new.items) }
{
    let now = clock.now();
    for i in 0..rows.len() {
        if *left == 0 {
            return Err(Stop::Faulted(Fault::Turns));
        }
        *left -= 1;
        let next = &rows[i..];
        match send(batch, delivery, next, false, now) {
            Ok(()) => {}
            Err(WriteFailed) => return Err(Stop::Faulted(Fault::Write)),
        }
    }
    Ok(())
}

impl<W: Write, C: Clock> Outbox<W, C> {
    // Sends a page of the replies from the next one on, by one write, or else what a turn without replies gives.
    // Returns whether there may be more to send: the page was full, or the day is over.
    fn round<V: Venue, J: Journal + Drop, T: Wait>(
        &mut self,
        rt: &T,
        exchange: &Exchange<V, J>,
        member: MemberNo,
        left: &mut u64,
    ) -> Result<bool, Stop>
        requires log { self.old.reader.log ≡ V.log }
        requires live { self.old.delivery.over ≡ false }
        requires next { IsNextOf (known_replies V.setup member self.old.reader.known)
            self.old.delivery.next }
        ensures log { self.new.reader.log ≡ V.log }
        ensures known { IsPrefix self.old.reader.known self.new.reader.known }
        ensures ok { IfOk result (λ moved.
            SentRound self.old.delivery.next
            (known_replies V.setup member self.new.reader.known) self.new.delivery
            (W.contents self.old.output) (W.contents self.new.output) moved) }
        ensures err { IfErr result (SentUntil (day_over V.setup self.new.reader.known)
            self.old.delivery.next
            (known_replies V.setup member self.new.reader.known) self.new.delivery
            (W.contents self.old.output) (W.contents self.new.output)) }
    {
        let from = self.delivery.next();
        let (news, page) = exchange.news_page(rt, &mut self.reader, member, from, PAGE);
        let Ok(rows) = page else {
            return Err(Stop::Faulted(Fault::NoMemory));
        };
        let ended = news.ended;
        if rows.is_empty() {
            if *left == 0 {
                return Err(Stop::Faulted(Fault::Turns));
            }
            *left -= 1;
            let now = self.clock.now();
            match send(&mut self.output, &mut self.delivery, &rows, ended, now) {
                Ok(()) => {
                    if ended {
                        return Err(Stop::Ended(Ended::DayEnd));
                    }
                    return Ok(false);
                }
                Err(WriteFailed) => return Err(Stop::Faulted(Fault::Write)),
            }
        }
        let mut batch = ArrayVec::<u8, BATCH>::new();
        let clock = &mut self.clock;
        let filled = fill(clock, &mut self.delivery, &rows, left, &mut batch);
        match write_whole(&mut self.output, batch.as_slice()) {
            Ok(()) => {}
            Err(WriteFailed) => return Err(Stop::Faulted(Fault::Write)),
        }
        match filled {
            Ok(()) => Ok(ended || rows.len() as u64 == PAGE),
            Err(stop) => Err(stop),
        }
    }
}

/// Sends all replies to a member that are there, and after the last of the day the end of the session; if there is
/// none, it sends a heartbeat, if one is due. It takes one of the turns that are left for each packet, and one if there
/// is nothing to send.
pub fn deliver<V: Venue, J: Journal + Drop, W: Write, C: Clock, T: Wait>(
    rt: &T,
    exchange: &Exchange<V, J>,
    member: MemberNo,
    mut outbox: Outbox<W, C>,
    left: &mut u64,
) -> (Outbox<W, C>, Result<(), Stop>)
    requires log { outbox.reader.log ≡ V.log }
    requires live { outbox.delivery.over ≡ false }
    requires next { IsNextOf (known_replies V.setup member outbox.reader.known)
        outbox.delivery.next }
    ensures log { result.0.reader.log ≡ V.log }
    ensures known { IsPrefix outbox.reader.known result.0.reader.known }
    ensures ok { OnOk result.1 (
        (result.0.delivery.over ≡ false)
        × Sent outbox.delivery.next
        (known_replies V.setup member result.0.reader.known) [] result.0.delivery
        (W.contents outbox.output) (W.contents result.0.output)) }
    ensures err { IfErr result.1 (SentUntil (day_over V.setup result.0.reader.known)
        outbox.delivery.next
        (known_replies V.setup member result.0.reader.known) result.0.delivery
        (W.contents outbox.output) (W.contents result.0.output)) }
{
    for _ in 0..u64::MAX {
        match outbox.round(rt, exchange, member, left) {
            Ok(true) => exchange.wake_feed(),
            Ok(false) => return (outbox, Ok(())),
            Err(stop) => return (outbox, Err(stop)),
        }
    }
    (outbox, Err(Stop::Faulted(Fault::Turns)))
}

/// Sends the replies so far after a logout: all that the receipt knows of are among them.
pub fn finish<V: Venue, J: Journal + Drop, W: Write, C: Clock, T: Wait>(
    rt: &T,
    exchange: &Exchange<V, J>,
    member: MemberNo,
    mut outbox: Outbox<W, C>,
    receipt: Receipt<Entry>,
) -> (Outbox<W, C>, Result<(), Stop>)
    requires log { outbox.reader.log ≡ V.log }
    requires receipt { receipt.log ≡ V.log }
    requires live { outbox.delivery.over ≡ false }
    requires next { IsNextOf (known_replies V.setup member outbox.reader.known)
        outbox.delivery.next }
    ensures log { result.0.reader.log ≡ V.log }
    ensures known { IsPrefix outbox.reader.known result.0.reader.known }
    ensures published_end { IsPrefix receipt.known result.0.reader.known }
    ensures ok { OnOk result.1 (
        (result.0.delivery.over ≡ false)
        × Sent outbox.delivery.next
        (known_replies V.setup member result.0.reader.known) [] result.0.delivery
        (W.contents outbox.output) (W.contents result.0.output)) }
    ensures err { IfErr result.1 (SentUntil (day_over V.setup result.0.reader.known)
        outbox.delivery.next
        (known_replies V.setup member result.0.reader.known) result.0.delivery
        (W.contents outbox.output) (W.contents result.0.output)) }
{
    outbox.reader.learn(exchange.feed_log(), receipt);
    let mut left = u64::MAX;
    deliver(rt, exchange, member, outbox, &mut left)
}
