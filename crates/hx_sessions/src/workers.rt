//! Both directions of a session, in one thread.
ghost use Rattle.std.specs.Prelude.{◌≡◌, false};
ghost use mathlib.Core.List.{IsPrefix};
ghost use Rattle.hx_desk.specs.Known.{known_replies};
ghost use Rattle.hx_sessions.specs.Asked.{CarriesOn};
ghost use Rattle.hx_sessions.specs.Frames.{day_over, IsNextOf};
ghost use Rattle.hx_sessions.specs.Workers.{Received, SentUntil};

use crate::clock_and_gate::{Clock, Gate};
use crate::delivery::Delivery;
use crate::ending::{Fault, Stop};
use crate::inbound::{Inbox, Trader, receive};
use crate::outbound::{Outbox, deliver};
use hx_engine::{Journal, Venue};
use hx_soup::Framer;
use hx_wake::Source;
use std::alloc::Global;
use std::io::{Read, Write};
use std::sync::Wait;
use std::time::Duration;

// The time for which the session may sleep: until the next heartbeat is due.
fn patience(delivery: &Delivery, now: u64) -> Duration {
    Duration::from_nanos(delivery.until_heartbeat(now))
}

// Whether the reply to what was submitted after message number `later` may go out before the publisher of the feed is
// woken: if it is one message, and the connection takes a page of replies at once, so that the feed does not wait for a
// member that does not read.
fn may_reply_first<V: Venue, R: Source, C>(inbox: &Inbox<V, R, C>, later: u64) -> bool {
    inbox.sender.number == later.saturating_add(1) && inbox.input.takes_at_once()
}

/// Both directions, by turns: all replies that are there are sent, and then it sleeps until a piece of the stream
/// comes, or there is news for the member, or a heartbeat is due. It arms its waker before it looks for replies, so no
/// news is missed. Each direction ends at its next turn once the other has. The publisher of the feed may have a wake
/// due then: a caller calls `wake_feed` after it.
pub fn work<V: Venue, J: Journal + Drop, R: Read + Source, W: Write, C: Clock, G: Gate, T: Wait>(
    rt: &T,
    alloc: Global,
    trader: &Trader<'_, V, J, G>,
    inbox: Inbox<V, R, C>,
    outbox: Outbox<W, C>,
    reads: u64,
    turns: u64,
) -> (Inbox<V, R, C>, Stop, Outbox<W, C>, Stop)
    requires log { outbox.reader.log ≡ V.log }
    requires live { outbox.delivery.over ≡ false }
    requires next { IsNextOf (known_replies V.setup trader.now.member outbox.reader.known)
        outbox.delivery.next }
    ensures pass { CarriesOn trader.now.may_send inbox.sender.pass result.0.sender.pass }
    ensures received { Received trader.now.member (R.remaining inbox.input)
        (R.remaining result.0.input) inbox.sender.pass.sent result.0.sender.pass.sent result.1 }
    ensures log { result.2.reader.log ≡ V.log }
    ensures known { IsPrefix outbox.reader.known result.2.reader.known }
    ensures sent { SentUntil (day_over V.setup result.2.reader.known) outbox.delivery.next
        (known_replies V.setup trader.now.member result.2.reader.known) result.2.delivery
        (W.contents outbox.output) (W.contents result.2.output) result.3 }
{
    let (mut inbox, mut outbox) = (inbox, outbox);
    let (exchange, member) = (trader.exchange, trader.member);
    let mut framer = Framer::new();
    let mut left = turns;
    for _ in 0..reads {
        exchange.waker(&inbox.sender.pass).arm();
        let (sent, all) = deliver(rt, exchange, member, outbox, &mut left);
        exchange.wake_feed();
        outbox = sent;
        match all {
            Ok(()) => {}
            Err(stop) => return (inbox, Stop::PeerStopped, outbox, stop),
        }
        let now = outbox.clock.now();
        let limit = patience(&outbox.delivery, now);
        let later = inbox.sender.number;
        match receive(rt, alloc, trader, &mut inbox, &mut framer, limit) {
            Ok(()) => {}
            Err(stop) => return (inbox, stop, outbox, Stop::PeerStopped),
        }
        if !may_reply_first(&inbox, later) {
            exchange.wake_feed();
        }
    }
    (
        inbox,
        Stop::Faulted(Fault::Turns),
        outbox,
        Stop::PeerStopped,
    )
}
