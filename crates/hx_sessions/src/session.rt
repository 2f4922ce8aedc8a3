//! A session from its login to its end.
ghost use Rattle.std.specs.Prelude.{ℕ, List, ◌≡◌, ◌⊎◌, ◌+◌, ◌≤◌, [], length, false};
ghost use mathlib.Core.List.{IsPrefix};
ghost use Rattle.hx_desk.specs.Known.{known_replies};
ghost use Rattle.hx_sessions.specs.Asked.{CarriesOn};
ghost use Rattle.hx_sessions.specs.Frames.{IsNextOf};
ghost use Rattle.hx_sessions.specs.Workers.{both_of};
ghost use Rattle.hx_sessions.specs.Served.{Converses, Serves};

use crate::clock_and_gate::{Clock, Gate};
use crate::copies::{Logins, may_send, read_by};
use crate::debt::Debt;
use crate::delivery::Delivery;
use crate::ending::{Ended, Fault, Stop};
use crate::inbound::{Inbox, Sender, Trader};
use crate::opening::{Line, admit};
use crate::outbound::{Outbox, finish};
use crate::part::Part;
use crate::workers::work;
use hx_blog::Reader;
use hx_engine::{Entry, Exchange, Journal, Pass, Venue};
use hx_units::MemberNo;
use hx_wake::Source;
use std::alloc::Global;
use std::io::{Read, Write};
use std::sync::Wait;

/// How both directions ended, as one: a fault before an ending, the inbound fault first, and the end of the day before
/// the other endings. If neither ended by itself, there was no session, as when out of memory.
pub fn both(inbound: Stop, outbound: Stop) -> Result<Ended, Fault>
    ensures { result ≡ both_of inbound outbound }
{
    match inbound {
        Stop::Faulted(fault) => Err(fault),
        Stop::Ended(ended) => match outbound {
            Stop::Faulted(fault) => Err(fault),
            Stop::Ended(other) => Ok(other),
            Stop::PeerStopped => Ok(ended),
        },
        Stop::PeerStopped => match outbound {
            Stop::Faulted(fault) => Err(fault),
            Stop::Ended(other) => Ok(other),
            Stop::PeerStopped => Err(Fault::NoMemory),
        },
    }
}

/// The session of a member.
pub struct Session;

impl Session {
    /// Runs a session in this thread: the login, then both directions by turns. The part always comes back. A drop copy gets
    /// the replies to another member; its session ends at the first message that it sends, which goes nowhere.
    pub fn run<
        V: Venue,
        J: Journal + Drop,
        R: Read + Source + Drop,
        W: Write + Drop,
        C: Clock + Drop,
        G: Gate,
        T: Wait,
    >(
        rt: &T,
        alloc: Global,
        exchange: &Exchange<V, J>,
        logins: &Logins<'_>,
        part: Part<V, R, W, C>,
        gate: &G,
        turns: u64,
    ) -> (Part<V, R, W, C>, Result<Ended, Fault>)
        ensures { Serves V.setup logins.now.setup.now logins.now.copies.now
            (record {
              input = R.remaining part.input;
              output = W.contents part.output;
              pass = part.pass;
              reader = part.reader;
            })
            (record {
              input = R.remaining result.0.input;
              output = W.contents result.0.output;
              pass = result.0.pass;
              reader = result.0.reader;
            })
            result.1 }
    {
        let Part {
            input,
            output,
            inbound,
            mut outbound,
            pass,
            mut reader,
        } = part;
        let mut line = Line { input, output };
        let begun = admit(rt, alloc, exchange, logins, &mut line, &mut reader, turns);
        let Line { input, mut output } = line;
        match begun {
            Err(result) => {
                let _ = output.flush();
                let part = Part {
                    input,
                    output,
                    inbound,
                    outbound,
                    pass,
                    reader,
                };
                (part, result)
            }
            Ok((begun, left)) => {
                gate.opened(begun.member);
                let member = read_by(logins.copies, begun.member);
                exchange.listen(rt, &pass, member);
                let now = outbound.now();
                let inbox = Inbox {
                    input,
                    sender: Sender {
                        pass,
                        clock: inbound,
                        number: 0,
                        debt: Debt::none(),
                    },
                };
                let outbox = Outbox {
                    output,
                    clock: outbound,
                    reader,
                    delivery: Delivery::new(begun.first, now),
                };
                let trader = Trader {
                    exchange,
                    gate,
                    member,
                    may_send: may_send(logins.copies, begun.member),
                };
                let (inbox, mut outbox, result) = converse(
                    rt, alloc, &trader, inbox, outbox, left, turns,
                );
                exchange.leave(rt, &inbox.sender.pass, member);
                let _ = outbox.output.flush();
                let part = Part {
                    input: inbox.input,
                    output: outbox.output,
                    inbound: inbox.sender.clock,
                    outbound: outbox.clock,
                    pass: inbox.sender.pass,
                    reader: outbox.reader,
                };
                (part, result)
            }
        }
    }
}

// A session after its login: both directions, and after a logout the replies so far.
fn converse<
    V: Venue,
    J: Journal + Drop,
    R: Read + Source + Drop,
    W: Write + Drop,
    C: Clock + Drop,
    G: Gate,
    T: Wait,
>(
    rt: &T,
    alloc: Global,
    trader: &Trader<'_, V, J, G>,
    inbox: Inbox<V, R, C>,
    outbox: Outbox<W, C>,
    reads: u64,
    turns: u64,
) -> (Inbox<V, R, C>, Outbox<W, C>, Result<Ended, Fault>)
    requires log { outbox.reader.log ≡ V.log }
    requires live { outbox.delivery.over ≡ false }
    requires next { IsNextOf (known_replies V.setup trader.now.member outbox.reader.known)
        outbox.delivery.next }
    ensures log { result.1.reader.log ≡ V.log }
    ensures known { IsPrefix outbox.reader.known result.1.reader.known }
    ensures pass { CarriesOn trader.now.may_send inbox.sender.pass result.0.sender.pass }
    ensures converses { Converses V.setup trader.now.member outbox.delivery.next []
        (record {
          input = R.remaining inbox.input;
          output = W.contents outbox.output;
          pass = inbox.sender.pass;
          reader = outbox.reader;
        })
        (record {
          input = R.remaining result.0.input;
          output = W.contents result.1.output;
          pass = result.0.sender.pass;
          reader = result.1.reader;
        })
        result.2 }
{
    let (mut inbox, inn, outbox, out) = work(rt, alloc, trader, inbox, outbox, reads, turns);
    trader.exchange.wake_feed();
    match both(inn, out) {
        Ok(Ended::Logout) => {
            let exchange = trader.exchange;
            let receipt = inbox.sender.pass.receipt(exchange.feed_log());
            let (outbox, last) = finish(rt, exchange, trader.member, outbox, receipt);
            match last {
                Ok(()) => (inbox, outbox, Ok(Ended::Logout)),
                Err(stop) => (inbox, outbox, both(Stop::PeerStopped, stop)),
            }
        }
        Ok(Ended::ReaderEnd) => (inbox, outbox, Ok(Ended::ReaderEnd)),
        Ok(Ended::DayEnd) => (inbox, outbox, Ok(Ended::DayEnd)),
        Err(fault) => (inbox, outbox, Err(fault)),
    }
}
