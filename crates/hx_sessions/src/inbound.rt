//! The direction of a session that takes messages in.
ghost use Rattle.std.specs.Prelude.{ℕ, List, ◌≡◌, ◌⊎◌, ◌<◌, ◌+◌, ◌++◌, [], ◌∷◌, OnOk, OnErr, Some, IsSome, true, false, length};
ghost use Rattle.hx_sessions.specs.declared.intake.Intake.TheVariants as intakes;
ghost use Rattle.hx_rules.specs.declared.event.Event.TheVariants.{Message};
ghost use Rattle.hx_sessions.specs.Asked.{CarriesOn, Submits, SendsOn, SendsSome};
ghost use Rattle.hx_sessions.specs.Workers.{ActedUntil, Acted, Gathers, Takes, TakesMore};
ghost use Rattle.hx_sessions.specs.declared.ending.Fault.TheVariants as faults;
ghost use Rattle.hx_sessions.specs.declared.ending.Stop.TheVariants as stops;

use crate::clock_and_gate::{Clock, Gate};
use crate::debt::Debt;
use crate::ending::{Ended, Fault, Stop};
use crate::intake::{Action, Intake};
use arrayvec::ArrayVec;
use hx_engine::{DeskError, Exchange, Journal, Pass, SubmitError, Venue};
use hx_market::{Bytes, Event};
use hx_soup::{Framer, FramerError, SoupPacket};
use hx_units::{MemberNo, NoMemory};
use hx_wake::{Source, Waker};
use std::alloc::Global;
use std::io::{Error, ErrorKind, Read};
use std::sync::Wait;
use std::time::Duration;

// The most bytes of the stream that are taken at once, some eighty messages: one submit of all of them waits for the lock
// once.
const PIECE: usize = 4096;

// The same if no other thread is at the lock: their replies go out before the next messages are read, so that a client
// that sends much and the exchange work at the same time.
const SHORT_PIECE: usize = 2048;

// The time that a session rests at once, in nanoseconds.
const SLICE: u64 = 5_000_000;

/// The member that is logged in: the exchange to which its messages go, the gate that is called around each of them,
/// the member whose replies it gets, and whether it may send messages. A drop copy may not.
#[derive(Drop)]
pub struct Trader<'a, V: Venue, J: Journal + Drop, G> {
    pub exchange: &'a Exchange<V, J>,
    pub gate: &'a G,
    pub member: MemberNo,
    pub may_send: bool,
}

/// What submits the member's messages: its pass, the clock of their times, the number of the last one in this session,
/// and what the session owes for them.
#[derive(Drop)]
pub struct Sender<V: Venue, C> {
    pub pass: Pass<V>,
    pub clock: C,
    pub number: u64,
    pub debt: Debt,
}

impl<V: Venue, C> Sender<V, C> {
    // Adds what the session owes for the orders that the market has passed over for its events since the last time.
    fn owe<J: Journal + Drop>(&mut self, exchange: &Exchange<V, J>)
        ensures { self.new.pass ≡ self.old.pass }
    {
        self.debt.grow(exchange.rest_for(self.pass.take_passed()));
    }

    // Sleeps for what the session owes, or at most for `limit`: a few milliseconds, since its replies wait meanwhile.
    fn rest(&mut self, limit: Duration)
        ensures { self.new.pass ≡ self.old.pass }
    {
        let slice = Duration::from_nanos(self.debt.nanos.min(SLICE)).min(limit);
        // No thread wakes this waker.
        Waker::new().sleep(slice);
        self.debt.pay(u64::from(slice.subsec_nanos()));
    }
}

/// What it has, and gives back.
#[derive(Drop)]
pub struct Inbox<V: Venue, R, C> {
    pub input: R,
    pub sender: Sender<V, C>,
}

// The fault of a session whose message the exchange did not record.
fn fault_of(error: SubmitError) -> Fault {
    match error {
        SubmitError::Refused(DeskError::NoMemory) => Fault::NoMemory,
        SubmitError::Refused(error) => Fault::Refused(error),
        SubmitError::Stopped => Fault::Stopped,
    }
}

// What packets ask for: messages to submit, and why the session stops after them, if it does.
#[derive(Drop)]
struct Gathered {
    events: Vec<Event>,
    stop: Option<Stop>,
}

impl Gathered {
    // These events, and after them the session stops.
    fn until(events: Vec<Event>, stop: Stop) -> Gathered
        ensures { result ≡ record { events = events; stop = Some stop } }
    {
        Gathered {
            events,
            stop: Some(stop),
        }
    }
}

// Puts a message of the member after others.
fn add_message(
    alloc: Global,
    events: &mut Vec<Event>,
    member: MemberNo,
    time: u64,
    payload: &ArrayVec<u8, 1023>,
) -> Result<(), NoMemory>
    ensures ok { OnOk result (events.new.items
        ≡ events.old.items ++ Message member time payload.now.items ∷ []) }
    ensures err { OnErr result (events.new.items ≡ events.old.items) }
{
    events.reserve(1)?;
    let bytes = Bytes::of(alloc, payload.as_slice())?;
    events.push_reserved(Event::Message {
        member: member.get(),
        time,
        bytes,
    });
    Ok(())
}

// Gathers the messages of packets after the login, up to a logout or a fault, and, if nothing may be sent, up to the
// first of them. They bear the time at which they are read.
fn gather<C: Clock>(
    alloc: Global,
    member: MemberNo,
    may_send: bool,
    clock: &mut C,
    packets: Vec<SoupPacket>,
) -> Gathered
    ensures gathers { Gathers member packets.items result.events.items result.stop }
    ensures silent { may_send ≡ false → result.events.items ≡ [] }
{
    let mut events = Vec::new(alloc);
    let mut intake = Intake::Open;
    let time = clock.now();
    for packet in packets {
        match intake.packet(&packet) {
            Action::Submit => {
                if !may_send {
                    return Gathered::until(events, Stop::Faulted(Fault::Framing));
                }
                match add_message(alloc, &mut events, member, time, &packet.payload) {
                    Ok(()) => {}
                    Err(_) => return Gathered::until(events, Stop::Faulted(Fault::NoMemory)),
                }
            }
            Action::Ignore => {}
            Action::Logout => return Gathered::until(events, Stop::Ended(Ended::Logout)),
            Action::Login(_) | Action::Fault => {
                return Gathered::until(events, Stop::Faulted(Fault::Framing));
            }
        }
    }
    Gathered { events, stop: None }
}

// Calls the gate before each message with a number above `later`, up to `last`.
fn open_gate<G: Gate>(gate: &G, member: MemberNo, later: u64, last: u64) {
    for number in later..last {
        gate.before(member, number.saturating_add(1));
    }
}

// Calls the gate after each message with a number above `later`, up to `last`.
fn close_gate<G: Gate>(gate: &G, member: MemberNo, later: u64, last: u64) {
    for number in later..last {
        gate.after(member, number.saturating_add(1));
    }
}

// Submits events, in the number of turns at the lock that they take. Between two of them the session rests a little, so
// that other threads get the lock, whichever it would let in first.
fn submit_all<V: Venue, J: Journal + Drop, C, T: Wait>(
    rt: &T,
    exchange: &Exchange<V, J>,
    sender: &mut Sender<V, C>,
    events: Vec<Event>,
) -> Result<(), Fault>
    ensures pass { CarriesOn true sender.old.pass sender.new.pass }
    ensures ok { OnOk result (SendsOn sender.old.pass.sent sender.new.pass.sent events.items) }
    ensures err { OnErr result (SendsSome sender.old.pass.sent sender.new.pass.sent events.items) }
{
    let mut left = events;
    'turns: while !left.is_empty() {
        let done = exchange.submit_all(rt, &mut sender.pass, left);
        sender.owe(exchange);
        match done {
            Ok(submitted) => left = submitted.rest,
            Err((error, _)) => return Err(fault_of(error)),
        }
        if !left.is_empty() {
            sender.rest(Duration::from_nanos(SLICE));
        }
    }
    Ok(())
}

// Submits messages of the member.
fn submit<V: Venue, J: Journal + Drop, C: Clock, G: Gate, T: Wait>(
    rt: &T,
    trader: &Trader<'_, V, J, G>,
    sender: &mut Sender<V, C>,
    events: Vec<Event>,
) -> Result<(), Fault>
    requires silent { trader.now.may_send ≡ false → events.items ≡ [] }
    ensures pass { CarriesOn trader.now.may_send sender.old.pass sender.new.pass }
    ensures ok { OnOk result (SendsOn sender.old.pass.sent sender.new.pass.sent events.items) }
    ensures err { OnErr result (SendsSome sender.old.pass.sent sender.new.pass.sent events.items) }
{
    if events.is_empty() {
        return Ok(());
    }
    let later = sender.number;
    sender.number = later.saturating_add(events.len() as u64);
    open_gate(trader.gate, trader.member, later, sender.number);
    let done = submit_all(rt, trader.exchange, sender, events);
    close_gate(trader.gate, trader.member, later, sender.number);
    done
}

// Acts on packets after the login, up to a logout or a fault.
fn act<V: Venue, J: Journal + Drop, C: Clock, G: Gate, T: Wait>(
    rt: &T,
    alloc: Global,
    trader: &Trader<'_, V, J, G>,
    sender: &mut Sender<V, C>,
    packets: Vec<SoupPacket>,
) -> Result<(), Stop>
    ensures pass { CarriesOn trader.now.may_send sender.old.pass sender.new.pass }
    ensures acted { Acted trader.now.member
        sender.old.pass.sent sender.new.pass.sent packets.items result }
{
    let Gathered { events, stop } = gather(
        alloc,
        trader.member,
        trader.may_send,
        &mut sender.clock,
        packets,
    );
    match submit(rt, trader, sender, events) {
        Ok(()) => {}
        Err(fault) => return Err(Stop::Faulted(fault)),
    }
    match stop {
        Some(stop) => Err(stop),
        None => Ok(()),
    }
}

// Acts on the packets before a fault of the stream, and says why the session stops.
fn act_last<V: Venue, J: Journal + Drop, C: Clock, G: Gate, T: Wait>(
    rt: &T,
    alloc: Global,
    trader: &Trader<'_, V, J, G>,
    sender: &mut Sender<V, C>,
    packets: Vec<SoupPacket>,
) -> Stop
    ensures pass { CarriesOn trader.now.may_send sender.old.pass sender.new.pass }
    ensures acted { (done : List (List ℕ))
        × Submits trader.now.member sender.old.pass.sent sender.new.pass.sent done
        × ActedUntil packets.items done result }
{
    match act(rt, alloc, trader, sender, packets) {
        Ok(()) => Stop::Faulted(Fault::Framing),
        Err(stop) => stop,
    }
}

// Takes a piece of the stream in, and acts on the packets that are whole with it.
fn take<V: Venue, J: Journal + Drop, C: Clock, G: Gate, T: Wait>(
    rt: &T,
    alloc: Global,
    trader: &Trader<'_, V, J, G>,
    sender: &mut Sender<V, C>,
    framer: &mut Framer,
    piece: &[u8],
) -> Result<(), Stop>
    requires { IsSome framer.old }
    ensures pass { CarriesOn trader.now.may_send sender.old.pass sender.new.pass }
    ensures takes { Takes trader.now.member framer.old framer.new piece.now
        sender.old.pass.sent sender.new.pass.sent result }
{
    match framer.feed(alloc, piece) {
        Ok(packets) => act(rt, alloc, trader, sender, packets),
        Err(
            FramerError::TooLong {
                before,
                length: _bad,
            },
        ) => Err(act_last(rt, alloc, trader, sender, before)),
        Err(FramerError::Empty { before }) => Err(act_last(rt, alloc, trader, sender, before)),
        Err(FramerError::NoMemory) => Err(Stop::Faulted(Fault::NoMemory)),
        Err(FramerError::Failed) => Err(Stop::Faulted(Fault::Framing)),
    }
}

/// Whether a read that failed so may be tried again.
pub fn is_passing(error: &Error) -> bool {
    matches!(
        error.kind(),
        ErrorKind::Interrupted | ErrorKind::WouldBlock | ErrorKind::TimedOut
    )
}

// Takes a piece of the stream in, as much as has come and fits the buffer: the packets that are whole with it are acted
// on.
fn read_piece<V: Venue, J: Journal + Drop, R: Read, C: Clock, G: Gate, T: Wait>(
    rt: &T,
    alloc: Global,
    trader: &Trader<'_, V, J, G>,
    inbox: &mut Inbox<V, R, C>,
    framer: &mut Framer,
    buffer: &mut [u8],
) -> Result<(), Stop>
    requires framer { IsSome framer.old }
    requires room { 0 < length buffer.old }
    ensures pass { CarriesOn trader.now.may_send inbox.old.sender.pass inbox.new.sender.pass }
    ensures more { TakesMore trader.now.member
        (R.remaining inbox.old.input) (R.remaining inbox.new.input) framer.old framer.new
        inbox.old.sender.pass.sent inbox.new.sender.pass.sent result }
{
    match inbox.input.read(buffer) {
        Ok(0) => Err(Stop::Ended(Ended::ReaderEnd)),
        Ok(count) => {
            let piece = &buffer[..count];
            take(rt, alloc, trader, &mut inbox.sender, framer, piece)
        }
        Err(error) => {
            if !is_passing(&error) {
                return Err(Stop::Faulted(Fault::Read));
            }
            Ok(())
        }
    }
}

/// Sleeps until there is something to do, at most for `limit`, and takes a piece of the stream in, if one has come: the
/// packets that are whole with it are acted on. A session that owes a rest takes nothing in before that is over.
pub fn receive<V: Venue, J: Journal + Drop, R: Read + Source, C: Clock, G: Gate, T: Wait>(
    rt: &T,
    alloc: Global,
    trader: &Trader<'_, V, J, G>,
    inbox: &mut Inbox<V, R, C>,
    framer: &mut Framer,
    limit: Duration,
) -> Result<(), Stop>
    requires { IsSome framer.old }
    ensures pass { CarriesOn trader.now.may_send inbox.old.sender.pass inbox.new.sender.pass }
    ensures more { TakesMore trader.now.member
        (R.remaining inbox.old.input) (R.remaining inbox.new.input) framer.old framer.new
        inbox.old.sender.pass.sent inbox.new.sender.pass.sent result }
{
    let waker = trader.exchange.waker(&inbox.sender.pass);
    if inbox.sender.debt.is_due() {
        inbox.sender.rest(limit);
        return Ok(());
    }
    if !inbox.input.wait(waker, limit) {
        if trader.exchange.failure(rt).is_some() {
            return Err(Stop::Faulted(Fault::Stopped));
        }
        return Ok(());
    }
    if trader.exchange.is_busy() {
        read_piece(rt, alloc, trader, inbox, framer, &mut [0; PIECE])
    } else {
        read_piece(rt, alloc, trader, inbox, framer, &mut [0; SHORT_PIECE])
    }
}
