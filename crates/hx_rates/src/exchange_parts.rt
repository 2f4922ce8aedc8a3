//! An exchange, to which events are sent through passes.
ghost use Rattle.std.specs.Prelude.{◌≡◌, ◌≤◌, IfOk};
ghost use Rattle.hx_engine.specs.Opening.{IsNewLog, most_passes};

use crate::alone::CAPACITY;
use crate::failure::Failure;
use crate::journal::new_journal;
use crate::passes::{hire, passes_of, send_at_once};
use crate::report::report;
use crate::tape::{MEMBERS, day_setup};
use hx_blog::Log;
use hx_engine::{Entry, Exchange, Journal, Logs, Pass, Recovered, Venue};
use hx_journal::{HostFile, NullJournal};
use hx_market::Event;
use hx_members::{Seed, Setup};
use hx_units::NoMemory;
use std::alloc::Global;
use std::fs;
use std::marker::Brand;
use std::rt::{Clock, Files};
use std::sync::Wait;
use std::sync::ledger::Blank;
use std::thread::Threads;
use std::time::Instant;

/// The number of passes that send, 1 to 64, and the number of events of each of their calls, at least one.
#[derive(Clone, Copy)]
pub struct Sending {
    passes: u16,
    each: usize,
    ghost some: { 1 ≤ passes },
    ghost few: { passes ≤ most_passes },
}

impl Sending {
    /// `passes` passes and `each` events a call.
    pub fn of(passes: u64, each: u64) -> Result<Sending, Failure> {
        if passes == 0 || passes > u64::from(MEMBERS) || each == 0 {
            return Err(Failure::Words);
        }
        Ok(Sending {
            passes: passes as u16,
            each: each as usize,
        })
    }
}

// What an exchange is made of.
#[derive(Drop)]
struct ExchangeParts<J: Journal> {
    setup: Setup,
    logs: Logs,
    blank: Blank,
    recovered: Recovered<J>,
}

// Sends the events, and gives the passes back if none was refused.
fn send<
    V: Venue + Send + Sync,
    J: Journal + Drop + Send,
    R: Threads + Wait + Print + Eprint + Clock + Sync,
>(
    rt: &R,
    alloc: Global,
    exchange: &Exchange<V, J>,
    passes: Vec<Pass<V>>,
    each: usize,
    events: Vec<Event>,
) -> Result<Vec<Pass<V>>, Failure> {
    let count = events.len() as u64;
    let mut senders = hire(alloc, passes, each, events)?;
    let begun = Instant::now(rt)?;
    send_at_once(rt, alloc, exchange, &mut senders);
    report(rt, begun, "an exchange", count, "events")?;
    passes_of(alloc, senders)
}

// Ends the exchange, whose history must have `count` events.
fn end<V: Venue, J: Journal + Drop>(
    exchange: Exchange<V, J>,
    passes: Vec<Pass<V>>,
    count: u64,
) -> Result<(), Failure> {
    let Ok(finished) = exchange.finish(passes) else {
        return Err(Failure::Wrong);
    };
    if finished.history.len() as u64 != count {
        return Err(Failure::Wrong);
    }
    Ok(())
}

// Opens the exchange, and sends the events.
fn run<
    V: Venue + Send + Sync,
    J: Journal + Drop + Send,
    R: Threads + Wait + Print + Eprint + Clock + Sync,
>(
    rt: &R,
    alloc: Global,
    exchange_parts: ExchangeParts<J>,
    sending: Sending,
    events: Vec<Event>,
) -> Result<(), Failure>
    requires feed { IsNewLog V.log exchange_parts.logs.feed }
    requires admitted { IsNewLog V.admitted exchange_parts.logs.admitted }
    requires durable { IsNewLog V.durable exchange_parts.logs.durable }
    requires of_setup { exchange_parts.setup ≡ V.setup }
    requires before { exchange_parts.recovered.events.items ≡ V.before }
    requires blank { (exchange_parts.blank.name ≡ V.name) × (exchange_parts.blank.parts ≡ V.parts) }
    requires passes { sending.passes ≡ V.parts }
{
    let ExchangeParts {
        setup,
        logs,
        blank,
        recovered,
    } = exchange_parts;
    let (exchange, passes) = Exchange::<V, J>::resume(
        alloc,
        setup,
        logs,
        recovered,
        blank,
        sending.passes,
        Seed::Fixed,
    )?;
    let count = events.len() as u64;
    let passes = send(rt, alloc, &exchange, passes, sending.each, events)?;
    end(exchange, passes, count)
}

// The logs of a new exchange.
fn new_logs(alloc: Global) -> Result<Logs, NoMemory>
    ensures feed { IfOk result (λ logs. IsNewLog logs.feed.0 logs.feed) }
    ensures admitted { IfOk result (λ logs. IsNewLog logs.admitted.0 logs.admitted) }
    ensures durable { IfOk result (λ logs. IsNewLog logs.durable.0 logs.durable) }
{
    let (log, pen, _) = Log::<Entry>::new(alloc, CAPACITY)?;
    let (admitted, register, _) = Log::<Entry>::new(alloc, 1)?;
    let (durable, durable_writer, _) = Log::<Entry>::new(alloc, 1)?;
    Ok(Logs {
        feed: (log, pen),
        admitted: (admitted, register),
        durable: (durable, durable_writer),
    })
}

// Over a new journal, or what is there of one.
fn open_and_measure<J: Journal + Drop + Send, R: Threads + Wait + Print + Eprint + Clock + Sync>(
    rt: &R,
    alloc: Global,
    recovered: Recovered<J>,
    sending: Sending,
    events: Vec<Event>,
) -> Result<(), Failure> {
    let exchange_parts = ExchangeParts {
        logs: new_logs(alloc)?,
        setup: day_setup(alloc)?,
        blank: Blank::new(u64::from(sending.passes)),
        recovered,
    };
    run::<Brand, J, R>(rt, alloc, exchange_parts, sending, events)
}

/// An exchange over a journal that touches no disk.
pub fn memory_rate<R: Threads + Wait + Print + Eprint + Clock + Sync>(
    rt: &R,
    alloc: Global,
    sending: Sending,
    events: Vec<Event>,
) -> Result<(), Failure> {
    let recovered = Recovered {
        journal: NullJournal::new(),
        events: Vec::new(alloc),
    };
    open_and_measure(rt, alloc, recovered, sending, events)
}

/// An exchange over a new journal in a file of the system, which is synced for all waiting threads.
pub fn file_rate<
    R: Threads + Wait + Print + Eprint + Clock + Files<File = fs::File> + AllocGlobal + Sync,
>(rt: &R, alloc: Global, path: &str, sending: Sending, events: Vec<Event>) -> Result<(), Failure> {
    let (file, bytes) = HostFile::open(rt, path)?;
    let recovered = Recovered {
        journal: new_journal(alloc, file, &bytes)?,
        events: Vec::new(alloc),
    };
    open_and_measure(rt, alloc, recovered, sending, events)
}
