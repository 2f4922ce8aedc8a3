//! A day over the journal's file, from its beginning or from what the file has of it.
ghost use Rattle.std.specs.Prelude.{◌≡◌};
ghost use Rattle.hx_engine.specs.Opening.{IsNewLog};

use super::output::{EventOutput, hear};
use super::shared_file::SharedFile;
use super::{equal, holds};
use hx_engine::{
    Exchange, FinishError, Journal, JournalError, Pass, Recovered, SubmitError, Venue,
};
use hx_engine_testing::ground::{Ground, ground_of};
use hx_journal::{FileJournal, Head, Noted, OpenError};
use hx_market::Event;
use hx_members::{Seed, Setup};
use hx_recovery::{RecoveryError, Unwatched, recover};
use std::alloc::Global;
use std::marker::Brand;
use std::process::Abort;
use std::sync::Wait;
use std::test::*;

/// A day: the text of its setup, its events, and how many of them are sent at once, in turn.
#[derive(Clone, Copy)]
pub struct Day<'a> {
    pub setup: &'a [u8],
    pub events: &'a [Event],
    pub at_once: [usize; 4],
}

/// How a day went.
#[derive(Drop)]
pub struct Course {
    /// What was published of the events that the journal had, before another was sent.
    pub again: EventOutput,
    /// What was published in the end.
    pub output: EventOutput,
    /// How many events were answered, those that the journal had among them.
    pub answered: usize,
    /// Why the journal failed, if it did.
    pub failure: Option<JournalError>,
}

type Durable = FileJournal<Noted<SharedFile>>;

/// Runs a day over a file that has these bytes: the events that it has are published again, and the others are sent,
/// until the file fails.
pub fn apply<R: Wait + Abort>(
    rt: &R,
    alloc: Global,
    day: Day,
    file: SharedFile,
    bytes: &[u8],
) -> Result<Course, Fail> {
    let setup = Setup::read(alloc, day.setup).expect(rt, "a setup");
    let ground = ground_of(alloc, setup, 1000, 1)?;
    let head = Head::new(alloc, b"HX00000001", b"20260711", b"9fc2").expect(rt, "a head");
    Ok(match recover(alloc, file, bytes, &head, &Unwatched) {
        Ok(recovered) => go_on::<Brand, Durable, R>(rt, alloc, day, ground, recovered),
        Err(RecoveryError::Open(OpenError::Journal(error))) => {
            Course {
                again: EventOutput::nothing(rt, alloc),
                output: EventOutput::nothing(rt, alloc),
                answered: 0,
                failure: Some(error),
            }
        }
        Err(_) => panic!(rt; "the journal is damaged"),
    })
}

/// Runs a day over a journal that holds some of its events: the rest of the day is sent.
pub fn go_on<V: Venue, J: Journal + Drop, R: Wait + Abort>(
    rt: &R,
    alloc: Global,
    day: Day,
    ground: Ground,
    recovered: Recovered<J>,
) -> Course
    requires feed { IsNewLog V.log ground.logs.feed }
    requires admitted { IsNewLog V.admitted ground.logs.admitted }
    requires durable { IsNewLog V.durable ground.logs.durable }
    requires of_setup { ground.setup ≡ V.setup }
    requires before { recovered.events.items ≡ V.before }
    requires reader { ground.reader.log ≡ V.log }
    requires blank { (ground.blank.name ≡ V.name) × (ground.blank.parts ≡ V.parts) × (V.parts ≡ 1) }
{
    let Ground {
        setup,
        logs,
        blank,
        mut reader,
    } = ground;
    let first = recovered.events.len();
    let Ok((exchange, mut passes)) = Exchange::<V, J>::resume(
        alloc,
        setup,
        logs,
        recovered,
        blank,
        1,
        Seed::Fixed,
    ) else {
        panic!(rt; "an exchange");
    };
    let mut pass = passes.pop().expect(rt, "a pass");
    let again = hear(rt, alloc, &exchange, &mut reader);
    let (answered, stopped) = send_from(rt, alloc, &exchange, &mut pass, day, first);
    let output = hear(rt, alloc, &exchange, &mut reader);
    let failure = exchange.failure(rt);
    equal(rt, failure.is_some(), stopped);
    if stopped {
        // Nothing is recorded any more, and nothing published.
        let tick = exchange.submit(rt, &mut pass, &Event::Tick { time: 0 });
        equal(rt, tick, Err(SubmitError::Stopped));
        holds(rt, hear(rt, alloc, &exchange, &mut reader) == output);
    }
    // (no thread is left at the lock)
    holds(rt, !exchange.is_busy());
    passes.push(pass).expect(rt, "a place");
    expect_end(rt, exchange, passes, answered, stopped);
    Course {
        again,
        output,
        answered,
        failure,
    }
}

// Sends the events of a day from an index on, until the exchange stops. Returns the number of events that were
// answered, those before among them, and whether it stopped.
fn send_from<V: Venue, J: Journal + Drop, R: Wait + Abort>(
    rt: &R,
    alloc: Global,
    exchange: &Exchange<V, J>,
    pass: &mut Pass<V>,
    day: Day,
    first: usize,
) -> (usize, bool) {
    let mut answered = first;
    for turn in 0..day.events.len() {
        let batch = batch_from(rt, alloc, day, answered, turn);
        let count = batch.len();
        if count == 0 {
            break;
        }
        let done = exchange.submit_all(rt, pass, batch);
        exchange.wake_feed();
        match done {
            Ok(submitted) => {
                answered = answered.saturating_add(count.saturating_sub(submitted.rest.len()));
            }
            Err((SubmitError::Stopped, 0)) => return (answered, true),
            Err(_) => panic!(rt; "an event is refused"),
        }
    }
    (answered, false)
}

// The events that are sent in this turn.
fn batch_from<R: Abort>(rt: &R, alloc: Global, day: Day, first: usize, turn: usize) -> Vec<Event> {
    let size = day.at_once[turn % 4];
    let mut batch = Vec::new(alloc);
    for event in day.events.iter().skip(first).take(size) {
        let copy = event.copy().expect(rt, "a copy");
        batch.push(copy).expect(rt, "a place");
    }
    batch
}

// The exchange ends with the events that were answered, or does not end if it stopped.
fn expect_end<V: Venue, J: Journal + Drop, R: Abort>(
    rt: &R,
    exchange: Exchange<V, J>,
    passes: Vec<Pass<V>>,
    answered: usize,
    stopped: bool,
) {
    match exchange.finish(passes) {
        Ok(finished) => {
            holds(rt, !stopped);
            equal(rt, finished.history.len(), answered);
        }
        Err(FinishError::Stopped { .. }) => holds(rt, stopped),
        Err(FinishError::Missing { .. }) => panic!(rt; "all passes are there"),
    }
}
