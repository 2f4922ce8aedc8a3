//! The market alone, and a desk alone: one thread, and no lock.
ghost use Rattle.std.specs.Prelude.{◌≡◌, length};

use crate::failure::Failure;
use crate::report::report;
use crate::tape::day_setup;
use hx_blog::Log;
use hx_desk::{Desk, DeskError, Entry};
use hx_levels::LevelBook;
use hx_market::{Event, Market, Output, PrepareError};
use std::alloc::Global;
use std::rt::Clock;
use std::time::Instant;

/// The number of messages for which the log of a feed has room.
pub const CAPACITY: u64 = 1_000_000;

// The numbers of feed messages and of replies in the output.
#[derive(Clone, Copy)]
struct EventOutput {
    feed: u64,
    replies: u64,
}

// Applies all events; their output goes into the same lists, which are emptied before each.
fn apply_all(
    market: &mut Market<LevelBook>,
    output: &mut Output,
    events: &[Event],
) -> Result<EventOutput, PrepareError> {
    let (mut feed, mut replies) = (0u64, 0u64);
    for event in events {
        output.feed.clear();
        output.replies.clear();
        market.apply(event, output)?;
        feed = feed.saturating_add(output.feed.len() as u64);
        replies = replies.saturating_add(output.replies.len() as u64);
    }
    Ok(EventOutput { feed, replies })
}

/// The market alone: no log, no history, and no rows of replies.
pub fn market_rate<R: Print + Eprint + Clock>(
    rt: &R,
    alloc: Global,
    events: &[Event],
) -> Result<(), Failure> {
    let mut market = Market::new(alloc, day_setup(alloc)?, LevelBook::new(alloc))?;
    let mut output = Output {
        feed: Vec::new(alloc),
        replies: Vec::new(alloc),
    };
    let begun = Instant::now(rt)?;
    let outputs = apply_all(&mut market, &mut output, events)?;
    report(rt, begun, "the market alone", events.len() as u64, "events")?;
    println!(rt; "feed {}, replies {}", outputs.feed, outputs.replies)?;
    Ok(())
}

// Each event is submitted on its own.
fn record_all(desk: &mut Desk, log: &Log<Entry>, events: &[Event]) -> Result<(), DeskError>
    requires log { desk.old.log ≡ log.now }
    requires outputs { desk.old.published_end ≡ length desk.old.history }
{
    for event in events {
        desk.submit(log, 1, event)?;
    }
    Ok(())
}

// Reports the rate at which a desk records events.
fn report_desk<R: Print + Eprint + Clock>(
    rt: &R,
    desk: &mut Desk,
    log: &Log<Entry>,
    events: &[Event],
) -> Result<(), Failure>
    requires log { desk.old.log ≡ log.now }
    requires outputs { desk.old.published_end ≡ length desk.old.history }
{
    let begun = Instant::now(rt)?;
    record_all(desk, log, events)?;
    report(rt, begun, "a desk alone", events.len() as u64, "events")?;
    println!(rt; "feed {}", desk.feed_count())?;
    Ok(())
}

/// A desk alone: the market, the log, the history and the replies.
pub fn desk_rate<R: Print + Eprint + Clock>(
    rt: &R,
    alloc: Global,
    events: &[Event],
) -> Result<(), Failure> {
    let (log, writer, _reader) = Log::<Entry>::new(alloc, CAPACITY)?;
    let mut desk = Desk::new(alloc, day_setup(alloc)?, writer)?;
    report_desk(rt, &mut desk, &log, events)
}
