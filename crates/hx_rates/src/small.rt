//! A little of each measurement, so that each of them is run wherever the program is.

use crate::alone::{desk_rate, market_rate};
use crate::exchange_parts::{Sending, memory_rate};
use crate::failure::Failure;
use crate::feed_log::log_rates;
use crate::journal::{Groups, memory_journal_rate};
use crate::screen::screen_rate;
use crate::tape::copy_all;
use crate::transport::transport_rates;
use hx_market::Event;
use std::alloc::Global;
use std::rt::Clock;
use std::sync::Wait;
use std::thread::Threads;

// The passes and the events a call.
const SENDINGS: [(u64, u64); 4] = [(1, 1), (1, 64), (3, 1), (3, 4)];

const MESSAGES: u64 = 1_000;

const RESTING: u64 = 100;

const GROUPS: Groups = Groups {
    groups: 10,
    records: 32,
};

// The market, a desk and an exchange.
fn small_days<R: Threads + Wait + Print + Eprint + Clock + Sync>(
    rt: &R,
    alloc: Global,
    events: &[Event],
) -> Result<(), Failure> {
    market_rate(rt, alloc, events)?;
    desk_rate(rt, alloc, events)?;
    for (passes, each) in SENDINGS {
        let sending = Sending::of(passes, each)?;
        memory_rate(rt, alloc, sending, copy_all(alloc, events)?)?;
    }
    Ok(())
}

/// Each once.
pub fn small_rates<R: Threads + Wait + Print + Eprint + Clock + Sync>(
    rt: &R,
    alloc: Global,
    events: &[Event],
) -> Result<(), Failure> {
    small_days(rt, alloc, events)?;
    log_rates(rt, alloc, MESSAGES)?;
    screen_rate(rt, alloc, MESSAGES, RESTING)?;
    transport_rates(rt, alloc, MESSAGES)?;
    memory_journal_rate(rt, alloc, GROUPS)
}
