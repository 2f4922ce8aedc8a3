//! Measures parts of the exchange without sockets. Standard output has what was done, and standard error how long each
//! of it took, in nanoseconds. The words say what is measured:
//!
//! - `market`, `desk`: the events of a tape, through the market alone or through a desk;
//! - `exchange PASSES EACH [FILE]`: the events of a tape through an exchange, by `PASSES` passes, in a thread each,
//!   with `EACH` events a call; over a journal in a file, if one is named;
//! - `log MESSAGES`: messages through the log of a feed;
//! - `reader ORDERS RESTING`: the feed of `ORDERS` orders through a vendor's screen, with `RESTING` of them at rest;
//! - `transport MESSAGES`: packets through a framer, and messages through a publisher;
//! - `journal FILE GROUPS RECORDS AHEAD`: groups of records through a journal in a file, with zeros laid ahead;
//! - `small`: a little of each of these.
//!
//! A tape is read from standard input. Its members are 1 to 64, and its stocks ABCD and WXYZ.
#![tactic(auto)]

mod alone;
mod exchange_parts;
mod failure;
mod feed_log;
mod journal;
mod passes;
mod report;
mod screen;
mod small;
mod tape;
mod transport;

use crate::alone::{desk_rate, market_rate};
use crate::exchange_parts::{Sending, file_rate, memory_rate};
use crate::failure::Failure;
use crate::feed_log::log_rates;
use crate::journal::{Groups, journal_rate};
use crate::screen::screen_rate;
use crate::small::small_rates;
use crate::tape::read_tape;
use crate::transport::transport_rates;
use hx_market::Event;
use std::rt::{Env, Files};
use std::sync::Wait;
use std::thread::Threads;
use std::time::Clock;
use std::{env, fs};

fn number(word: &String) -> Result<u64, Failure> {
    word.as_str().parse::<u64>().map_err(|_| Failure::Words)
}

// The events of the tape on standard input.
fn events_of<R: AllocGlobal + Input>(rt: &R) -> Result<Vec<Event>, Failure> {
    read_tape(rt.alloc(), &mut rt.reader())
}

// What is measured of a tape: the market, a desk, or a little of each.
fn of_tape<R: AllocGlobal + Input + Print + Eprint + Threads + Wait + Clock + Sync>(
    rt: &R,
    what: &str,
) -> Result<(), Failure> {
    let alloc = rt.alloc();
    match what {
        "market" => market_rate(rt, alloc, &events_of(rt)?),
        "desk" => desk_rate(rt, alloc, &events_of(rt)?),
        "small" => small_rates(rt, alloc, &events_of(rt)?),
        _ => Err(Failure::Words),
    }
}

// What is measured by messages: the log of a feed, or a framer and a publisher.
fn of_messages<R: AllocGlobal + Print + Eprint + Clock + Threads>(
    rt: &R,
    what: &str,
    messages: &String,
) -> Result<(), Failure> {
    match what {
        "log" => log_rates(rt, rt.alloc(), number(messages)?),
        "transport" => transport_rates(rt, rt.alloc(), number(messages)?),
        _ => Err(Failure::Words),
    }
}

// A vendor's screen: how many orders are shown, and how many of them rest.
fn of_screen<R: AllocGlobal + Print + Eprint + Clock>(
    rt: &R,
    orders: &String,
    resting: &String,
) -> Result<(), Failure> {
    screen_rate(rt, rt.alloc(), number(orders)?, number(resting)?)
}

// An exchange, over a journal in a file, if one is named: by how many passes, and how many events a call.
fn of_exchange<
    R: AllocGlobal
        + Input
        + Print
        + Eprint
        + Files<File = fs::File>
        + Threads
        + Wait
        + Clock
        + Sync,
>(rt: &R, passes: &String, each: &String, file: Option<&String>) -> Result<(), Failure> {
    let sending = Sending::of(number(passes)?, number(each)?)?;
    let events = events_of(rt)?;
    match file {
        None => memory_rate(rt, rt.alloc(), sending, events),
        Some(file) => file_rate(rt, rt.alloc(), file.as_str(), sending, events),
    }
}

// A journal in a file: how many groups, how many records each has, and how many zeros are laid ahead.
fn of_journal<R: AllocGlobal + Print + Eprint + Files<File = fs::File> + Clock>(
    rt: &R,
    file: &String,
    [groups, records, ahead]: [&String; 3],
) -> Result<(), Failure> {
    let groups = Groups {
        groups: number(groups)?,
        records: number(records)?,
    };
    journal_rate(
        rt,
        rt.alloc(),
        file.as_str(),
        groups,
        number(ahead)? as usize,
    )
}

// What the words after the program's name ask for.
fn measure<
    R: AllocGlobal
        + Input
        + Print
        + Eprint
        + Files<File = fs::File>
        + Threads
        + Wait
        + Clock
        + Sync,
>(rt: &R, what: &str, words: &[String]) -> Result<(), Failure> {
    match words {
        [] => of_tape(rt, what),
        [messages] => of_messages(rt, what, messages),
        [orders, resting] if what == "reader" => of_screen(rt, orders, resting),
        [passes, each] if what == "exchange" => of_exchange(rt, passes, each, None),
        [passes, each, file] if what == "exchange" => of_exchange(rt, passes, each, Some(file)),
        [file, groups, records, ahead] if what == "journal" => {
            of_journal(rt, file, [groups, records, ahead])
        }
        _ => Err(Failure::Words),
    }
}

fn main(rt: HostRuntime) -> Result<(), Failure> {
    let words: Vec<String> = env::args(&rt)?.collect(rt.alloc())?;
    let [_, what, rest @ ..] = words.as_slice() else {
        return Err(Failure::Words);
    };
    measure(&rt, what.as_str(), rest)
}
