//! Worked days in words, and their bytes.
//!
//! An event is a line `TIME MEMBER ..`. Below it, two spaces in, is its output: `F NUMBER ..`, a message of the feed,
//! and `M MEMBER NUMBER ..`, a reply. The output carries the time of its event. Prices are dollars with four decimals;
//! `1.2` is the second private reference of member 1.
//!
//! ```text
//! 10 1 enter T1 buy 100 ABCD 10.0000 day shown
//!   F 1 add 1 buy 100 ABCD 10.0000
//!   M 1 1 accepted 1
//! 20 2 enter S1 sell 40 ABCD 10.0000 now hidden
//!   F 2 executed 1 40 match 1
//!   M 2 1 accepted 2.1
//!   M 1 2 executed T1 40 10.0000 added match 1
//!   M 2 2 executed S1 40 10.0000 removed match 1
//! ```

mod messages;
mod published;
mod replies;
mod word;

use crate::lines::last_lines;
use hx_itch::encode;
use hx_ouch::{Inbound, encode_in, encode_out};
use hx_units::Nanos;
use messages::message;
use published::published;
use replies::{Answered, reply};
use std::alloc::Global;
use std::test::Fail;
use word::Words;

/// A worked day as bytes: the lines of its tape, and those that are written for it.
#[derive(Drop)]
pub struct Day {
    /// The lines that are read.
    pub tape: Vec<u8>,
    /// The lines that are written.
    pub output: Vec<u8>,
}

// The event above the lines that are read.
#[derive(Clone, Copy)]
struct Current {
    time: Nanos,
    message: Option<Inbound>,
}

impl Day {
    /// The bytes of a day in words.
    pub fn of(alloc: Global, text: &str) -> Result<Day, Fail> {
        let mut day = Day {
            tape: Vec::new(alloc),
            output: Vec::new(alloc),
        };
        let mut current = Current {
            time: Nanos::of(0).ok_or("no time")?,
            message: None,
        };
        let mut rest = text;
        for _ in 0..u64::MAX {
            let Some((line, others)) = rest.split_once('\n') else {
                break;
            };
            day.take(alloc, line, &mut current)?;
            rest = others;
        }
        Ok(day)
    }

    /// The day without its first line, and without the first line that is written.
    pub fn without_first(&self, alloc: Global) -> Result<Day, Fail> {
        Ok(Day {
            tape: last_lines(&self.tape, 1).to_vec(alloc)?,
            output: last_lines(&self.output, 1).to_vec(alloc)?,
        })
    }

    // One more line in words.
    fn take(&mut self, alloc: Global, line: &str, current: &mut Current) -> Result<(), Fail> {
        if let Some(outputs) = line.strip_prefix("  F ") {
            self.publish(alloc, Words::of(outputs), current.time)
        } else if let Some(outputs) = line.strip_prefix("  M ") {
            self.answer(alloc, Words::of(outputs), *current)
        } else {
            *current = self.enter(alloc, Words::of(line))?;
            Ok(())
        }
    }

    // A line of the tape.
    fn enter(&mut self, alloc: Global, mut words: Words) -> Result<Current, Fail> {
        let time = words.time()?;
        let member = words.number()?;
        let message = message(&mut words)?;
        let digits = match &message {
            Some(message) => hex::encode(alloc, encode_in(message).as_slice())?,
            None => words.payload(alloc)?,
        };
        let line = format!(in alloc; "{} {member} {digits}\n", time.get())?;
        self.tape.extend_from_slice(line.as_bytes())?;
        Ok(Current { time, message })
    }

    // A message of the feed.
    fn publish(&mut self, alloc: Global, mut words: Words, time: Nanos) -> Result<(), Fail> {
        let number = words.number()?;
        let message = published(&mut words, time)?;
        let digits = hex::encode(alloc, encode(&message).as_slice())?;
        let line = format!(in alloc; "F {number} {digits}\n")?;
        self.output.extend_from_slice(line.as_bytes())?;
        Ok(())
    }

    // A reply.
    fn answer(&mut self, alloc: Global, mut words: Words, current: Current) -> Result<(), Fail> {
        let member = words.number()?;
        let number = words.number()?;
        let answered = Answered {
            member,
            time: current.time.get(),
            message: current.message,
        };
        let digits = hex::encode(alloc, encode_out(&reply(&mut words, &answered)?).as_slice())?;
        let line = format!(in alloc; "M {member} {number} {digits}\n")?;
        self.output.extend_from_slice(line.as_bytes())?;
        Ok(())
    }
}
