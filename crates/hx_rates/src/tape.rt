//! The events of a tape, and the setup of its day.

use crate::failure::Failure;
use hx_market::{Bytes, Event};
use hx_members::Setup;
use hx_tape_lines::read_event;
use hx_units::{NoMemory, split_once};
use std::alloc::Global;
use std::io::Read;

// An open day with two stocks.
const HEAD: &str = "session HX00000001\nstart open\n\
    stock ABCD 5120000000644e435a20502020314e000000004e\n\
    stock WXYZ 5120000000644e435a20502020314e000000004e\n";

/// The most members of a tape.
pub const MEMBERS: u16 = 64;

/// The setup of an open day with two stocks and 64 members, each of which may send any number of messages.
pub fn day_setup(alloc: Global) -> Result<Setup, Failure> {
    let mut text = String::from_str(alloc, HEAD)?;
    for number in 1..=MEMBERS {
        let line = format!(in alloc; "member {number} FMA1 U{number} P{number} 4294967295\n")?;
        text.push_str(line.as_str())?;
    }
    Ok(Setup::read(alloc, text.as_bytes())?)
}

/// The events of a tape, each line of which ends with a line feed.
pub fn read_tape(alloc: Global, input: &mut impl Read) -> Result<Vec<Event>, Failure> {
    let mut text = Vec::new(alloc);
    input.read_to_end(&mut text)?;
    let mut events = Vec::new(alloc);
    let mut room = Vec::new(alloc);
    let mut rest = text.as_slice();
    while let Some((line, others)) = split_once(rest, b'\n') {
        let Some(event) = read_event(alloc, &mut room, Bytes::none(), line)? else {
            return Err(Failure::Tape);
        };
        events.push(event)?;
        rest = others;
    }
    if !rest.is_empty() {
        return Err(Failure::Tape);
    }
    Ok(events)
}

/// Copies of events.
pub fn copy_all(alloc: Global, events: &[Event]) -> Result<Vec<Event>, NoMemory> {
    let mut copies = Vec::with_capacity(alloc, events.len())?;
    for event in events {
        copies.push(event.copy()?)?;
    }
    Ok(copies)
}
