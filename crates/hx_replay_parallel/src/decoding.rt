//! Lines that are read before they are applied.
ghost use Rattle.std.specs.Prelude.{◌≡◌, ◌<◌, ◌↔◌, ◌++◌, ◌∷◌, [], IfOk, IfSome, OnOk, OnErr, IsTrue, length, true, false};
ghost use Rattle.hx_tape_lines.specs.Events.{IsLineOf};
ghost use Rattle.hx_replay_parallel.specs.Ahead.{TakesLines, IsAhead};

use hx_market::{Bytes, Event};
use hx_replay::Pending;
use hx_tape_lines::read_event;
use hx_units::{NoMemory, split_once};
use std::alloc::Global;
use std::marker::Model;
use std::mem::replace;

/// The events of lines that are read and not yet applied. Contracts see the list of them.
#[derive(Drop)]
pub(crate) struct Ahead {
    // The events, and after them others that are applied: their bytes are reused for the next ones.
    events: Vec<Event>,
    count: usize,
    // A buffer for the digits of a line, which the thread that reads reuses from line to line.
    digits: Vec<u8>,
}

impl Model for Ahead {
    ghost use Rattle.std.specs.Prelude.{◌≤◌, List, length, take};
    ghost use Rattle.hx_rules.specs.declared.event.Event.{Event};

    ghost Value = { List Event };

    ghost view = { λ a. take a.count a.events.items };

    ghost invariant = { λ a. a.count ≤ length a.events.items };
}

// At most this number of lines is read for a turn.
const LINES: usize = 256;

impl Ahead {
    /// None yet.
    pub(crate) fn new(alloc: Global) -> Ahead
        ensures { result ≡ [] }
    {
        Ahead {
            events: Vec::new(alloc),
            count: 0,
            digits: Vec::new(alloc),
        }
    }

    /// The events.
    pub(crate) fn events(&self) -> &[Event]
        ensures { result.now ≡ self.now }
    {
        &self.events[..self.count]
    }

    /// Whether there are none.
    pub(crate) fn is_empty(&self) -> bool
        ensures { IsTrue result ↔ (length self.now ≡ 0) }
    {
        self.count == 0
    }

    // A buffer for the bytes of the next event. What it holds is of no use.
    fn index(&mut self) -> Bytes
        ensures { self.new ≡ self.old }
    {
        if self.count < self.events.len() {
            let applied = replace(&mut self.events[self.count], Event::Tick { time: 0 });
            if let Event::Message { bytes, .. } = applied {
                return bytes;
            }
        }
        Bytes::none()
    }

    // Returns the event of a line, if it is one. Its bytes go into the buffer of an event that is applied.
    fn read_line(&mut self, alloc: Global, line: &[u8]) -> Result<Option<Event>, NoMemory>
        ensures some { IfOk result (λ o. IfSome o (IsLineOf line.now)) }
        ensures same { self.new ≡ self.old }
    {
        let index = self.index();
        read_event(alloc, &mut self.digits, index, line)
    }

    // Puts an event after the others.
    fn push(&mut self, event: Event) -> Result<(), NoMemory>
        ensures { OnOk result (self.new ≡ self.old ++ event ∷ []) }
    {
        if self.count < self.events.len() {
            self.events[self.count] = event;
        } else {
            self.events.push(event)?;
        }
        self.count += 1;
        Ok(())
    }

    // Takes lines of a text after those that are here, up to the number for a turn, and returns what follows them:
    // nothing, a line that is none, or lines beyond that number.
    fn take_lines<'a>(&mut self, alloc: Global, text: &'a [u8]) -> Result<&'a [u8], NoMemory>
        ensures { IfOk result (λ rest. TakesLines text.now self.old self.new rest.now) }
    {
        let mut rest = text;
        for _ in self.count..LINES {
            let Some((line, others)) = split_once(rest, b'\n') else {
                return Ok(rest);
            };
            let Some(event) = self.read_line(alloc, line)? else {
                return Ok(rest);
            };
            self.push(event)?;
            rest = others;
        }
        Ok(rest)
    }

    // The same of bytes that are pending.
    fn take_pending(&mut self, alloc: Global, pending: &mut Pending) -> Result<(), NoMemory>
        ensures taken { OnOk result (TakesLines pending.old self.old self.new pending.new) }
        ensures err { OnErr result (pending.new ≡ pending.old) }
    {
        let rest = self.take_lines(alloc, pending.text())?.len();
        pending.keep(rest);
        Ok(())
    }

    /// Replaces the lines by the next ones of what is pending: the number for a turn, or all. When out of memory, all
    /// stay pending.
    pub(crate) fn read(&mut self, alloc: Global, pending: &mut Pending) -> Result<(), NoMemory>
        ensures ok { OnOk result (IsAhead pending.old self.new pending.new) }
        ensures err { OnErr result (pending.new ≡ pending.old) }
    {
        self.count = 0;
        self.take_pending(alloc, pending)
    }
}
