//! The two directions of a session in a slot of the session table.

use crate::session_slots::SessionSlots;
use hx_listener::{Inlet, Outlet};
use hx_wake::{Source, Waker};
use std::io;
use std::io::{ErrorKind, Read, Write};
use std::time::Duration;

/// What a member sends. It ends if the operator calls the session off.
#[derive(Drop)]
pub struct SessionSlotInput<'a> {
    /// The line.
    pub inlet: Inlet,
    /// The session table, and the session's slot in it.
    pub session_slots: &'a SessionSlots,
    pub session_slot: usize,
}

impl<'a> Read for SessionSlotInput<'a> {
    fn read(&mut self, buffer: &mut [u8]) -> io::Result<usize> {
        if self.session_slots.is_called(self.session_slot) {
            return Ok(0);
        }
        self.inlet.read(buffer)
    }
}

impl<'a> Source for SessionSlotInput<'a> {
    fn wait(&self, waker: &Waker, limit: Duration) -> bool {
        self.session_slots.is_called(self.session_slot)
            || self.inlet.wait(waker, limit)
            || self.session_slots.is_called(self.session_slot)
    }

    fn takes_at_once(&self) -> bool {
        self.inlet.takes_at_once()
    }
}

/// What goes to a member. It fails once the time that sessions have after the day's end is over.
#[derive(Drop)]
pub struct SessionSlotOutput<'a> {
    /// The line.
    pub outlet: Outlet,
    /// The session table.
    pub session_slots: &'a SessionSlots,
}

impl<'a> Write for SessionSlotOutput<'a> {
    fn write(&mut self, bytes: &[u8]) -> io::Result<usize> {
        if self.session_slots.is_late() {
            return Err(io::Error::from(ErrorKind::TimedOut));
        }
        self.outlet.write(bytes)
    }

    fn flush(&mut self) -> io::Result<()> {
        self.outlet.flush()
    }
}
