//! Buffers that lines of a tape reuse, and output that is yet to be written.
ghost use Rattle.std.specs.Prelude.{◌≡◌, [], IfOk, IfSome, IfNone};
ghost use Rattle.hx_tape_lines.specs.Events.{IsLineOf, IsNoLine};

use crate::output_text::OutputText;
use crate::unwritten::Unwritten;
use hx_market::{Bytes, Event};
use hx_tape_lines::read_event;
use hx_units::NoMemory;
use std::alloc::Global;
use std::mem::replace;

/// Buffers for the digits of a line, for the bytes of a message, and for the output lines of events. Later ones take
/// memory only if they are longer than all before them, or more.
pub struct LineBuffers {
    // What the digits of a line say.
    digits: Vec<u8>,
    // The buffer for the bytes of an event, between two lines.
    buffer: Bytes,
    /// The output lines that are not yet written.
    pub lines: Unwritten,
    /// Room for those that are spelled.
    pub spelled: OutputText,
}

// By hand, so that when a value is dropped its owner's proof sees one call.
impl Drop for LineBuffers {
    fn drop(self) {
        let LineBuffers {
            digits: _,
            buffer: _,
            lines: _,
            spelled: _,
        } = self;
    }
}

impl LineBuffers {
    /// None yet.
    pub fn new(alloc: Global) -> LineBuffers
        ensures { result.lines ≡ [] }
    {
        LineBuffers {
            digits: Vec::new(alloc),
            buffer: Bytes::none(),
            lines: Unwritten::new(alloc),
            spelled: OutputText::new(alloc),
        }
    }

    /// Returns the event of a line, if it is one. Its bytes go into the stored buffer.
    pub(crate) fn read(&mut self, alloc: Global, text: &[u8]) -> Result<Option<Event>, NoMemory>
        ensures some { IfOk result (λ o. IfSome o (IsLineOf text.now)) }
        ensures none { IfOk result (λ o. IfNone o (IsNoLine text.now)) }
        ensures lines { self.new.lines ≡ self.old.lines }
    {
        let buffer = replace(&mut self.buffer, Bytes::none());
        read_event(alloc, &mut self.digits, buffer, text)
    }

    /// Stores the buffer of an event that is applied, for the bytes of the next one.
    pub(crate) fn keep_index(&mut self, event: Event)
        ensures { self.new.lines ≡ self.old.lines }
    {
        if let Event::Message { bytes, .. } = event {
            self.buffer = bytes;
        }
    }
}
