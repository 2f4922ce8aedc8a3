//! The events of lines.
ghost use Rattle.std.specs.Prelude.{◌≡◌, true, false, IfOk, IfSome, IfNone, OnSome};
ghost use Rattle.hx_tape_lines.specs.Text.{entry_of};
ghost use Rattle.hx_tape_lines.specs.Events.{event_of, is_unknown, IsLineOf, IsNoLine};

use crate::line::{Fields, read_in};
use hx_rules::{Bytes, Event, decode_operator};
use hx_units::NoMemory;
use std::alloc::Global;

/// The event of an entry: a member's message, its bytes in the memory of others, or what the operator's bytes say, if
/// they say something.
pub fn event_of(alloc: Global, buffer: Bytes, fields: Fields<'_>) -> Result<Option<Event>, NoMemory>
    ensures event { IfOk result (λ o.
        IfSome o (λ event. event ≡ event_of (entry_of fields.entry))) }
    ensures known { IfOk result (λ o. OnSome o (is_unknown (entry_of fields.entry) ≡ false)) }
    ensures unknown { IfOk result (λ o. IfNone o (is_unknown (entry_of fields.entry) ≡ true)) }
{
    if fields.member == 0 {
        return Ok(decode_operator(fields.time, fields.bytes));
    }
    Ok(Some(Event::Message {
        member: fields.member,
        time: fields.time,
        bytes: buffer.replaced_by(alloc, fields.bytes)?,
    }))
}

/// The event of a line, if it is one: its digits are read into a buffer, and its bytes reuse the memory of others.
pub fn read_event(
    alloc: Global,
    room: &mut Vec<u8>,
    buffer: Bytes,
    text: &[u8],
) -> Result<Option<Event>, NoMemory>
    ensures some { IfOk result (λ o. IfSome o (IsLineOf text.now)) }
    ensures none { IfOk result (λ o. IfNone o (IsNoLine text.now)) }
{
    let Some(fields) = read_in(room, text)? else {
        return Ok(None);
    };
    event_of(alloc, buffer, fields)
}
