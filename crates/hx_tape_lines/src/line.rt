//! The lines of a tape.
ghost use Rattle.std.specs.Prelude.{◌≡◌, ◌≢◌, ◌∷◌, ◌++◌, IfSome, IfNone, IfOk};
ghost use Rattle.hx_tape_lines.specs.Text.{Entry, entry_of, IsEntry, line, HasParts};

use crate::decimal::{split_long_number, split_number};
use crate::hexadecimal::read_bytes;
use std::alloc::AllocError;

/// The bytes of the longest line, without its line feed.
pub const LONGEST_LINE: usize = 2066;

/// A timed message of a member. Its bytes are in the buffer that they were read into.
#[derive(Debug, Drop)]
pub struct Fields<'a> {
    pub time: u64,
    pub member: u16,
    pub bytes: &'a [u8],
}

// The time and the member of a line, and the digits of its message.
#[derive(Drop)]
struct Parts<'a> {
    time: u64,
    member: u16,
    digits: &'a [u8],
}

/// What a line says, if it is the event's one line. Its bytes are read into a buffer, over its former content: that
/// takes memory only if they are more than the buffer ever held.
pub fn read_in<'a>(room: &'a mut Vec<u8>, text: &[u8]) -> Result<Option<Fields<'a>>, AllocError>
    ensures found { IfOk result (λ o. IfSome o (λ e.
        (text.now ≡ line (entry_of e)) × IsEntry (entry_of e))) }
    ensures only { IfOk result (λ o. IfNone o ((e : Entry) → IsEntry e → text.now ≢ line e)) }
{
    let Some(parts) = parts_of(text) else {
        return Ok(None);
    };
    if !read_bytes(room, parts.digits)? {
        return Ok(None);
    }
    Ok(Some(Fields {
        time: parts.time,
        member: parts.member,
        bytes: room.as_slice(),
    }))
}

// The parts of a line, if time, member and length are those of a line.
fn parts_of(text: &[u8]) -> Option<Parts<'_>>
    ensures some { IfSome result (λ p. HasParts text.now p.time p.member p.digits.now) }
    ensures none { IfNone result ((e : Entry) → IsEntry e → text.now ≢ line e) }
{
    let (time, others) = split_long_number(text)?;
    let (member, digits) = split_number(others)?;
    if member >= 10_000 || digits.is_empty() || digits.len() > 2046 {
        return None;
    }
    Some(Parts {
        time,
        member: member as u16,
        digits,
    })
}
