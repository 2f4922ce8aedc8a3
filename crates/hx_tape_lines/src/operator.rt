//! The lines of a tape that are the operator's.
ghost use Rattle.std.specs.Prelude.{◌≡◌, IfOk, IfSome, IfNone};
ghost use Rattle.hx_tape_lines.specs.Operators.{IsOperatorLine, IsNoOperatorLine};

use crate::line::read_in;
use hx_rules::{Event, decode_operator};
use std::alloc::{AllocError, Global};

/// The event of a line of the operator: a tape's line of member 0 whose bytes say something. It takes memory.
pub fn read_operator_line(alloc: Global, text: &[u8]) -> Result<Option<Event>, AllocError>
    ensures some { IfOk result (λ o. IfSome o (IsOperatorLine text.now)) }
    ensures none { IfOk result (λ o. IfNone o (IsNoOperatorLine text.now)) }
{
    let mut room = Vec::new(alloc);
    let Some(fields) = read_in(&mut room, text)? else {
        return Ok(None);
    };
    if fields.member != 0 {
        return Ok(None);
    }
    Ok(decode_operator(fields.time, fields.bytes))
}
