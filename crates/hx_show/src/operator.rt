//! What the operator does, in words.
ghost use Rattle.std.specs.Prelude.{◌≡◌, ◌++◌, OnOk};
ghost use Rattle.hx_show.specs.Operators.{event_message, unreadable_message};

use crate::label::Label;
use crate::part::{Part, put_message};
use hx_rules::Event;
use std::alloc::AllocError;

/// Appends that a message cannot be read.
pub fn put_unreadable(out: &mut Vec<u8>) -> Result<(), AllocError>
    ensures { OnOk result (out.new.items ≡ out.old.items ++ unreadable_message) }
{
    out.extend_from_slice(b"unreadable message")
}

/// Appends an event of the operator; no event of a member is one.
pub fn put_event(out: &mut Vec<u8>, event: &Event) -> Result<(), AllocError>
    ensures { OnOk result (out.new.items ≡ out.old.items ++ event_message event.now) }
{
    match event {
        Event::Tick { .. } => put_message(out, "Tick", &[]),
        Event::Hours { code, .. } => {
            put_message(out, "Hours", &[Part::Letter(Label::HoursEvent, *code)])
        }
        Event::Halt {
            stock,
            state,
            reason,
            ..
        } => {
            let parts = [
                Part::Stock(*stock),
                Part::Letter(Label::TradingState, *state),
                Part::Reason(*reason),
            ];
            put_message(out, "Halt", &parts)
        }
        Event::Break { number, .. } => {
            put_message(out, "Break", &[Part::Number(Label::MatchNumber, *number)])
        }
        Event::Message { .. } => put_unreadable(out),
    }
}
