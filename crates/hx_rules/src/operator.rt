//! The operator's bytes.
ghost use Rattle.std.specs.Prelude.{◌≡◌};
ghost use Rattle.hx_rules.specs.OperatorMessages.{event_of_letter, operator_event};

use crate::event::Event;
use crate::letters;
use hx_units::Symbol;
use hx_units::fields::{array_at, u64_at};

// The event of a letter.
fn event_of_letter(time: u64, letter: u8) -> Option<Event>
    ensures { result ≡ event_of_letter time letter }
{
    match letter {
        letters::TICK => Some(Event::Tick { time }),
        letters::START_OF_MESSAGES
        | letters::START_OF_SYSTEM_HOURS
        | letters::START_OF_MARKET_HOURS
        | letters::END_OF_MARKET_HOURS
        | letters::END_OF_SYSTEM_HOURS
        | letters::END_OF_MESSAGES => Some(Event::Hours { time, code: letter }),
        _ => None,
    }
}

/// The event of the operator's bytes: `K` is a tick, and `O`, `S`, `Q`, `M`, `E`, `C` are the codes of the hours
/// (ITCH 5.0, System Event Message); `H`, a stock, a state and a reason are a halt, and `B` and a match number are a
/// break. None for any other bytes.
pub fn decode_operator(time: u64, payload: &[u8]) -> Option<Event>
    ensures { result ≡ operator_event time payload.now }
{
    let letter = *payload.first()?;
    match (letter, payload.len()) {
        (letters::HALT, 14) => Some(Event::Halt {
            time,
            stock: Symbol(array_at(payload, 1)),
            state: payload[9],
            reason: array_at(payload, 10),
        }),
        (letters::BREAK, 9) => Some(Event::Break {
            time,
            number: u64_at(payload, 1),
        }),
        (_, 1) => event_of_letter(time, letter),
        _ => None,
    }
}
