//! The events of commands.
ghost use Rattle.std.specs.Prelude.{◌≡◌, ◌∷◌, [], IfOk};
ghost use Rattle.hx_rules.specs.declared.event.Event.TheVariants as event;
ghost use Rattle.hx_operator.specs.Events.{events_of};

use crate::command::Command;
use hx_rules::Event;
use hx_units::Symbol;
use std::alloc::{AllocError, Global};

// The states of a stock (ITCH 5.0, Stock Trading Action Message: Trading State).
const HALTED: u8 = b'H';

const TRADING: u8 = b'T';

const NO_REASON: [u8; 4] = *b"    ";

// One event.
fn one(alloc: Global, event: Event) -> Result<Vec<Event>, AllocError>
    ensures { IfOk result (λ events. events.items ≡ event ∷ []) }
{
    let mut events = Vec::new(alloc);
    events.push(event)?;
    Ok(events)
}

// A code of the hours.
fn phase(alloc: Global, time: u64, code: u8) -> Result<Vec<Event>, AllocError>
    ensures { IfOk result (λ events. events.items ≡ event.Hours time code ∷ []) }
{
    one(alloc, Event::Hours { time, code })
}

// Two codes of the hours.
fn both(alloc: Global, time: u64, first: u8, second: u8) -> Result<Vec<Event>, AllocError>
    ensures { IfOk result (λ events.
        events.items ≡ event.Hours time first ∷ event.Hours time second ∷ []) }
{
    let mut events = phase(alloc, time, first)?;
    events.push(Event::Hours { time, code: second })?;
    Ok(events)
}

// A stock is halted, or trades again.
fn halt(
    alloc: Global,
    time: u64,
    stock: Symbol,
    state: u8,
    reason: [u8; 4],
) -> Result<Vec<Event>, AllocError>
    ensures { IfOk result (λ events. events.items ≡ event.Halt time stock state reason ∷ []) }
{
    one(
        alloc,
        Event::Halt {
            time,
            stock,
            state,
            reason,
        },
    )
}

/// The events of a command for the market, at this time, in nanoseconds since midnight: no event,
/// one, or two in their order. It takes memory.
pub fn events_of(alloc: Global, command: Command, time: u64) -> Result<Vec<Event>, AllocError>
    ensures { IfOk result (λ events. events.items ≡ events_of command time) }
{
    match command {
        Command::Start => both(alloc, time, b'O', b'S'),
        Command::Open => phase(alloc, time, b'Q'),
        Command::Close => phase(alloc, time, b'M'),
        Command::End => both(alloc, time, b'E', b'C'),
        Command::Code(code) => phase(alloc, time, code),
        Command::Halt { stock, reason } => halt(alloc, time, stock, HALTED, reason),
        Command::Resume { stock } => halt(alloc, time, stock, TRADING, NO_REASON),
        Command::Break { number } => one(alloc, Event::Break { time, number }),
        Command::Tick => one(alloc, Event::Tick { time }),
        Command::Status
        | Command::Disconnect(_)
        | Command::Allow(_)
        | Command::Refuse(_)
        | Command::Help => Ok(Vec::new(alloc)),
    }
}
