//! The lines of events.
ghost use Rattle.std.specs.Prelude.{◌≡◌, ◌++◌, ◌∷◌, [], true, OnOk, OnErr};
ghost use Rattle.hex.specs.Hex.{encode_lower};
ghost use Rattle.hx_rules.specs.OperatorMessages.{halt_bytes, break_bytes};
ghost use Rattle.hx_tape_lines.specs.Text.{line, entry_of_event, is_held, record_of, HasGrown};

use crate::decimal::write_number;
use arrayvec::ArrayVec;
use hx_rules::{Event, letters};
use hx_units::Symbol;
use hx_units::fields::{put, u64_bytes};
use std::alloc::{AllocError, Global};

// The most bytes of a short message: an Enter Order has 49.
const SHORT: usize = 64;

// The numbers of a line are such as its fields hold. It does nothing.
fn holds(_time: u64, _member: u16, _bytes: &[u8])
    ensures { is_held (record { time = _time; member = _member; bytes = _bytes.now }) ≡ true }
{}

// Appends the digits of some bytes, or none of them. Those of a short message take no memory of their own.
fn write_digits(alloc: Global, text: &mut Vec<u8>, bytes: &[u8]) -> Result<(), AllocError>
    ensures ok { OnOk result (text.new.items ≡ text.old.items ++ encode_lower bytes.now) }
    ensures err { OnErr result (text.new.items ≡ text.old.items) }
{
    if bytes.len() > SHORT {
        let digits = hex::encode(alloc, bytes)?;
        return text.extend_from_slice(digits.as_bytes());
    }
    let mut digits = [0; 2 * SHORT];
    let size = 2 * bytes.len();
    hex::encode_to_slice(bytes, &mut digits[..size]).unwrap();
    text.extend_from_slice(&digits[..size])
}

// Appends a line of a member, or of the operator, without its line feed, or a beginning of it.
fn write_line(
    alloc: Global,
    text: &mut Vec<u8>,
    time: u64,
    member: u16,
    bytes: &[u8],
) -> Result<(), AllocError>
    ensures ok { OnOk result (text.new.items ≡ text.old.items
        ++ line (record { time = time; member = member; bytes = bytes.now })) }
    ensures err { OnErr result (HasGrown text.old.items text.new.items
        (line (record { time = time; member = member; bytes = bytes.now }))) }
    ensures held { is_held (record { time = time; member = member; bytes = bytes.now }) ≡ true }
{
    holds(time, member, bytes);
    write_number(text, time)?;
    text.push(b' ')?;
    write_number(text, u64::from(member))?;
    text.push(b' ')?;
    write_digits(alloc, text, bytes)?;
    Ok(())
}

// The operator's bytes of a halt.
fn halt_bytes(stock: Symbol, state: u8, reason: [u8; 4]) -> ArrayVec<u8, 14>
    ensures { result.items ≡ halt_bytes stock state reason }
{
    let mut bytes = ArrayVec::new();
    bytes.push(letters::HALT);
    put(&mut bytes, &stock.0);
    bytes.push(state);
    put(&mut bytes, &reason);
    bytes
}

// The operator's bytes of a break.
fn break_bytes(number: u64) -> ArrayVec<u8, 9>
    ensures { result.items ≡ break_bytes number }
{
    let mut bytes = ArrayVec::new();
    bytes.push(letters::BREAK);
    put(&mut bytes, &u64_bytes(number));
    bytes
}

// Appends the line of an event, without its line feed, or a beginning of it.
fn spell(alloc: Global, text: &mut Vec<u8>, event: &Event) -> Result<(), AllocError>
    ensures ok { OnOk result (text.new.items ≡ text.old.items ++ line (entry_of_event event.now)) }
    ensures err { OnErr result (HasGrown text.old.items text.new.items
        (line (entry_of_event event.now))) }
    ensures held { is_held (entry_of_event event.now) ≡ true }
{
    match event {
        Event::Message {
            member,
            time,
            bytes,
        } => write_line(alloc, text, *time, *member, bytes.as_slice()),
        Event::Tick { time } => write_line(alloc, text, *time, 0, b"K"),
        Event::Hours { time, code } => write_line(alloc, text, *time, 0, &[*code]),
        Event::Halt {
            time,
            stock,
            state,
            reason,
        } => {
            let bytes = halt_bytes(*stock, *state, *reason);
            write_line(alloc, text, *time, 0, bytes.as_slice())
        }
        Event::Break { time, number } => {
            write_line(alloc, text, *time, 0, break_bytes(*number).as_slice())
        }
    }
}

/// Appends the record of an event: its line, without the line feed. It takes memory: if a growth was refused, a
/// beginning of the record comes after what was there before.
pub fn write_record(alloc: Global, text: &mut Vec<u8>, event: &Event) -> Result<(), AllocError>
    ensures ok { OnOk result (text.new.items ≡ text.old.items ++ record_of event.now) }
    ensures err { OnErr result (HasGrown text.old.items text.new.items (record_of event.now)) }
{
    spell(alloc, text, event)
}

/// Appends the line of an event, with its line feed. It takes memory: if a growth was refused, a beginning of the line
/// comes after what was there before.
#[tactic(auto, using(crate::proofs::Growing::begins_line, crate::proofs::Growing::lacks_feed, crate::proofs::Growing::whole_line))]
pub fn write_event(alloc: Global, text: &mut Vec<u8>, event: &Event) -> Result<(), AllocError>
    ensures ok { OnOk result (
        text.new.items ≡ text.old.items ++ (line (entry_of_event event.now) ++ 10 ∷ [])) }
    ensures err { OnErr result (HasGrown text.old.items text.new.items
        (line (entry_of_event event.now) ++ 10 ∷ [])) }
{
    spell(alloc, text, event)?;
    text.push(b'\n')?;
    Ok(())
}
