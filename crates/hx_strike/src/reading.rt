//! A tape whose lines are taken by an audit as they are read.
ghost use Rattle.std.specs.Prelude.{◌≡◌, ◌≤◌, ◌++◌, ◌∷◌, ℕ, List, IfOk, IfErr, OnOk, OnErr, IfSome, IfNone, length, drop, ◌<◌, ◌+◌, []};
ghost use Rattle.hx_replay.specs.declared.fault.TapeError.TheVariants as fault;
ghost use Rattle.hx_tape_lines.specs.declared.fault.Kind.TheVariants as kinds;
ghost use Rattle.std.specs.Io.KnownBytes.{Consumes, IsAtEnd};
ghost use Rattle.hx_units.specs.Letters.{line_feed};
ghost use Rattle.hx_units.specs.Cuts.{Lacks};
ghost use Rattle.hx_tape_lines.specs.Events.{IsLineOf, IsNoLine};
ghost use Rattle.hx_strike.specs.Taking.{Takes, IsFaultOf, StopsReading};

use hx_audit::{Auditor, Bearing, Whose};
use hx_market::{Bytes, Event};
use hx_members::Setup;
use hx_replay::{Kind, MOST_READS, TapeError, fault_of};
use hx_tape_lines::{LONGEST_LINE, read_event};
use hx_units::split_once;
use std::alloc::{AllocError, Global};
use std::io::{ErrorKind, Read};

/// What was read of a tape, and what of its lines was taken.
#[derive(Drop)]
pub(crate) struct Tape {
    /// The audit that has taken the whole lines.
    pub(crate) auditor: Auditor,
    /// The tokens that each of them bears.
    pub(crate) bearings: Vec<Bearing>,
    /// All that was read.
    pub(crate) text: Vec<u8>,
    // How many of its bytes are whole lines.
    taken: usize,
}

// The number of the line after those that were taken.
fn next_line(bearings: &[Bearing]) -> u64
    ensures { result ≡ length bearings.now + 1 }
{
    bearings.len() as u64 + 1
}

// Its fault, if it is no line.
fn bad_line(bearings: &[Bearing]) -> TapeError
    ensures { result ≡ fault.Line (length bearings.now + 1) kinds.Bad }
{
    TapeError::Line {
        line: next_line(bearings),
        kind: Kind::Bad,
    }
}

// Takes the event of the next line, whose digits are read into a buffer, and stores its bearing.
fn take_line(
    alloc: Global,
    room: &mut Vec<u8>,
    auditor: &mut Auditor,
    bearings: &mut Vec<Bearing>,
    text: &[u8],
) -> Result<(), TapeError>
    ensures setup { auditor.new.setup ≡ auditor.old.setup }
    ensures whose { auditor.new.whose ≡ auditor.old.whose }
    ensures ok { OnOk result ((all others : List ℕ)
        → Takes auditor.old bearings.old.items all (text.now ++ line_feed ∷ others)
        → Takes auditor.new bearings.new.items all others) }
    ensures err { IfErr result (λ e. (all others : List ℕ) → Lacks line_feed text.now
        → Takes auditor.old bearings.old.items all (text.now ++ line_feed ∷ others)
        → IsFaultOf ⊥ auditor.old.setup all e) }
{
    let number = next_line(bearings);
    let Some(event) = read_event(alloc, room, Bytes::none(), text)? else {
        return Err(bad_line(bearings));
    };
    if let Err(error) = auditor.take(&event) {
        return Err(fault_of(number, error));
    }
    bearings.push(Bearing::of(&event))?;
    Ok(())
}

// Takes the whole lines of a text, and returns the bytes after them.
fn take_lines<'a>(
    alloc: Global,
    auditor: &mut Auditor,
    bearings: &mut Vec<Bearing>,
    text: &'a [u8],
) -> Result<&'a [u8], TapeError>
    ensures setup { auditor.new.setup ≡ auditor.old.setup }
    ensures whose { auditor.new.whose ≡ auditor.old.whose }
    ensures ok { IfOk result (λ rest. (all : List ℕ)
        → Takes auditor.old bearings.old.items all text.now
        → Takes auditor.new bearings.new.items all rest.now) }
    ensures lacks { IfOk result (λ rest. Lacks line_feed rest.now) }
    ensures err { IfErr result (λ e. (all : List ℕ)
        → Takes auditor.old bearings.old.items all text.now
        → IsFaultOf ⊥ auditor.old.setup all e) }
{
    let mut room = Vec::new(alloc);
    let mut rest = text;
    while let Some((line, others)) = split_once(rest, b'\n') {
        take_line(alloc, &mut room, auditor, bearings, line)?;
        rest = others;
    }
    Ok(rest)
}

// Takes the lines that end in the next piece of a tape.
fn take_piece(alloc: Global, tape: &mut Tape, piece: &[u8]) -> Result<(), TapeError>
    requires within { tape.old.taken ≤ length tape.old.text.items }
    requires taken { Takes tape.old.auditor tape.old.bearings.items tape.old.text.items
        (drop tape.old.taken tape.old.text.items) }
    ensures setup { tape.new.auditor.setup ≡ tape.old.auditor.setup }
    ensures whose { tape.new.auditor.whose ≡ tape.old.auditor.whose }
    ensures text { OnOk result (tape.new.text.items ≡ tape.old.text.items ++ piece.now) }
    ensures within { OnOk result (tape.new.taken ≤ length tape.new.text.items) }
    ensures taken { OnOk result (Takes tape.new.auditor tape.new.bearings.items
        tape.new.text.items (drop tape.new.taken tape.new.text.items)) }
    ensures lacks { OnOk result (Lacks line_feed (drop tape.new.taken tape.new.text.items)) }
    ensures err { IfErr result
        (IsFaultOf ⊥ tape.old.auditor.setup (tape.old.text.items ++ piece.now)) }
{
    tape.text.extend_from_slice(piece)?;
    let text = tape.text.as_slice();
    let after = &text[tape.taken..];
    let rest = take_lines(alloc, &mut tape.auditor, &mut tape.bearings, after)?;
    if rest.len() > LONGEST_LINE {
        return Err(bad_line(&tape.bearings));
    }
    tape.taken = text.len() - rest.len();
    Ok(())
}

// The tape, if nothing follows its whole lines.
fn whole(tape: Tape) -> Result<Tape, TapeError>
    ensures ok { IfOk result (λ t. (t ≡ tape) × (length tape.text.items ≤ tape.taken)) }
    ensures fault { IfErr result (λ e.
        (e ≡ fault.Line (length tape.bearings.items + 1) kinds.Bad)
        × (tape.taken < length tape.text.items)) }
{
    if tape.taken < tape.text.len() {
        return Err(bad_line(&tape.bearings));
    }
    Ok(tape)
}

/// Reads a tape to its end, and takes each line as soon as it is read.
pub(crate) fn read_tape<R: Read>(
    alloc: Global,
    setup: &Setup,
    reader: &mut R,
    whose: Whose,
) -> Result<Tape, TapeError>
    ensures setup { IfOk result (λ t. t.auditor.setup ≡ setup.now) }
    ensures whose { IfOk result (λ t. t.auditor.whose ≡ whose) }
    ensures taken { IfOk result (λ t.
        Takes t.auditor t.bearings.items t.text.items []) }
    ensures read { IfOk result (λ t.
        Consumes (R.remaining reader.old) (R.remaining reader.new) t.text.items) }
    ensures at_end { OnOk result (IsAtEnd (R.remaining reader.new)) }
    ensures err { IfErr result (λ e.
        StopsReading setup.now e (R.remaining reader.old) (R.remaining reader.new)) }
{
    let mut tape = Tape {
        auditor: Auditor::new(alloc, setup, whose)?,
        bearings: Vec::new(alloc),
        text: Vec::new(alloc),
        taken: 0,
    };
    let mut chunk = [0; 8192];
    for _ in 0..MOST_READS {
        match reader.read(&mut chunk) {
            Ok(0) => return whole(tape),
            Ok(count) => take_piece(alloc, &mut tape, &chunk[..count])?,
            Err(e) => {
                if e.kind() != ErrorKind::Interrupted {
                    return Err(TapeError::Read);
                }
            }
        }
    }
    Err(TapeError::Turns)
}
