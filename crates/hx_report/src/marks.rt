//! What a strike sees of a tape's lines: whose they are, and which of them bear a token of a quiet chain.
ghost use Rattle.std.specs.Prelude.{◌≡◌, ◌++◌, ◌∷◌, [], List, map, IfOk, OnOk};
ghost use Rattle.hx_rules.specs.Steps.{sender};
ghost use Rattle.hx_audit.specs.Auditing.{choice_of};
ghost use Rattle.hx_tape_lines.specs.Text.{Entry, line as line_of, tape};
ghost use Rattle.hx_tape_lines.specs.Events.{IsKnown, event_of};
ghost use Rattle.hx_replay.specs.Run.{start, AreEvents};
ghost use Rattle.hx_report.specs.Marks.{marks_of, marked_by, HasTakenLines};

use hx_audit::{Auditor, Bearing, Whose};
use hx_market::{Bytes, Event};
use hx_members::Setup;
use hx_tape_lines::read_event;
use hx_units::{NoMemory, split_once};
use std::alloc::Global;

/// A line of a tape as a strike sees it.
#[derive(Clone, Copy, Debug, PartialEq, Eq, Drop)]
pub struct Mark {
    /// Whose event it is; 0 is the operator.
    pub sender: u16,
    /// Whether it bears a token of one of the member's quiet chains.
    pub quiet: bool,
}

// A line that is taken: whose event it is, and the tokens that it bears.
#[derive(Drop)]
struct TakenLine {
    sender: u16,
    bearing: Bearing,
}

// The lines that an audit has taken.
#[derive(Drop)]
struct TakenLines {
    auditor: Auditor,
    lines: Vec<TakenLine>,
}

// Whose event it is.
fn sender_of(event: &Event) -> u16
    ensures { result ≡ sender event.now }
{
    match event {
        Event::Message { member, .. } => *member,
        _ => 0,
    }
}

// Takes the event of the next line, whose digits are read into a buffer.
fn take_line(
    alloc: Global,
    room: &mut Vec<u8>,
    taken: &mut TakenLines,
    text: &[u8],
) -> Result<(), NoMemory>
    ensures setup { taken.new.auditor.setup ≡ taken.old.auditor.setup }
    ensures whose { taken.new.auditor.whose ≡ taken.old.auditor.whose }
    ensures ok { OnOk result ((es : List Entry) (e : Entry) → IsKnown e → text.now ≡ line_of e
        → HasTakenLines taken.old es → HasTakenLines taken.new (es ++ e ∷ [])) }
{
    let Some(event) = read_event(alloc, room, Bytes::none(), text)? else {
        return Err(NoMemory);
    };
    if taken.auditor.take(&event).is_err() {
        return Err(NoMemory);
    }
    taken.lines.push(TakenLine {
        sender: sender_of(&event),
        bearing: Bearing::of(&event),
    })?;
    Ok(())
}

// Takes the lines of a tape.
fn take_lines(alloc: Global, setup: &Setup, text: &[u8]) -> Result<TakenLines, NoMemory>
    ensures setup { IfOk result (λ t. t.auditor.setup ≡ setup.now) }
    ensures whose { IfOk result (λ t. t.auditor.whose ≡ Whose.OfAll) }
    ensures taken { IfOk result (λ t. (es : List Entry) → AreEvents (start setup.now) es
        → text.now ≡ tape es → HasTakenLines t es) }
{
    let mut taken = TakenLines {
        auditor: Auditor::new(alloc, setup, Whose::OfAll)?,
        lines: Vec::new(alloc),
    };
    let mut room = Vec::new(alloc);
    let mut rest = text;
    while let Some((line, others)) = split_once(rest, b'\n') {
        take_line(alloc, &mut room, &mut taken, line)?;
        rest = others;
    }
    Ok(taken)
}

// What a strike sees of the lines.
fn mark_lines(alloc: Global, auditor: &Auditor, lines: &[TakenLine]) -> Result<Vec<Mark>, NoMemory>
    ensures { IfOk result (λ marks. marks.items
        ≡ map (marked_by (choice_of auditor.now.whose auditor.now.market)) lines.now) }
{
    let mut marks = Vec::new(alloc);
    for line in lines {
        marks.push(Mark {
            sender: line.sender,
            quiet: auditor.strikes(&line.bearing),
        })?;
    }
    Ok(marks)
}

/// What a strike sees of the lines of a tape that a replay has taken. Only memory can be wanting.
pub(crate) fn marks_of(alloc: Global, setup: &Setup, text: &[u8]) -> Result<Vec<Mark>, NoMemory>
    ensures { IfOk result (λ marks. (es : List Entry) → AreEvents (start setup.now) es
        → text.now ≡ tape es → marks.items ≡ marks_of setup.now es) }
{
    let taken = take_lines(alloc, setup, text)?;
    mark_lines(alloc, &taken.auditor, &taken.lines)
}
