//! A tape without the messages of quiet chains.
ghost use Rattle.std.specs.Prelude.{◌≡◌, List, ℕ, IfOk, IfErr, OnOk, OnErr, None, length};
ghost use Rattle.std.specs.Io.KnownBytes.{Appends};
ghost use Rattle.hx_members.specs.Setups.{member_of};
ghost use Rattle.hx_rules.specs.declared.event.Event.{Event as Happening};
ghost use Rattle.hx_audit.specs.Auditing.{choice_of, IsStranger, HasTaken};
ghost use Rattle.hx_tape_lines.specs.Text.{tape};
ghost use Rattle.hx_replay.specs.Run.{IsFront};
ghost use Rattle.hx_replay.specs.Struck.{without_chosen, left_by, struck, struck_all};
ghost use Rattle.hx_strike.specs.Striking.{StrikesAll, StrikeStops, Echoes};
ghost use Rattle.hx_strike.specs.Taking.{IsTape};
ghost use Rattle.hx_replay.specs.declared.fault.TapeError.TheVariants as fault;

use crate::reading::read_tape;
use hx_audit::{Auditor, Bearing, Whose};
use hx_members::Setup;
use hx_replay::{Counts, TapeError};
use hx_units::{MemberNo, split_once, write_whole};
use std::alloc::Global;
use std::io::{Read, Write};

// Writes the lines of a tape that are not struck, each as it was read, and counts them.
fn write_left<W: Write>(
    writer: &mut W,
    auditor: &Auditor,
    bearings: &[Bearing],
    text: &[u8],
) -> Result<u64, TapeError>
    requires taken { (events : List Happening) × HasTaken auditor.now events }
    requires tape { IsTape text.now bearings.now }
    ensures count { IfOk result (λ count. (t : IsTape text.now bearings.now) → count
        ≡ length (without_chosen (choice_of auditor.now.whose auditor.now.market) t.entries)) }
    ensures ok { OnOk result ((t : IsTape text.now bearings.now)
        → Appends (W.contents writer.old) (W.contents writer.new)
        (tape (without_chosen (choice_of auditor.now.whose auditor.now.market) t.entries))) }
    ensures stranger { OnOk result (IsStranger auditor.now.setup auditor.now.whose
        → Appends (W.contents writer.old) (W.contents writer.new) text.now) }
    ensures fault { IfErr result (λ e. e ≡ fault.Write) }
    ensures err { OnErr result ((t : IsTape text.now bearings.now) → (front : List ℕ)
        × IsFront front
        (tape (without_chosen (choice_of auditor.now.whose auditor.now.market) t.entries))
        × Appends (W.contents writer.old) (W.contents writer.new) front) }
{
    let mut count = bearings.len() as u64;
    let mut rest = text;
    for bearing in bearings {
        let Some((line, others)) = split_once(rest, b'\n') else {
            unreachable!()
        };
        if auditor.strikes(bearing) {
            count -= 1;
        } else {
            write_whole(writer, &rest[..line.len() + 1])?;
        }
        rest = others;
    }
    Ok(count)
}

// Reads a tape to its end, and writes the lines that stay.
fn strike_lines<R: Read, W: Write>(
    alloc: Global,
    setup: &Setup,
    reader: &mut R,
    writer: &mut W,
    whose: Whose,
) -> Result<Counts, TapeError>
    ensures ok { IfOk result (λ counts.
        StrikesAll setup.now (left_by setup.now whose) counts
        (R.remaining reader.old) (R.remaining reader.new)
        (W.contents writer.old) (W.contents writer.new)) }
    ensures err { IfErr result (λ e.
        StrikeStops setup.now (left_by setup.now whose) e
        (R.remaining reader.old) (R.remaining reader.new)
        (W.contents writer.old) (W.contents writer.new)) }
    ensures stranger { IfOk result (λ counts. IsStranger setup.now whose
        → Echoes (R.remaining reader.old) (R.remaining reader.new)
        (W.contents writer.old) (W.contents writer.new)) }
{
    let tape = read_tape(alloc, setup, reader, whose)?;
    let events = write_left(writer, &tape.auditor, &tape.bearings, &tape.text)?;
    Ok(Counts {
        events,
        feed: 0,
        replies: 0,
    })
}

/// Writes a tape without the messages of a member's quiet chains: of the lines that it reads, to their end, those stay,
/// as they were read, that bear no token of the member's chains that the whole tape never displayed and never traded.
/// It writes only once all was read, and counts the lines written. A line that fails a check ends it at once. A member
/// number that the setup has not strikes nothing.
pub fn strike_tape<R: Read, W: Write>(
    alloc: Global,
    setup: &Setup,
    reader: &mut R,
    writer: &mut W,
    member: MemberNo,
) -> Result<Counts, TapeError>
    // All was read, and the lines that stay were written.
    ensures ok { IfOk result (λ counts.
        StrikesAll setup.now (struck setup.now member) counts
        (R.remaining reader.old) (R.remaining reader.new)
        (W.contents writer.old) (W.contents writer.new)) }
    // Except after a failed write, nothing was written. A line is named if it is the first that fails a check, as soon
    // as it was read.
    ensures err { IfErr result (λ e.
        StrikeStops setup.now (struck setup.now member) e
        (R.remaining reader.old) (R.remaining reader.new)
        (W.contents writer.old) (W.contents writer.new)) }
    // A number that the setup has not strikes nothing.
    ensures stranger { IfOk result (λ counts.
        member_of setup.now member ≡ None
        → Echoes (R.remaining reader.old) (R.remaining reader.new)
        (W.contents writer.old) (W.contents writer.new)) }
{
    strike_lines(alloc, setup, reader, writer, Whose::Of(member))
}

/// Writes a tape without the messages of anybody's quiet chains, as `strike_tape` writes it without one member's: each
/// line goes that bears a token of its own member's chains that the whole tape never displayed and never traded.
pub fn strike_all_tape<R: Read, W: Write>(
    alloc: Global,
    setup: &Setup,
    reader: &mut R,
    writer: &mut W,
) -> Result<Counts, TapeError>
    ensures ok { IfOk result (λ counts.
        StrikesAll setup.now (struck_all setup.now) counts
        (R.remaining reader.old) (R.remaining reader.new)
        (W.contents writer.old) (W.contents writer.new)) }
    ensures err { IfErr result (λ e.
        StrikeStops setup.now (struck_all setup.now) e
        (R.remaining reader.old) (R.remaining reader.new)
        (W.contents writer.old) (W.contents writer.new)) }
{
    strike_lines(alloc, setup, reader, writer, Whose::OfAll)
}
