//! The thread that writes output and reads lines: it writes the output of turns that come, and sends them on with the
//! next lines.
ghost use Rattle.std.specs.Prelude.{◌≡◌, ◌≤◌, ◌^◌, [], ℕ, List, OnOk, OnErr, IfErr, length};
ghost use Rattle.std.specs.Io.KnownBytes.{Appends};
ghost use Rattle.rtrb.specs.Ring.{received, sent, SameConsumer, SameProducer};
ghost use Rattle.hx_units.specs.Writing.{Writes};
ghost use Rattle.hx_replay_parallel.specs.Ahead.{IsAhead};
ghost use Rattle.hx_replay.specs.Gathering.{IsUnwritten};
ghost use Rattle.hx_replay_parallel.specs.Turns.{events_of, output_of};

use crate::batch::{Batch, OfLines, TURNS, wait_next};
use hx_replay::{OutputText, Pending, TapeError, spell_output};
use hx_units::write_whole;
use rtrb::{Consumer, Producer};
use std::alloc::Global;
use std::io::Write;

// At most this number of turns comes: more than are ever read.
const MANY: u64 = 1_000_000_000_000;

// Spells the output of turns that come, writes it if it is much, and sends them on with the next lines, until there are
// no more lines and all turns are back, or none comes for long. It stores those that are back.
fn write_each<W: Write>(
    alloc: Global,
    spelled: &mut OutputText,
    writer: &mut W,
    pending: &mut Pending,
    retained: &mut Vec<Batch>,
    coming: &mut Consumer<Batch>,
    going: &mut Producer<Batch, Global, OfLines>,
) -> Result<(), TapeError>
    requires fits { length pending.old ≤ 16777216 }
    requires spelled { spelled.old ≡ [] }
    requires none { received coming.old ≡ [] }
    requires first { sent going.old ≡ [] }
    ensures coming { SameConsumer coming.old coming.new }
    ensures going { SameProducer going.old going.new }
    ensures wrote { OnOk result (Writes
        (W.contents writer.old) (W.contents writer.new)
        (output_of (received coming.new)) spelled.new) }
    ensures ahead { OnOk result
        (IsAhead pending.old (events_of (sent going.new)) pending.new) }
    ensures err { OnErr result ((rest : List ℕ) × Writes
        (W.contents writer.old) (W.contents writer.new) (output_of (received coming.new)) rest) }
    ensures read { OnErr result ((rest : List ℕ)
        × IsAhead pending.old (events_of (sent going.new)) rest) }
    ensures fault { IfErr result IsUnwritten }
{
    let mut out = TURNS;
    for _ in 0..MANY {
        let Some(mut turn) = wait_next(coming, going) else {
            return Ok(());
        };
        spell_output(&turn.outputs, spelled, writer)?;
        turn.ahead.read(alloc, pending)?;
        if turn.ahead.is_empty() {
            retained.push(turn)?;
            out = out.saturating_sub(1);
            if out == 0 {
                return Ok(());
            }
        } else {
            going.push_reserved(turn);
        }
    }
    Ok(())
}

// Sends a turn without lines, after which none comes, if there is a free slot for it.
fn send_last(alloc: Global, going: &mut Producer<Batch, Global, OfLines>)
    requires { length (events_of (sent going.old)) ≤ 2 ^ 45 }
    ensures going { SameProducer going.old going.new }
    ensures events { events_of (sent going.new) ≡ events_of (sent going.old) }
{
    if !going.is_full() {
        going.push_reserved(Batch::new(alloc));
    }
}

/// Writes the output of turns that come, and sends them on with the next lines, until there are no more lines and all
/// turns are back, or none comes for long. It stores those that are back. A turn without lines is the last that it
/// sends.
pub(crate) fn write_coming<W: Write>(
    alloc: Global,
    spelled: &mut OutputText,
    writer: &mut W,
    pending: &mut Pending,
    retained: &mut Vec<Batch>,
    coming: &mut Consumer<Batch>,
    going: &mut Producer<Batch, Global, OfLines>,
) -> Result<(), TapeError>
    requires fits { length pending.old ≤ 16777216 }
    requires none { received coming.old ≡ [] }
    requires first { sent going.old ≡ [] }
    ensures coming { SameConsumer coming.old coming.new }
    ensures going { SameProducer going.old going.new }
    ensures wrote { OnOk result (Appends
        (W.contents writer.old) (W.contents writer.new) (output_of (received coming.new))) }
    ensures ahead { OnOk result
        (IsAhead pending.old (events_of (sent going.new)) pending.new) }
    ensures err { OnErr result ((rest : List ℕ) × Writes
        (W.contents writer.old) (W.contents writer.new) (output_of (received coming.new)) rest) }
    ensures read { OnErr result ((rest : List ℕ)
        × IsAhead pending.old (events_of (sent going.new)) rest) }
    ensures fault { IfErr result IsUnwritten }
{
    spelled.clear();
    let wrote = write_each(alloc, spelled, writer, pending, retained, coming, going);
    send_last(alloc, going);
    wrote?;
    write_whole(writer, spelled.text())?;
    Ok(())
}
