//! A tape that is applied in turns: while one thread applies lines, another writes the output of the lines before them,
//! and reads the next ones. Turns go round between both, so that neither waits for the other at each of them.
ghost use Rattle.std.specs.Prelude.{◌≡◌, ◌≤◌, ◌<◌, ◌+◌, ◌^◌, ◌++◌, [], ℕ, List, Option, OnOk, OnErr, IfErr, length};
ghost use Rattle.std.specs.Io.KnownBytes.{Appends};
ghost use Rattle.rtrb.specs.Ring.{received, known_items, sent, SameConsumer, SameProducer};
ghost use Rattle.hx_tape_lines.specs.Text.{Entry};
ghost use Rattle.hx_units.specs.Writing.{Writes};
ghost use Rattle.hx_replay.specs.Run.{Progress, Replays, Stops, IsFew};
ghost use Rattle.hx_replay_parallel.specs.Ahead.{AreOf, IsAhead, IsAtTurn};
ghost use Rattle.hx_replay.specs.Gathering.{IsUnwritten};
ghost use Rattle.hx_replay_parallel.specs.Turns.{events_of, output_of, AppliesTurns, FailsInTurns};

use crate::batch::{Batch, OfLines, TURNS};
use crate::io_thread::write_coming;
use crate::market_thread::{apply_all, apply_coming};
use hx_book::Book;
use hx_market::Event;
use hx_replay::{OutputText, Pending, Run, TapeError, Unwritten, write_before, write_outcome};
use rtrb::{Consumer, Producer, RingBuffer};
use std::alloc::Global;
use std::io::Write;
use std::mem::replace;
use std::thread::{Threads, join_mut};

/// What is reused from text to text: the memory of turns, and that of the output that is not yet sent on.
pub(crate) struct Turns {
    alloc: Global,
    retained: Vec<Batch>,
    telling: Unwritten,
    // The latest output, which is not yet put after the rest.
    recent: Unwritten,
}

// By hand, so that when a value is dropped its owner's proof sees one call.
impl Drop for Turns {
    fn drop(self) {
        let Turns {
            alloc: _,
            retained: _,
            telling: _,
            recent: _,
        } = self;
    }
}

impl Turns {
    /// None yet.
    pub(crate) fn new(alloc: Global) -> Turns {
        Turns {
            alloc,
            retained: Vec::new(alloc),
            telling: Unwritten::new(alloc),
            recent: Unwritten::new(alloc),
        }
    }
}

// The ends of the two rings by which turns go round: lines to be applied, and their output to be written.
#[derive(Drop)]
struct Rings {
    to_apply: Producer<Batch, Global, OfLines>,
    unapplied: Consumer<Batch, Global, OfLines>,
    to_write: Producer<Batch>,
    unwritten: Consumer<Batch>,
}

// Sends off all turns that go round. They have no output.
fn send_all(alloc: Global, retained: &mut Vec<Batch>, to_write: &mut Producer<Batch>)
    requires { output_of (sent to_write.old) ≡ [] }
    ensures ring { SameProducer to_write.old to_write.new }
    ensures outputs { output_of (sent to_write.new) ≡ [] }
{
    for _ in 0..TURNS {
        let mut turn = match retained.pop() {
            Some(turn) => turn,
            None => Batch::new(alloc),
        };
        turn.outputs.clear();
        if to_write.push(turn).is_err() {
            return;
        }
    }
}

// Both threads: this one applies lines that come, and another one writes their output and reads the next lines.
fn apply_and_write<B: Book + Drop, W: Write + Send, T: Threads>(
    rt: &T,
    run: &mut Run<B>,
    turns: &mut Turns,
    spelled: &mut OutputText,
    pending: &mut Pending,
    writer: &mut W,
    rings: &mut Rings,
) -> (Result<(), TapeError>, Result<(), TapeError>)
    requires events { run.old.events + 2 ^ 46 < 2 ^ 48 }
    requires few { IsFew run.old }
    requires fits { length pending.old ≤ 16777216 }
    requires unapplied { received rings.old.unapplied ≡ [] }
    requires unwritten { received rings.old.unwritten ≡ [] }
    requires to_apply { sent rings.old.to_apply ≡ [] }
    requires to_write { output_of (sent rings.old.to_write) ≡ [] }
    ensures unapplied { SameConsumer rings.old.unapplied rings.new.unapplied }
    ensures unwritten { SameConsumer rings.old.unwritten rings.new.unwritten }
    ensures to_apply { SameProducer rings.old.to_apply rings.new.to_apply }
    ensures to_write { SameProducer rings.old.to_write rings.new.to_write }
    ensures wrote { OnOk result.0 (Appends (W.contents writer.old) (W.contents writer.new)
        (output_of (received rings.new.unwritten))) }
    ensures ahead { OnOk result.0
        (IsAhead pending.old (events_of (sent rings.new.to_apply)) pending.new) }
    ensures err { OnErr result.0 ((rest : List ℕ) × Writes (W.contents writer.old)
        (W.contents writer.new) (output_of (received rings.new.unwritten)) rest) }
    ensures read { OnErr result.0 ((rest : List ℕ)
        × IsAhead pending.old (events_of (sent rings.new.to_apply)) rest) }
    ensures fault { IfErr result.0 IsUnwritten }
    ensures applied { OnOk result.1
        (AppliesTurns run.old run.new (received rings.new.unapplied) (sent rings.new.to_write)) }
    ensures failed { IfErr result.1 (FailsInTurns
        run.old (received rings.new.unapplied) (sent rings.new.to_write) turns.new.telling) }
{
    let Turns {
        alloc,
        retained,
        telling,
        recent,
    } = turns;
    let Rings {
        to_apply,
        unapplied,
        to_write,
        unwritten,
    } = rings;
    let alloc = *alloc;
    let mut write = || -> Result<(), TapeError>
        requires fits { length pending.now ≤ 16777216 }
        requires none { received unwritten.now ≡ [] }
        requires first { sent to_apply.now ≡ [] }
        ensures coming { SameConsumer unwritten.entry.now unwritten.exit.now }
        ensures going { SameProducer to_apply.entry.now to_apply.exit.now }
        ensures wrote { OnOk result (Appends
            (W.contents writer.entry.now) (W.contents writer.exit.now)
            (output_of (received unwritten.exit.now))) }
        ensures ahead { OnOk result (IsAhead
            pending.entry.now (events_of (sent to_apply.exit.now)) pending.exit.now) }
        ensures err { OnErr result ((rest : List ℕ) × Writes
            (W.contents writer.entry.now) (W.contents writer.exit.now)
            (output_of (received unwritten.exit.now)) rest) }
        ensures read { OnErr result ((rest : List ℕ)
            × IsAhead pending.entry.now (events_of (sent to_apply.exit.now)) rest) }
        ensures fault { IfErr result IsUnwritten }
    {
        write_coming(
            alloc, spelled, writer, pending, retained, unwritten, to_apply,
        )
    };
    let mut apply = || -> Result<(), TapeError>
        requires events { run.now.events + 2 ^ 46 < 2 ^ 48 }
        requires few { IsFew run.now }
        requires first { received unapplied.now ≡ [] }
        requires outputs { output_of (sent to_write.now) ≡ [] }
        ensures coming { SameConsumer unapplied.entry.now unapplied.exit.now }
        ensures going { SameProducer to_write.entry.now to_write.exit.now }
        ensures ok { OnOk result (AppliesTurns run.entry.now run.exit.now
            (received unapplied.exit.now) (sent to_write.exit.now)) }
        ensures err { IfErr result (FailsInTurns run.entry.now
            (received unapplied.exit.now) (sent to_write.exit.now) telling.exit.now) }
    { apply_coming(run, recent, telling, unapplied, to_write) };
    join_mut(rt, &mut write, &mut apply)
}

// Writes the output that was not written: that of the turns that are left in the ring, `count` of them.
fn write_rest<W: Write>(
    spelled: &mut OutputText,
    writer: &mut W,
    retained: &mut Vec<Batch>,
    unwritten: &mut Consumer<Batch>,
    count: usize,
) -> Result<(), TapeError>
    requires { count ≡ length (known_items unwritten.old) }
    ensures ok { OnOk result (Appends (W.contents writer.old) (W.contents writer.new)
        (output_of (known_items unwritten.old))) }
    ensures err { OnErr result ((rest : List ℕ) × Writes
        (W.contents writer.old) (W.contents writer.new)
        (output_of (known_items unwritten.old)) rest) }
    ensures fault { IfErr result IsUnwritten }
{
    for _ in 0..count {
        let turn = unwritten.pop_known();
        write_outcome(&turn.outputs, spelled, writer)?;
        retained.push(turn)?;
    }
    Ok(())
}

// Applies the first events of those that are read, and writes their output.
fn apply_now<B: Book + Drop, W: Write>(
    run: &mut Run<B>,
    recent: &mut Unwritten,
    telling: &mut Unwritten,
    spelled: &mut OutputText,
    writer: &mut W,
    events: &[Event],
) -> Result<(), TapeError>
    requires events { run.old.events + length events.now < 2 ^ 48 }
    requires few { IsFew run.old }
    requires read { (entries : List Entry) × AreOf entries events.now }
    ensures ok { OnOk result ((old : Progress) (all text : List ℕ) (w : Option (List ℕ))
        (others : List Event)
        → IsAtTurn old run.old all w (W.contents writer.old) [] (events.now ++ others) text
        → IsAtTurn old run.new all w (W.contents writer.new) [] others text) }
    ensures counts { OnOk result ((run.new.events ≡ run.old.events + length events.now)
        × IsFew run.new) }
    ensures err { IfErr result (λ e. (old : Progress) (all text : List ℕ) (w : Option (List ℕ))
        (others : List Event)
        → IsAtTurn old run.old all w (W.contents writer.old) [] (events.now ++ others) text
        → Stops ⊥ old all w (W.contents writer.new) e) }
{
    match apply_all(run, events, recent, telling) {
        Ok(()) => write_outcome(telling, spelled, writer),
        Err(error) => Err(write_before(error, telling, spelled, writer)),
    }
}

// Applies lines that are read and were not applied, and writes their output: those of the turns that are left in the
// ring, `count` of them.
fn apply_rest<B: Book + Drop, W: Write>(
    run: &mut Run<B>,
    turns: &mut Turns,
    spelled: &mut OutputText,
    writer: &mut W,
    unapplied: &mut Consumer<Batch, Global, OfLines>,
    count: usize,
) -> Result<(), TapeError>
    requires count { count ≡ length (known_items unapplied.old) }
    requires events { run.old.events + length (events_of (known_items unapplied.old)) < 2 ^ 48 }
    requires few { IsFew run.old }
    requires read { (entries : List Entry)
        × AreOf entries (events_of (known_items unapplied.old)) }
    ensures ok { OnOk result ((old : Progress) (all text : List ℕ) (w : Option (List ℕ))
        → IsAtTurn old run.old all w (W.contents writer.old) []
        (events_of (known_items unapplied.old)) text
        → IsAtTurn old run.new all w (W.contents writer.new) [] [] text) }
    ensures err { IfErr result (λ e. (old : Progress) (all text : List ℕ) (w : Option (List ℕ))
        → IsAtTurn old run.old all w (W.contents writer.old) []
        (events_of (known_items unapplied.old)) text
        → Stops ⊥ old all w (W.contents writer.new) e) }
{
    for _ in 0..count {
        let turn = unapplied.pop_known();
        apply_now(
            run,
            &mut turns.recent,
            &mut turns.telling,
            spelled,
            writer,
            turn.ahead.events(),
        )?;
        turns.retained.push(turn)?;
    }
    Ok(())
}

/// Applies lines of what is pending in turns, and has their output written. If one thread waits too long for the other,
/// it ends before all lines are applied: those that are left are for the caller.
pub(crate) fn apply_turns<B: Book + Drop, W: Write + Send, T: Threads>(
    rt: &T,
    run: &mut Run<B>,
    turns: &mut Turns,
    spelled: &mut OutputText,
    pending: &mut Pending,
    writer: &mut W,
) -> Result<(), TapeError>
    requires events { run.old.events + 2 ^ 46 < 2 ^ 48 }
    requires few { IsFew run.old }
    requires fits { length pending.old ≤ 16777216 }
    ensures ok { OnOk result (Replays run.old run.new pending.old
        (W.contents writer.old) (W.contents writer.new) pending.new) }
    ensures err { IfErr result (Stops ⊥ run.old pending.old
        (W.contents writer.old) (W.contents writer.new)) }
{
    let alloc = turns.alloc;
    let (to_apply, unapplied) = RingBuffer::with_protocol::<Global, OfLines>(alloc, TURNS + 1)?;
    let (mut to_write, unwritten) = RingBuffer::new(alloc, TURNS)?;
    send_all(alloc, &mut turns.retained, &mut to_write);
    let mut rings = Rings {
        to_apply,
        unapplied,
        to_write,
        unwritten,
    };
    let (wrote, applied) = apply_and_write(rt, run, turns, spelled, pending, writer, &mut rings);
    let Rings {
        mut to_apply,
        mut unapplied,
        mut to_write,
        mut unwritten,
    } = rings;
    let unwritten_count = unwritten.slots_beside(&mut to_write);
    let unapplied_count = unapplied.slots_beside(&mut to_apply);
    wrote?;
    write_rest(
        spelled,
        writer,
        &mut turns.retained,
        &mut unwritten,
        unwritten_count,
    )?;
    if let Err(error) = applied {
        return Err(write_before(error, &turns.telling, spelled, writer));
    }
    apply_rest(run, turns, spelled, writer, &mut unapplied, unapplied_count)
}
