//! The thread that applies lines: it applies turns that come, and sends them on with their output.
ghost use Rattle.std.specs.Prelude.{◌≡◌, ◌<◌, ◌+◌, ◌^◌, ◌++◌, [], List, OnOk, IfErr, length};
ghost use Rattle.rtrb.specs.Ring.{received, sent, SameConsumer, SameProducer};
ghost use Rattle.hx_tape_lines.specs.Text.{Entry};
ghost use Rattle.hx_replay.specs.Run.{IsFew};
ghost use Rattle.hx_replay_parallel.specs.Ahead.{AreOf, AppliesAll, FailsAmong};
ghost use Rattle.hx_replay_parallel.specs.Turns.{output_of, AppliesTurns, FailsInTurns};

use crate::batch::{Batch, OfLines, wait_next};
use hx_book::Book;
use hx_market::Event;
use hx_replay::{Run, TapeError, Unwritten};
use rtrb::{Consumer, Producer};
use std::alloc::{AllocError, Global};
use std::mem::swap;

// The number of events that are prefetched together, and whose output is taken over together.
const BATCH: usize = 16;

// At the index where a batch begins: puts the recent output after the rest, and prefetches for the events of the batch.
#[inline(always)]
fn begin_batch<B: Book + Drop>(
    run: &mut Run<B>,
    events: &[Event],
    index: usize,
    recent: &mut Unwritten,
    telling: &mut Unwritten,
) -> Result<(), AllocError>
    ensures run { run.new ≡ run.old }
    ensures outputs { OnOk result (telling.new ++ recent.new ≡ telling.old ++ recent.old) }
{
    if index % BATCH != 0 {
        return Ok(());
    }
    let (_, next) = events.split_at(index.min(events.len()));
    run.prefetch(next);
    telling.take_all(recent)
}

// Applies the events. Their output is then `telling`, followed by `recent`.
fn apply_each<B: Book + Drop>(
    run: &mut Run<B>,
    events: &[Event],
    recent: &mut Unwritten,
    telling: &mut Unwritten,
) -> Result<(), TapeError>
    requires events { run.old.events + length events.now < 2 ^ 48 }
    requires few { IsFew run.old }
    requires read { (entries : List Entry) × AreOf entries events.now }
    requires telling { telling.old ≡ [] }
    requires recent { recent.old ≡ [] }
    ensures ok { OnOk result ((entries : List Entry) → AreOf entries events.now
        → AppliesAll run.old run.new entries (telling.new ++ recent.new)) }
    ensures err { IfErr result (λ e. (entries : List Entry) → AreOf entries events.now
        → FailsAmong run.old entries (telling.new ++ recent.new) e) }
{
    let mut index = 0;
    for event in events {
        begin_batch(run, events, index, recent, telling)?;
        index = index.wrapping_add(1);
        run.apply_event(event, recent)?;
    }
    Ok(())
}

/// Applies the events; their output replaces the earlier output in `telling`. The cache lines of `telling` are shared
/// with the other core, so each store there costs a coherence miss: therefore the output goes into lists of this
/// thread's own first, a batch at a time.
pub(crate) fn apply_all<B: Book + Drop>(
    run: &mut Run<B>,
    events: &[Event],
    recent: &mut Unwritten,
    telling: &mut Unwritten,
) -> Result<(), TapeError>
    requires events { run.old.events + length events.now < 2 ^ 48 }
    requires few { IsFew run.old }
    requires read { (entries : List Entry) × AreOf entries events.now }
    ensures ok { OnOk result ((entries : List Entry) → AreOf entries events.now
        → AppliesAll run.old run.new entries telling.new) }
    ensures err { IfErr result (λ e. (entries : List Entry) → AreOf entries events.now
        → FailsAmong run.old entries telling.new e) }
{
    telling.clear();
    recent.clear();
    // Without events there is no output, and so no memory that might be wanting.
    if events.is_empty() {
        return Ok(());
    }
    let applied = apply_each(run, events, recent, telling);
    telling.take_all(recent)?;
    applied
}

/// At most this number of turns comes: more than are ever applied.
const MANY: u64 = 1_000_000_000_000;

/// Applies turns that come, and sends them on with their output, until one without lines comes, or none for long. If a
/// line fails, its turn is not sent on: the output of the lines before it in that turn is left in `telling`.
pub(crate) fn apply_coming<B: Book + Drop>(
    run: &mut Run<B>,
    recent: &mut Unwritten,
    telling: &mut Unwritten,
    coming: &mut Consumer<Batch, Global, OfLines>,
    going: &mut Producer<Batch>,
) -> Result<(), TapeError>
    requires events { run.old.events + 2 ^ 46 < 2 ^ 48 }
    requires few { IsFew run.old }
    requires first { received coming.old ≡ [] }
    requires outputs { output_of (sent going.old) ≡ [] }
    ensures coming { SameConsumer coming.old coming.new }
    ensures going { SameProducer going.old going.new }
    ensures ok { OnOk result
        (AppliesTurns run.old run.new (received coming.new) (sent going.new)) }
    ensures err { IfErr result
        (FailsInTurns run.old (received coming.new) (sent going.new) telling.new) }
{
    for _ in 0..MANY {
        let Some(mut turn) = wait_next(coming, going) else {
            return Ok(());
        };
        if turn.ahead.is_empty() {
            return Ok(());
        }
        apply_all(run, turn.ahead.events(), recent, telling)?;
        swap(&mut turn.outputs, telling);
        going.push_reserved(turn);
    }
    Ok(())
}
