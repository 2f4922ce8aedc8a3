//! Replays a tape with two threads: one applies its lines, the other reads lines ahead and writes the output of those
//! before.
ghost use Rattle.std.specs.Prelude.{◌≤◌, ◌<◌, ◌^◌, ◌+◌, IfOk, IfErr, OnOk, length};
ghost use Rattle.hx_replay.specs.Run.{Replays, Stops, IsFew};
ghost use Rattle.hx_replay.specs.Whole.{ReplaysAll, StopsAt};

use crate::two_threads::{Turns, apply_turns};
use hx_book::Book;
use hx_levels::LevelBook;
use hx_members::Setup;
use hx_replay::{
    Counts, LineBuffers, MOST_LINES, MOST_READS, Pending, Run, TapeError, apply_lines, finish,
    keep_rest,
};
use std::alloc::Global;
use std::io::{Read, Write};
use std::thread::Threads;

// A text of at most this number of bytes is not worth a thread.
const FEW: usize = 65_536;

// At most this number of bytes is read at once.
const PIECE: usize = 4_198_400;

// Applies lines of what is pending in turns, if they are worth a thread.
fn apply_many<B: Book + Drop, W: Write + Send, T: Threads>(
    rt: &T,
    run: &mut Run<B>,
    buffers: &mut LineBuffers,
    turns: &mut Turns,
    pending: &mut Pending,
    writer: &mut W,
) -> Result<(), TapeError>
    requires events { run.old.events + 2 ^ 46 < 2 ^ 48 }
    requires few { IsFew run.old }
    requires fits { length pending.old ≤ 16777216 }
    ensures ok { OnOk result (Replays run.old run.new pending.old
        (W.contents writer.old) (W.contents writer.new) pending.new) }
    ensures err { IfErr result (Stops ⊥ run.old pending.old
        (W.contents writer.old) (W.contents writer.new)) }
{
    if pending.text().len() > FEW {
        apply_turns(rt, run, turns, &mut buffers.spelled, pending, writer)?;
    }
    Ok(())
}

/// Replays a tape over the market of a setup, as `replay` does, but if much is read at once, applies its lines in
/// turns: while one thread applies some thousand lines, another writes the output of the lines before them, and reads
/// the next ones of what was read. Before it reads on from the reader, it writes the output lines of all that it has
/// read and flushes the writer, even if a read filled its buffer: a client that waits for its answers before it sends
/// more gets them. A read is one call of the reader, and 1,000,000,000 of them are too many, as are 2^47 lines.
pub fn replay_ahead<T: Threads, R: Read, W: Write + Send>(
    rt: &T,
    alloc: Global,
    setup: &Setup,
    reader: &mut R,
    writer: &mut W,
) -> Result<Counts, TapeError>
    // All was read, and the output text of its events was written; in it quiet orders leave no trace.
    ensures ok { IfOk result (λ counts.
        ReplaysAll setup.now counts (R.remaining reader.old) (R.remaining reader.new)
        (W.contents writer.old) (W.contents writer.new)) }
    // What was read, and which part of the output text of its events was written; the same of it.
    ensures err { IfErr result (λ e.
        StopsAt setup.now e (R.remaining reader.old) (R.remaining reader.new)
        (W.contents writer.old) (W.contents writer.new)) }
{
    let mut run = Run::new(alloc, setup.copy(alloc)?, LevelBook::new(alloc))?;
    let mut pending = Pending::new(alloc, PIECE)?;
    let (mut buffers, mut turns) = (LineBuffers::new(alloc), Turns::new(alloc));
    for _ in 0..MOST_READS {
        if run.counts().events > MOST_LINES {
            return Err(TapeError::Turns);
        }
        if !pending.read(reader)? {
            return finish(run.counts(), pending.text());
        }
        apply_many(rt, &mut run, &mut buffers, &mut turns, &mut pending, writer)?;
        let rest = apply_lines(&mut run, &mut buffers, writer, pending.text())?.len();
        keep_rest(&mut pending, rest, run.counts())?;
    }
    Err(TapeError::Turns)
}
