//! A tape from its lines to its output lines.
ghost use Rattle.std.specs.Prelude.{List, ℕ, ◌≡◌, ◌<◌, ◌^◌, ◌+◌, [], OnOk, OnErr, IfOk, IfErr, length};
ghost use Rattle.std.specs.Io.KnownBytes.{Keeps};
ghost use Rattle.hx_units.specs.Letters.{line_feed};
ghost use Rattle.hx_units.specs.Cuts.{Lacks};
ghost use Rattle.hx_units.specs.Writing.{Writes};
ghost use Rattle.hx_replay.specs.Run.{Replays, Stops, IsFew};
ghost use Rattle.hx_replay.specs.Whole.{ReplaysAll, StopsAt};
ghost use Rattle.hx_replay.specs.declared.fault.TapeError.TheVariants as fault;

use crate::buffers::LineBuffers;
use crate::fault::TapeError;
use crate::output_text::OutputText;
use crate::pending::Pending;
use crate::pieces::{MOST_LINES, MOST_READS, finish, keep_rest};
use crate::run::{Counts, Run};
use crate::write_output::{write_before, write_outcome};
use hx_book::Book;
use hx_levels::LevelBook;
use hx_members::Setup;
use hx_units::{split_once, write_whole};
use std::alloc::Global;
use std::io::{ErrorKind, Read, Write};

// Has the writer send out what it holds back.
fn send_out<W: Write>(writer: &mut W) -> Result<(), TapeError>
    ensures retained { Keeps (W.contents writer.old) (W.contents writer.new) }
    ensures write { IfErr result (λ e. e ≡ fault.Write) }
{
    for _ in 0..u64::MAX {
        match writer.flush() {
            Ok(()) => return Ok(()),
            Err(e) => {
                if e.kind() != ErrorKind::Interrupted {
                    return Err(TapeError::Write);
                }
            }
        }
    }
    Err(TapeError::Write)
}

// At least this number of bytes of output lines is written at once.
const MANY: usize = 65_536;

// Writes the output lines if they are many. If it fails, a front of them was written.
pub fn write_many<W: Write>(writer: &mut W, lines: &mut OutputText) -> Result<(), TapeError>
    ensures ok { OnOk result
        (Writes (W.contents writer.old) (W.contents writer.new) lines.old lines.new) }
    ensures write { IfErr result (λ e. e ≡ fault.Write) }
    ensures err { OnErr result (
        (rest : List ℕ) × Writes (W.contents writer.old) (W.contents writer.new) lines.old rest) }
{
    if lines.len() >= MANY {
        write_whole(writer, lines.text())?;
        lines.clear();
    }
    Ok(())
}

/// Applies the whole lines of the text, writes their output lines and flushes the writer, and returns the bytes after
/// them. If a line fails, the output before it is written.
pub fn apply_lines<'a, B: Book + Drop, W: Write>(
    run: &mut Run<B>,
    buffers: &mut LineBuffers,
    writer: &mut W,
    text: &'a [u8],
) -> Result<&'a [u8], TapeError>
    requires events { run.old.events + length text.now < 2 ^ 48 }
    requires few { IsFew run.old }
    ensures ok { IfOk result (λ rest.
        Replays run.old run.new text.now (W.contents writer.old) (W.contents writer.new) rest.now
        × Lacks line_feed rest.now) }
    ensures err { IfErr result
        (Stops ⊥ run.old text.now (W.contents writer.old) (W.contents writer.new)) }
{
    buffers.lines.clear();
    let mut rest = text;
    while let Some((line, others)) = split_once(rest, b'\n') {
        if let Err(error) = run.apply(line, buffers) {
            return Err(write_before(error, &buffers.lines, &mut buffers.spelled, writer));
        }
        rest = others;
    }
    write_outcome(&buffers.lines, &mut buffers.spelled, writer)?;
    send_out(writer)?;
    Ok(rest)
}

// At most this number of bytes is read at once.
const PIECE: usize = 65_536;

/// Replays a tape over the market of a setup: reads it to its end, and before it reads on it writes the output lines of
/// all that it has read and flushes the writer, so that a user that types into a pipe is answered line by line. A read
/// is one call of the reader, and 1,000,000,000 of them are too many, as are 2^47 lines.
pub fn replay<R: Read, W: Write>(
    alloc: Global,
    setup: &Setup,
    reader: &mut R,
    writer: &mut W,
) -> Result<Counts, TapeError>
    // All was read, and the output text of its events was written; in it quiet orders leave no trace.
    ensures ok { IfOk result (λ counts.
        ReplaysAll setup.now counts (R.remaining reader.old) (R.remaining reader.new)
        (W.contents writer.old) (W.contents writer.new)) }
    // What was read, and which part of the output text of its events was written; the same of it.
    ensures err { IfErr result (λ e.
        StopsAt setup.now e (R.remaining reader.old) (R.remaining reader.new)
        (W.contents writer.old) (W.contents writer.new)) }
{
    replay_on(alloc, setup, LevelBook::new(alloc), reader, writer)
}

/// The same over any empty book.
pub fn replay_on<B: Book + Drop, R: Read, W: Write>(
    alloc: Global,
    setup: &Setup,
    book: B,
    reader: &mut R,
    writer: &mut W,
) -> Result<Counts, TapeError>
    requires { B.orders book ≡ [] }
    ensures ok { IfOk result (λ counts.
        ReplaysAll setup.now counts (R.remaining reader.old) (R.remaining reader.new)
        (W.contents writer.old) (W.contents writer.new)) }
    ensures err { IfErr result (λ e.
        StopsAt setup.now e (R.remaining reader.old) (R.remaining reader.new)
        (W.contents writer.old) (W.contents writer.new)) }
{
    let mut run = Run::new(alloc, setup.copy(alloc)?, book)?;
    let mut pending = Pending::new(alloc, PIECE)?;
    let mut buffers = LineBuffers::new(alloc);
    for _ in 0..MOST_READS {
        if run.counts().events > MOST_LINES {
            return Err(TapeError::Turns);
        }
        if !pending.read(reader)? {
            return finish(run.counts(), pending.text());
        }
        let rest = apply_lines(&mut run, &mut buffers, writer, pending.text())?.len();
        keep_rest(&mut pending, rest, run.counts())?;
    }
    Err(TapeError::Turns)
}
