//! A whole text in words.
ghost use Rattle.std.specs.Prelude.{List, ℕ, OnOk, OnErr};
ghost use Rattle.std.specs.Io.{StopsAt};
ghost use Rattle.std.specs.Io.KnownBytes.{Consumes};
ghost use Rattle.hx_show.specs.Showing.{ReadsLine, IsCut, ShowsAll, ShowsSome};

use crate::choice::Choice;
use crate::fault::ShowError;
use crate::row::show_line;
use hx_units::write_whole;
use std::alloc::Global;
use std::io::{BufRead, ErrorKind, Write};

// Reads the next line into `line`, over its former content, with its line feed if it has one.
fn read_line<R: BufRead>(reader: &mut R, line: &mut Vec<u8>) -> Result<(), ShowError>
    ensures ok { OnOk result (ReadsLine (R.remaining reader.old) (R.remaining reader.new)
        line.new.items) }
    ensures err { OnErr result ((part : List ℕ)
        × Consumes (R.remaining reader.old) (R.remaining reader.new) part) }
{
    line.clear();
    if let Err(e) = reader.read_until(b'\n', line) {
        return Err(match e.kind() {
            ErrorKind::OutOfMemory => ShowError::NoMemory,
            _ => ShowError::Read,
        });
    }
    Ok(())
}

// A line without its line feed, and whether it had one.
fn without_feed(line: &[u8]) -> (&[u8], bool)
    requires { StopsAt line.now 10 }
    ensures { IsCut line.now result.0.now result.1 }
{
    let Some((last, front)) = line.split_last() else {
        return (line, false);
    };
    if *last == b'\n' {
        return (front, true);
    }
    (line, false)
}

/// Shows a tape, or the output of a replay, in words: reads it to its end, and writes for each line that is chosen the
/// time, the sender or receiver, the message by its name in the standard, and its fields with their units. The last
/// line may lack its line feed.
pub fn show<R: BufRead, W: Write>(
    alloc: Global,
    reader: &mut R,
    writer: &mut W,
    choice: Choice,
) -> Result<(), ShowError>
    // All was read, and the words of its chosen lines were written.
    ensures ok { OnOk result (ShowsAll choice (R.remaining reader.old) (R.remaining reader.new)
        (W.contents writer.old) (W.contents writer.new)) }
    // A beginning of the words of what was read was written.
    ensures err { OnErr result (ShowsSome choice (R.remaining reader.old) (R.remaining reader.new)
        (W.contents writer.old) (W.contents writer.new)) }
{
    let mut line = Vec::new(alloc);
    let mut words = Vec::new(alloc);
    for _ in 0..u64::MAX {
        read_line(reader, &mut line)?;
        if line.is_empty() {
            return Ok(());
        }
        let (front, fed) = without_feed(&line);
        words.clear();
        show_line(alloc, &mut words, &choice, front)?;
        write_whole(writer, &words)?;
        if !fed {
            return Ok(());
        }
    }
    Err(ShowError::Read)
}
