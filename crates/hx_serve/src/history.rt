//! The history of a day as a tape.
ghost use Rattle.std.specs.Prelude.{◌∷◌, [], OnOk};
ghost use Rattle.std.specs.Io.KnownBytes.{Appends};
ghost use Rattle.hx_serve.specs.LastLine.{tape_of};

use crate::fault::ServeError;
use hx_engine::Entry;
use hx_tape_lines::write_event;
use std::alloc::Global;
use std::io::Write;

// Writes the line of an entry, which is spelled in place of what stood in the list.
fn write_entry<W: Write>(
    alloc: Global,
    line: &mut Vec<u8>,
    entry: &Entry,
    writer: &mut W,
) -> Result<(), ServeError>
    ensures written { OnOk result (
        Appends (W.contents writer.old) (W.contents writer.new) (tape_of (entry.now ∷ []))) }
{
    line.clear();
    write_event(alloc, line, &entry.event)?;
    if writer.write_all(line).is_err() {
        return Err(ServeError::Write);
    }
    Ok(())
}

/// Writes a history as a tape: the lines of its events, in its order, each as soon as it is formatted. A replay of it
/// over the same setup gives the day's feed and replies. If it fails, a beginning may be written.
pub fn write_history<W: Write>(
    alloc: Global,
    history: &[Entry],
    writer: &mut W,
) -> Result<(), ServeError>
    ensures { OnOk result (
        Appends (W.contents writer.old) (W.contents writer.new) (tape_of history.now)) }
{
    let mut line = Vec::new(alloc);
    for entry in history {
        write_entry(alloc, &mut line, entry, writer)?;
    }
    if writer.flush().is_err() {
        return Err(ServeError::Write);
    }
    Ok(())
}
