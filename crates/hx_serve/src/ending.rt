//! How a day ends.
ghost use Rattle.std.specs.Prelude.{◌≡◌, IfOk, OnOk};
ghost use Rattle.std.specs.Io.KnownBytes.{Appends};
ghost use Rattle.hx_serve.specs.Faults.{fault_of_day, resume_fault};
ghost use Rattle.hx_serve.specs.LastLine.{last_line};

use crate::fault::ServeError;
use hx_engine::DeskError;
use itoa::Buffer;
use std::alloc::{AllocError, Global};
use std::io::Write;

/// The fault that is answered.
pub fn fault_of_day(
    network: bool,
    memory: bool,
    operated: Option<ServeError>,
    written: Option<ServeError>,
) -> Option<ServeError>
    ensures { result ≡ fault_of_day network memory operated written }
{
    if network {
        return Some(ServeError::Network);
    }
    if memory {
        return Some(ServeError::NoMemory);
    }
    match operated {
        Some(fault) => Some(fault),
        None => written,
    }
}

/// The fault of a day that refuses to record a durable event again.
pub fn fault_of_resume(error: DeskError) -> ServeError
    ensures { result ≡ resume_fault error }
{
    match error {
        DeskError::NoMemory => ServeError::NoMemory,
        DeskError::Full { .. } => ServeError::Full,
        DeskError::BadTime | DeskError::Limit { .. } | DeskError::NoMember => ServeError::Journal,
    }
}

// The last line.
fn last_line(alloc: Global, events: u64, feed: u64) -> Result<Vec<u8>, AllocError>
    ensures { IfOk result (λ text. text.items ≡ last_line events feed) }
{
    let mut text = Vec::new(alloc);
    let mut buffer = Buffer::new();
    text.extend_from_slice(b"events ")?;
    text.extend_from_slice(buffer.format(events).as_bytes())?;
    text.extend_from_slice(b" feed ")?;
    let mut buffer = Buffer::new();
    text.extend_from_slice(buffer.format(feed).as_bytes())?;
    text.push(b'\n')?;
    Ok(text)
}

/// Writes the last line: the numbers of events and of messages of the feed. If it fails, part of the line may be
/// written.
pub fn write_last_line<W: Write>(
    alloc: Global,
    writer: &mut W,
    events: u64,
    feed: u64,
) -> Result<(), ServeError>
    ensures { OnOk result (
        Appends (W.contents writer.old) (W.contents writer.new) (last_line events feed)) }
{
    let line = last_line(alloc, events, feed)?;
    if writer.write_all(&line).is_err() {
        return Err(ServeError::Write);
    }
    if writer.flush().is_err() {
        return Err(ServeError::Write);
    }
    Ok(())
}
