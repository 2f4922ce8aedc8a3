//! How a day resumes from its journal.
ghost use Rattle.std.specs.Prelude.{◌≡◌, map, IfOk};
ghost use Rattle.hx_journal.specs.Lines.{lines_of, text_of};
ghost use Rattle.hx_journal.specs.Records.{recovered};
ghost use Rattle.hx_tape_lines.specs.Text.{record_of};
ghost use Rattle.hx_desk.specs.Entries.{restored};
ghost use Rattle.hx_engine.specs.Journals.{lines};

use hx_engine::{Journal, JournalError, Recovered};
use hx_journal::{FileJournal, Head, Noted, OpenError, RawFile};
use hx_market::{Bytes, Event};
use hx_tape_lines::read_event;
use hx_units::{NoMemory, split_once};
use std::alloc::{AllocError, AllocFailed, Global};

/// Why a day does not resume from a journal.
#[derive(Clone, Copy, Debug, PartialEq, Eq, Drop)]
pub enum RecoveryError {
    /// The journal is not opened.
    Open(OpenError),
    /// A record of it is no line of an event.
    NoEvent {
        /// Its number, counted from 1.
        record: u64,
    },
    /// There is no memory for a growth.
    NoMemory,
}

impl From<AllocError> for RecoveryError {
    fn from(_error: AllocError) -> RecoveryError {
        RecoveryError::NoMemory
    }
}

impl<T: Drop> From<AllocFailed<T>> for RecoveryError {
    fn from(_error: AllocFailed<T>) -> RecoveryError {
        RecoveryError::NoMemory
    }
}

impl From<NoMemory> for RecoveryError {
    fn from(_error: NoMemory) -> RecoveryError {
        RecoveryError::NoMemory
    }
}

/// An observer of the number of events that were read from a journal.
pub trait Progress {
    /// `events` events are read.
    fn reached(&self, events: u64);
}

/// No observer.
#[derive(Clone, Copy, Drop)]
pub struct Unwatched;

impl Progress for Unwatched {
    fn reached(&self, _events: u64) {}
}

// The events of a tape.
fn read_events<P: Progress>(
    alloc: Global,
    tape: &[u8],
    progress: &P,
) -> Result<Vec<Event>, RecoveryError>
    ensures { IfOk result (λ events. tape.now ≡ text_of (map record_of events.items)) }
{
    let mut events = Vec::new(alloc);
    let mut room = Vec::new(alloc);
    let mut rest = tape;
    while let Some((line, others)) = split_once(rest, b'\n') {
        let Some(event) = read_event(alloc, &mut room, Bytes::none(), line)? else {
            return Err(no_event(events.len()));
        };
        events.push(event)?;
        progress.reached(events.len() as u64);
        rest = others;
    }
    if !rest.is_empty() {
        return Err(no_event(events.len()));
    }
    Ok(events)
}

/// The events of a tape whose lines are records, one from each, in their order. `progress` is called for each.
///
/// Errors: `NoEvent` if a line is none of an event, or the last one has no end; `NoMemory`.
pub fn events_of<P: Progress>(
    alloc: Global,
    tape: &[u8],
    progress: &P,
) -> Result<Vec<Event>, RecoveryError>
    ensures tape { IfOk result (λ events. tape.now ≡ text_of (map record_of events.items)) }
    ensures records { IfOk result (λ events. lines_of tape.now
        ≡ lines record_of (restored events.items)) }
{
    let events = read_events(alloc, tape, progress)?;
    Ok(events)
}

// The record after the first `events` is no line of an event.
fn no_event(events: usize) -> RecoveryError {
    RecoveryError::NoEvent {
        record: (events as u64).saturating_add(1),
    }
}

/// The journal of a file that has these bytes, all of them on the disk, and the events that it holds: what an exchange
/// resumes from. `progress` is called for each event that is read.
///
/// Errors: `Open` if the journal is not opened, `NoEvent` if a record is no line of an event, `NoMemory`.
pub fn recover<F: RawFile + Drop, P: Progress>(
    alloc: Global,
    file: F,
    bytes: &[u8],
    head: &Head,
    progress: &P,
) -> Result<Recovered<FileJournal<Noted<F>>>, RecoveryError>
    // The events are those whose records the file holds.
    ensures read { IfOk result (λ r. map record_of r.events.items ≡ recovered bytes.now) }
{
    match FileJournal::open(alloc, Noted::opened(file, bytes), bytes, head) {
        Ok((journal, tape)) => {
            let events = events_of(alloc, &tape, progress)?;
            Ok(Recovered { journal, events })
        }
        Err((OpenError::Journal(JournalError::Memory), _file)) => Err(RecoveryError::NoMemory),
        Err((error, _file)) => Err(RecoveryError::Open(error)),
    }
}
