//! How the journal of a day is opened.

use crate::date::date_of;
use crate::fault::DayJournalError;
use crate::file::{PatientFile, Syncs};
use hx_engine::Recovered;
use hx_journal::{FileJournal, Head, HostFile, Noted};
use hx_market::Event;
use hx_recovery::{Progress, recover};
use hx_serve::{Notice, NoticeSink, time_of};
use std::fs;
use std::rt::Files;
use std::time::Clock;

/// The journal of a day in a file of the system.
pub type DayFile<'a, B, T> = FileJournal<Noted<PatientFile<'a, HostFile, B, T>>>;

/// Which journal is wanted, and when it is synced.
#[derive(Clone, Copy)]
pub struct Wanted<'a> {
    /// The session, 10 letters or digits.
    pub session: &'a [u8],
    /// The day, since 1970.
    pub day: u64,
    /// The digest of the setup's text, as `digest_of` gives it.
    pub setup: &'a [u8],
    /// When it is brought to the disk.
    pub syncs: Syncs,
}

// The number of events after which the operator gets a notice of how far a journal is read.
const STEP: u64 = 1_000_000;

// Posts how far the reading has come.
#[derive(Clone, Copy)]
struct Telling<'a, B> {
    notice_sink: &'a B,
}

impl<B: NoticeSink> Progress for Telling<'_, B> {
    fn reached(&self, events: u64) {
        if events % STEP == 0 {
            self.notice_sink.post(Notice::Reading { events });
        }
    }
}

/// Opens the journal of a day, or makes it if no file of this name is there, and reads its events. What a crash left
/// after its last whole block is cut off. While it is open no other process opens it. The notice sink gets a notice of
/// each million events that are read.
///
/// Errors: if the file is of another session, day or setup, or damaged, it is not touched.
pub fn open_journal<'a, B: NoticeSink, T: Files<File = fs::File> + AllocGlobal + Clock>(
    rt: &'a T,
    notice_sink: &'a B,
    path: &str,
    wanted: Wanted<'_>,
) -> Result<Recovered<DayFile<'a, B, T>>, DayJournalError> {
    let alloc = rt.alloc();
    let day = date_of(alloc, wanted.day)?;
    let head = Head::new(alloc, wanted.session, &day, wanted.setup)?;
    let (file, bytes) = HostFile::open(rt, path)?;
    let file = PatientFile::new(file, bytes.len(), wanted.syncs, notice_sink, rt);
    Ok(recover(alloc, file, &bytes, &head, &Telling { notice_sink })?)
}

/// The last of the times of events, in nanoseconds since midnight: a day that goes on from them gives no time below it.
pub fn last_time(events: &[Event]) -> u64 {
    let mut last = 0;
    for event in events {
        last = time_of(event).max(last);
    }
    last
}
