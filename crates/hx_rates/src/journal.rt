//! Groups of records of 115 bytes through a journal: each group is appended, and brought to the disk by one write and
//! one sync.
ghost use Rattle.std.specs.Prelude.{◌≡◌, [], true, IfOk};
ghost use Rattle.hx_disk.specs.Calls.{seen_of};
ghost use Rattle.hx_journal.specs.Files.{stored, appended};
ghost use Rattle.hx_journal.specs.Records.{records_of};

use crate::failure::Failure;
use crate::report::report;
use hx_journal::{FileJournal, Head, HostFile, Journal, JournalError, MemoryFile, Noted, RawFile};
use std::alloc::Global;
use std::fs;
use std::rt::{Clock, Files};
use std::time::Instant;

// A record with the number of bytes of an Enter Order Message's line.
const RECORD: [u8; 115] = [b'7'; 115];

/// The number of groups, and the number of records of each.
#[derive(Clone, Copy)]
pub struct Groups {
    pub groups: u64,
    pub records: u64,
}

fn append_group(journal: &mut impl Journal, records: u64) -> Result<(), JournalError> {
    for _ in 0..records {
        journal.append(&RECORD)?;
    }
    journal.sync()
}

fn append_all(journal: &mut impl Journal, groups: Groups) -> Result<(), JournalError> {
    for _ in 0..groups.groups {
        append_group(journal, groups.records)?;
    }
    Ok(())
}

fn rate<R: Print + Eprint + Clock>(
    rt: &R,
    journal: &mut impl Journal,
    groups: Groups,
) -> Result<(), Failure> {
    let begun = Instant::now(rt)?;
    append_all(journal, groups)?;
    report(rt, begun, "a journal", groups.groups, "groups")?;
    Ok(())
}

/// The journal of a new file, which has no records.
#[tactic(auto, using(crate::proofs::NoRecords::none_durable, crate::proofs::NoRecords::none_appended))]
pub fn new_journal<F: RawFile + Drop>(
    alloc: Global,
    file: F,
    bytes: &[u8],
) -> Result<FileJournal<Noted<F>>, Failure>
    ensures appended { IfOk result (λ j.
        records_of (appended (λ d. seen_of d.log.events) j) ≡ []) }
    ensures durable { IfOk result (λ j. records_of (stored (λ d. seen_of d.log.events) j) ≡ []) }
    ensures is_open { IfOk result (λ j. j.is_open ≡ true) }
{
    let head = Head::new(alloc, b"HX00000001", b"20260711", b"rates")?;
    let (journal, tape) = FileJournal::open(alloc, Noted::opened(file, bytes), bytes, &head)?;
    if !tape.is_empty() {
        return Err(Failure::NotNew);
    }
    Ok(journal)
}

/// A journal in a new file of the system, with this number of zeros laid ahead.
pub fn journal_rate<R: Print + Eprint + Clock + Files<File = fs::File> + AllocGlobal>(
    rt: &R,
    alloc: Global,
    path: &str,
    groups: Groups,
    ahead: usize,
) -> Result<(), Failure> {
    let (file, bytes) = HostFile::open(rt, path)?;
    let mut journal = new_journal(alloc, file, &bytes)?;
    if ahead != 0 {
        journal.zeros_ahead(alloc, ahead)?;
    }
    rate(rt, &mut journal, groups)
}

/// A journal in a file in memory.
pub fn memory_journal_rate<R: Print + Eprint + Clock>(
    rt: &R,
    alloc: Global,
    groups: Groups,
) -> Result<(), Failure> {
    let file = MemoryFile::new(alloc, &[], u64::MAX)?;
    let mut journal = new_journal(alloc, file, &[])?;
    rate(rt, &mut journal, groups)
}
