//! The records of a log that were reported to a client.
ghost use Rattle.std.specs.Prelude.{◌≡◌, ◌<◌, ◌-◌, ◌+◌, ◌^◌, [], ◌∷◌, ◌++◌, length, drop, IfOk, IfErr};
ghost use Rattle.hx_fenced_log.specs.Logs.{AreNumbered};
ghost use Rattle.hx_etcd_log.specs.Notes.{records_of};
ghost use Rattle.hx_etcd_log.specs.Telling.{Telling};
ghost use Rattle.hx_etcd_log.specs.Reads.{IsCopyFault};

use crate::noted::Noted;
use hx_fenced_log::{LogError, LogRecord};
use hx_units::NoMemory;
use std::alloc::Global;
use std::marker::Model;

/// The records that were reported to a client to stand in a log: how many they are, and the last page of them. Only
/// contracts know the others.
#[derive(Drop)]
pub struct Reported {
    noted: Noted,
    count: u64,
    page: Vec<LogRecord>,
}

impl Model for Reported {
    ghost use Rattle.hx_etcd_log.specs.Telling.{Telling};

    ghost Value = { Telling };

    ghost use Rattle.hx_etcd_log.specs.Inside.{telling_of, IsTellingInside};

    ghost view = { telling_of };

    ghost invariant = { IsTellingInside };
}

impl Reported {
    /// No record was reported.
    pub fn new(alloc: Global) -> Reported
        ensures { result ≡ record { records = []; stored = 0 } }
    {
        Reported {
            noted: Noted::new(),
            count: 0,
            page: Vec::new(alloc),
        }
    }

    /// How many were reported.
    pub fn len(&self) -> u64
        ensures len { result ≡ length self.now.records }
        ensures few { result < 10 ^ 14 }
    {
        self.count
    }

    /// The next one is reported, which the caller has.
    pub fn add(&mut self, next: &LogRecord)
        requires { next.now.head.number ≡ length self.old.records + 1 }
        ensures { self.new ≡ record {
          records = self.old.records ++ next.now ∷ [];
          stored = 0;
        } }
    {
        note_record(&mut self.noted, next);
        self.count = next.head().number;
        self.page.clear();
    }

    /// The next ones are reported. They are retained for a read.
    pub fn add_page(&mut self, page: Vec<LogRecord>)
        requires { AreNumbered (length self.old.records + 1) page.items }
        ensures { self.new ≡ record {
          records = self.old.records ++ page.items;
          stored = length page.items;
        } }
    {
        note_records(&mut self.noted, &page);
        self.count = last_number(self.count, &page);
        self.page = page;
    }

    /// The records from a number on.
    ///
    /// Errors: `Unreachable` of a number in front of those that are retained.
    pub fn copies(&self, alloc: Global, from: u64) -> Result<Vec<LogRecord>, LogError>
        requires { 0 < from }
        ensures ok { IfOk result (λ rs. rs.items ≡ drop (from - 1) self.now.records) }
        ensures numbered { IfOk result (λ rs. AreNumbered from rs.items) }
        ensures err { IfErr result (IsCopyFault self.now from) }
    {
        let before = (from - 1) as usize;
        let dropped = self.count as usize - self.page.len();
        if before < dropped {
            return Err(LogError::Unreachable);
        }
        let at = (before - dropped).min(self.page.len());
        let found = copies(alloc, &self.page[at..])?;
        Ok(found)
    }
}

// The number of the last of these records, which follow that number; or that one, if there are none.
fn last_number(before: u64, records: &[LogRecord]) -> u64
    requires few { before < 10 ^ 14 }
    requires next { AreNumbered (before + 1) records.now }
    ensures last { result ≡ before + length records.now }
    ensures few { result < 10 ^ 14 }
{
    match records.last() {
        Some(last) => last.head().number,
        None => before,
    }
}

// Equal records.
fn copies(alloc: Global, records: &[LogRecord]) -> Result<Vec<LogRecord>, NoMemory>
    ensures { IfOk result (λ found. found.items ≡ records.now) }
{
    let mut found = Vec::new(alloc);
    for next in records {
        found.push(next.copy(alloc)?)?;
    }
    Ok(found)
}

// Notes a record.
fn note_record(noted: &mut Noted, next: &LogRecord)
    ensures { records_of noted.new.notes ≡ records_of noted.old.notes ++ next.now ∷ [] }
{
    let head = next.head();
    let numbers = [head.number, head.term, head.writer, head.index];
    noted.note(&numbers, next.text(), &[]);
}

// Notes records.
fn note_records(noted: &mut Noted, records: &[LogRecord])
    ensures { records_of noted.new.notes ≡ records_of noted.old.notes ++ records.now }
{
    for next in records {
        note_record(noted, next);
    }
}
