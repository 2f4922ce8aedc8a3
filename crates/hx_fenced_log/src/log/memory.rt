//! A log in memory.
ghost use Rattle.std.specs.Prelude.{◌≡◌, ◌<◌, ◌≤◌, ◌-◌, ◌+◌, [], ◌∷◌, ◌++◌, length, drop, IfOk, IfErr, OnOk, OnErr, IsErrOf};
ghost use mathlib.Core.List.{IsPrefix};
ghost use Rattle.hx_fenced_log.specs.Logs.{Stands, AreNumbered};
ghost use Rattle.hx_fenced_log.specs.Memory.{IsNoAppend};

use crate::{Log, LogError, LogRecord};
use hx_units::NoMemory;
use std::alloc::Global;
use std::marker::Model;

/// A log in memory: its records, in the order of their numbers.
#[derive(Drop)]
pub struct MemoryLog {
    alloc: Global,
    records: Vec<LogRecord>,
}

impl Model for MemoryLog {
    ghost use Rattle.std.specs.Prelude.{List};
    ghost use Rattle.hx_fenced_log.specs.Records.{Record};
    ghost use Rattle.hx_fenced_log.specs.Logs.{AreNumbered};

    ghost Value = { List Record };

    ghost view = { λ log. log.records.items };

    ghost invariant = { λ log. AreNumbered 1 log.records.items };
}

impl MemoryLog {
    /// A log without records.
    pub fn new(alloc: Global) -> MemoryLog
        ensures { result ≡ [] }
    {
        MemoryLog {
            alloc,
            records: Vec::new(alloc),
        }
    }

    /// How many records stand there.
    pub fn len(&self) -> usize
        ensures { result ≡ length self.now }
    {
        self.records.len()
    }
}

impl Log for MemoryLog {
    ghost committed = { λ log. log };

    /// Appends a record if its number is the next one, and else leaves the log as it was.
    fn append(&mut self, next: &LogRecord) -> Result<(), LogError>
        ensures grows { IsPrefix self.old self.new }
        ensures stands { OnOk result (Stands self.new next.now) }
        ensures was_free { OnOk result (length self.old < next.now.head.number) }
        ensures taken { IsErrOf result LogError.Taken
            → next.now.head.number ≤ length self.new }
        ensures gap { IsErrOf result LogError.Gap
            → length self.old + 1 < next.now.head.number }

        ensures appended { OnOk result (self.new ≡ self.old ++ next.now ∷ []) }
        ensures is_next { OnOk result (next.now.head.number ≡ length self.old + 1) }
        ensures unchanged { OnErr result (self.new ≡ self.old) }
        ensures fault { IfErr result (IsNoAppend self.old next.now.head.number) }
    {
        let before = (next.head().number - 1) as usize;
        if before < self.records.len() {
            return Err(LogError::Taken);
        }
        if before > self.records.len() {
            return Err(LogError::Gap);
        }
        let copy = next.copy(self.alloc)?;
        self.records.push(copy)?;
        Ok(())
    }

    /// All records from a number on.
    fn read(&mut self, alloc: Global, from: u64) -> Result<Vec<LogRecord>, LogError>
        requires { 0 < from }

        ensures grows { IsPrefix self.old self.new }
        ensures records { IfOk result (λ rs. IsPrefix rs.items (drop (from - 1) self.new)) }
        ensures numbered { IfOk result (λ rs. AreNumbered from rs.items) }
        ensures some { IfOk result (λ rs. rs.items ≡ [] → length self.old < from) }

        ensures all { IfOk result (λ rs. rs.items ≡ drop (from - 1) self.old) }
        ensures unchanged { self.new ≡ self.old }
        ensures fault { IfErr result (λ e. e ≡ LogError.NoMemory) }
    {
        let before = (from - 1) as usize;
        if before >= self.records.len() {
            return Ok(Vec::new(alloc));
        }
        let found = copies(alloc, &self.records[before..])?;
        Ok(found)
    }
}

// Equal records.
fn copies(alloc: Global, records: &[LogRecord]) -> Result<Vec<LogRecord>, NoMemory>
    ensures { IfOk result (λ found. found.items ≡ records.now) }
{
    let mut found = Vec::new(alloc);
    for next in records {
        found.push(next.copy(alloc)?)?;
    }
    Ok(found)
}
