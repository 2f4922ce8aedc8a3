//! A writer of a log.
ghost use Rattle.std.specs.Prelude.{◌≡◌, ◌↔◌, ◌<◌, ◌-◌, List, length, IsTrue, IfOk, IfErr, OnOk, OnErr};
ghost use mathlib.Core.List.{IsPrefix};
ghost use Rattle.hx_journal.specs.Lines.{text_of};
ghost use Rattle.hx_fenced_log.specs.Lines.{AreTapeLines};
ghost use Rattle.hx_fenced_log.specs.Records.{Record};
ghost use Rattle.hx_fenced_log.specs.Terms.{start, after, after_all, taken};
ghost use Rattle.hx_fenced_log.specs.Logs.{Stands, AreNumbered};
ghost use Rattle.hx_fenced_log.specs.Writers.{IsAt, Follows, Keeps, TakesOver};
ghost use Rattle.hx_fenced_log.specs.WriterFaults.{IsKeepFault, IsTakeoverFault, IsAppendFault};

use crate::{KeepError, Log, LogError, LogRecord, Reading, Verdict};
use hx_units::NoMemory;
use std::alloc::Global;

/// A writer of a log: its number, and how far it has read. It may report the lines that are taken of what it has read,
/// and nothing else.
#[derive(Clone, Copy)]
pub struct LogWriter {
    /// Its number, from 1 on.
    pub writer: u64,
    /// How far it has read.
    pub reading: Reading,
}

impl LogWriter {
    /// A writer that has read nothing.
    pub fn new(writer: u64) -> LogWriter
        ensures writer { result.writer ≡ writer }
        ensures reading { result.reading ≡ start }
    {
        LogWriter {
            writer,
            reading: Reading::start(),
        }
    }

    /// Whether the term that stands is its own, as far as it has read.
    pub fn is_active(&self) -> bool
        ensures { IsTrue result ↔ (self.now.reading.writer ≡ self.now.writer) }
    {
        self.reading.writer == self.writer
    }

    /// The active writer, as far as it has read; 0 if there was none yet.
    pub fn holder(&self) -> u64
        ensures { result ≡ self.now.reading.writer }
    {
        self.reading.writer
    }

    /// How many records it has read.
    pub fn count_read(&self) -> u64
        ensures { result ≡ self.now.reading.number - 1 }
    {
        self.reading.number.saturating_sub(1)
    }

    /// Reads on: the lines that count of what stands after what it has read, as a part of a tape. None if nothing
    /// stands there. After an error it has read nothing more.
    pub fn follow<L: Log>(&mut self, alloc: Global, log: &mut L) -> Result<Vec<u8>, LogError>
        ensures who { self.new.writer ≡ self.old.writer }
        ensures ok { IfOk result (λ text. (known : List Record)
            → IsAt (L.committed log.old) known self.old.reading
            → Follows (L.committed log.new) known self.old.reading self.new.reading text.items) }
        ensures some { OnOk result (self.new.reading.number ≡ self.old.reading.number
            → length (L.committed log.old) < self.old.reading.number) }
        ensures err { OnErr result (self.new ≡ self.old) }
        ensures grows { IsPrefix (L.committed log.old) (L.committed log.new) }
    {
        if self.reading.number == 0 {
            return Err(LogError::NoRecord { number: 0 });
        }
        let records = log.read(alloc, self.reading.number)?;
        let mut reading = self.reading;
        let text = read_all(alloc, &mut reading, &records)?;
        self.reading = reading;
        Ok(text)
    }

    /// Appends the lines of a text, each with a line feed after it: Ok means that they count, for every reader, and may
    /// be published. After an error none of them may be published.
    ///
    /// Errors: the first that there is, in the order of `KeepError`.
    pub fn keep<L: Log>(&mut self, log: &mut L, text: Vec<u8>) -> Result<(), KeepError>
        ensures who { self.new.writer ≡ self.old.writer }
        ensures ok { OnOk result ((known : List Record)
            → IsAt (L.committed log.old) known self.old.reading
            → Keeps (L.committed log.new) known self.old self.new text.items) }
        ensures err { OnErr result (self.new ≡ self.old) }
        ensures fault { IfErr result (IsKeepFault
            (L.committed log.old) (L.committed log.new) self.old text.items) }
        ensures grows { IsPrefix (L.committed log.old) (L.committed log.new) }
    {
        if !self.is_active() {
            return Err(KeepError::NotActive);
        }
        let Some(head) = self.reading.next() else {
            return Err(KeepError::NoHead);
        };
        match LogRecord::new(head, text) {
            Ok(next) => self.append(log, &next),
            Err(error) => Err(KeepError::Lines(error)),
        }
    }

    /// Takes over: appends an empty record of the next term. Ok means that this term stands, and is its own.
    pub fn take_over<L: Log>(&mut self, alloc: Global, log: &mut L) -> Result<(), KeepError>
        ensures ok { OnOk result ((known : List Record)
            → IsAt (L.committed log.old) known self.old.reading
            → TakesOver (L.committed log.new) known self.old self.new) }
        ensures err { OnErr result (self.new ≡ self.old) }
        ensures fault { IfErr result (IsTakeoverFault
            (L.committed log.old) (L.committed log.new) self.old) }
        ensures grows { IsPrefix (L.committed log.old) (L.committed log.new) }
    {
        let Some(head) = self.reading.takeover(self.writer) else {
            return Err(KeepError::NoHead);
        };
        match LogRecord::new(head, Vec::new(alloc)) {
            Ok(first) => self.append(log, &first),
            Err(error) => Err(KeepError::Lines(error)),
        }
    }

    // Appends its next record, and reads it once the log has answered.
    fn append<L: Log>(&mut self, log: &mut L, next: &LogRecord) -> Result<(), KeepError>
        requires { next.now.head.number ≡ self.old.reading.number }
        ensures who { self.new.writer ≡ self.old.writer }
        ensures ok { OnOk result (self.new.reading ≡ after self.old.reading next.now) }
        ensures stands { OnOk result (Stands (L.committed log.new) next.now) }
        ensures err { OnErr result (self.new ≡ self.old) }
        ensures fault { IfErr result (IsAppendFault
            (L.committed log.old) (L.committed log.new) self.old.reading.number) }
        ensures grows { IsPrefix (L.committed log.old) (L.committed log.new) }
    {
        match log.append(next) {
            Ok(()) => {
                let _verdict = self.reading.read(next);
                Ok(())
            }
            Err(error) => Err(KeepError::Log(error)),
        }
    }
}

// Reads records: the lines of those that count, each with a line feed after it.
fn read_all(
    alloc: Global,
    reading: &mut Reading,
    records: &[LogRecord],
) -> Result<Vec<u8>, NoMemory>
    requires { AreNumbered reading.old.number records.now }
    ensures after { OnOk result (reading.new ≡ after_all reading.old records.now) }
    ensures text { IfOk result (λ text.
        text.items ≡ text_of (taken reading.old records.now)) }
    ensures lines { OnOk result (AreTapeLines (taken reading.old records.now)) }
{
    let mut text = Vec::new(alloc);
    for found in records {
        let _of_log = found.head();
        if let Verdict::Counts = reading.read(found) {
            text.extend_from_slice(found.text())?;
        }
    }
    Ok(text)
}
