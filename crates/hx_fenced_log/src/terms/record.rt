//! The records of a log.
ghost use Rattle.std.specs.Prelude.{◌≡◌, length, IfOk, IfErr};
ghost use Rattle.hx_journal.specs.Lines.{text_of};
ghost use Rattle.hx_fenced_log.specs.Lines.{IsOfLog, IsRecordFault};

use crate::Head;
use crate::terms::head::NUMBER_END;
use crate::terms::lines::count_lines;
use hx_units::NoMemory;
use std::alloc::Global;
use std::marker::Model;

/// Why there is no such record.
#[derive(Clone, Copy, Debug, PartialEq, Eq, Drop)]
pub enum RecordError {
    /// A number of its head is 0 or has more than 14 digits, or the index of its last line has.
    Number,
    /// A line is none of a tape: it has a zero, or begins with `#`.
    Line {
        /// Which one, counted from 1.
        number: u64,
    },
    /// Bytes stand after the last line feed.
    Unended,
}

/// A record of a log: its head, and the lines that it keeps. A line is one of a tape: it has no zero, no line feed,
/// and does not begin with `#`. A record that begins a term has none.
#[derive(Drop)]
pub struct LogRecord {
    head: Head,
    text: Vec<u8>,
    count: u64,
}

impl Model for LogRecord {
    ghost use Rattle.hx_fenced_log.specs.Records.{Record};

    ghost Value = { Record };

    ghost use Rattle.hx_fenced_log.specs.RecordInside.{record_of, IsRecordInside};

    ghost view = { record_of };

    ghost invariant = { IsRecordInside };
}

impl LogRecord {
    /// The record of this head with the lines of a text, each with a line feed after it.
    ///
    /// Errors: the first thing that is wrong, of the head, then line by line, then of the last line's index.
    pub fn new(head: Head, text: Vec<u8>) -> Result<LogRecord, RecordError>
        ensures head { IfOk result (λ r. r.head ≡ head) }
        ensures lines { IfOk result (λ r. text.items ≡ text_of r.lines) }
        ensures of_log { IfOk result (λ r. IsOfLog r) }
        ensures err { IfErr result (IsRecordFault head text.items) }
    {
        if !head.is_of_log() {
            return Err(RecordError::Number);
        }
        let count = count_lines(&text)?;
        if count > NUMBER_END - head.index {
            return Err(RecordError::Number);
        }
        Ok(LogRecord { head, text, count })
    }

    /// An equal record.
    pub fn copy(&self, alloc: Global) -> Result<LogRecord, NoMemory>
        ensures { IfOk result (λ r. r ≡ self.now) }
    {
        Ok(LogRecord {
            head: self.head,
            text: Vec::from_slice(alloc, &self.text)?,
            count: self.count,
        })
    }

    /// The writer that appended it, and where it stands.
    pub fn head(&self) -> Head
        ensures head { result ≡ self.now.head }
        ensures of_log { IsOfLog self.now }
    {
        self.head
    }

    /// Its lines, each with a line feed after it: a part of a tape.
    pub fn text(&self) -> &[u8]
        ensures { result.now ≡ text_of self.now.lines }
    {
        &self.text
    }

    /// How many lines it has.
    pub fn count(&self) -> u64
        ensures { result ≡ length self.now.lines }
    {
        self.count
    }
}
