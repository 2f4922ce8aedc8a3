//! How a log is read, record by record.
ghost use Rattle.std.specs.Prelude.{◌≡◌, SomeIff};
ghost use Rattle.hx_fenced_log.specs.Records.{IsHead};
ghost use Rattle.hx_fenced_log.specs.Terms.{start, after, IsReason, next_of, takeover_of};

use crate::{Head, LogRecord};

/// What a reader makes of a record.
#[derive(Clone, Copy, Debug, PartialEq, Eq, Drop)]
pub enum Verdict {
    /// It counts: its lines are the next ones.
    Counts,
    /// It is passed over: its term is before the one that stands.
    EarlierTerm,
    /// It is passed over: its term stands, and another began it.
    OtherWriter,
    /// It is passed over: its index is not the next one.
    OtherIndex,
}

/// How far a log is read: what stands, and what is next. If nothing is read, no term stands, which is said by term 0.
#[derive(Clone, Copy, Debug, PartialEq, Eq)]
pub struct Reading {
    /// The number of the record that is read next.
    pub number: u64,
    /// The term that stands.
    pub term: u64,
    /// The writer that began it.
    pub writer: u64,
    /// The index of the next line.
    pub index: u64,
}

impl Reading {
    /// Of a log of which nothing is read.
    pub fn start() -> Reading
        ensures { result ≡ start }
    {
        Reading {
            number: 1,
            term: 0,
            writer: 0,
            index: 1,
        }
    }

    /// Reads the next record: whether it counts, and if not, why.
    pub fn read(&mut self, found: &LogRecord) -> Verdict
        requires { found.now.head.number ≡ self.old.number }
        ensures after { self.new ≡ after self.old found.now }
        ensures reason { IsReason self.old found.now.head result }
    {
        let head = found.head();
        let verdict = self.verdict_on(&head);
        self.number += 1;
        if let Verdict::Counts = verdict {
            self.term = head.term;
            self.writer = head.writer;
            self.index += found.count();
        }
        verdict
    }

    // Whether a record with this head counts as the next one.
    fn verdict_on(&self, head: &Head) -> Verdict
        ensures { IsReason self.now head.now result }
    {
        if head.term < self.term {
            Verdict::EarlierTerm
        } else if head.term == self.term && head.writer != self.writer {
            Verdict::OtherWriter
        } else if head.index != self.index {
            Verdict::OtherIndex
        } else {
            Verdict::Counts
        }
    }

    /// The head of the next record of the writer whose term stands; none if no record of a log may have it: if no term
    /// stands, or the numbers are used up.
    pub fn next(&self) -> Option<Head>
        ensures { SomeIff result (IsHead (next_of self.now)) (next_of self.now) }
    {
        let head = Head {
            number: self.number,
            term: self.term,
            writer: self.writer,
            index: self.index,
        };
        if head.is_of_log() { Some(head) } else { None }
    }

    /// The head of the record by which a writer takes over: of the next term, at the next index. None if no record of a
    /// log may have it: for writer 0, or if the numbers are used up.
    pub fn takeover(&self, writer: u64) -> Option<Head>
        ensures { SomeIff result
            (IsHead (takeover_of writer self.now)) (takeover_of writer self.now) }
    {
        let head = Head {
            number: self.number,
            term: self.term.checked_add(1)?,
            writer,
            index: self.index,
        };
        if head.is_of_log() { Some(head) } else { None }
    }
}
