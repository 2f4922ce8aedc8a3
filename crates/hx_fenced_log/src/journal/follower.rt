//! The standby of an exchange.
ghost use Rattle.std.specs.Prelude.{◌≡◌, ◌≤◌, [], None, length, IfOk, IfErr, OnOk, OnErr};
ghost use mathlib.Core.List.{IsPrefix};
ghost use Rattle.hx_fenced_log.specs.Terms.{start};
ghost use Rattle.hx_fenced_log.specs.WriterFaults.{IsTakeoverFault};
ghost use Rattle.hx_fenced_log.specs.JournalStates.{HasRead, reported, durable, TellsMore, count_read};

use crate::{KeepError, Log, LogError, LogJournal, LogWriter};
use std::alloc::Global;
use std::marker::Model;

/// A reader of a log that may take over: the standby of an exchange. It reports the lines that are taken of what it has
/// read.
#[derive(Drop)]
pub struct Follower<L: Log> {
    log: L,
    writer: LogWriter,
}

impl<L: Log> Model for Follower<L> {
    ghost use Rattle.hx_fenced_log.specs.JournalStates.{FollowerState, HasRead};

    ghost Value = { FollowerState L };

    ghost view = { λ f. record { log = f.log; writer = f.writer } };

    ghost invariant = { λ f. HasRead (L.committed f.log) f.writer.reading };
}

impl<L: Log> Follower<L> {
    /// A reader that has read nothing, and takes over as this writer, from 1 on.
    pub fn new(log: L, writer: u64) -> Follower<L>
        ensures { result ≡ record {
          log = log;
          writer = record { writer = writer; reading = start };
        } }
    {
        Follower::at(log, LogWriter::new(writer))
    }

    /// A reader that has read as far as a writer has.
    pub fn at(log: L, writer: LogWriter) -> Follower<L>
        requires { HasRead (L.committed log) writer.reading }
        ensures { result ≡ record { log = log; writer = writer } }
    {
        Follower { log, writer }
    }

    /// The log, given out.
    pub fn into_log(self) -> L
        ensures { result ≡ self.log }
    {
        self.log
    }

    /// The active writer, as far as it has read; 0 if there was none yet.
    pub fn holder(&self) -> u64
        ensures { result ≡ self.now.writer.reading.writer }
    {
        self.writer.holder()
    }

    /// How many records it has read.
    pub fn count_read(&self) -> u64
        ensures { result ≡ count_read self.now.writer.reading }
    {
        self.writer.count_read()
    }

    /// It has read the first records of the log. The call does nothing.
    pub fn stands(&self)
        ensures { HasRead (L.committed self.now.log) self.now.writer.reading }
    {
        let _ = &self.writer;
    }

    /// Reads on: the lines that count of what is new, as a part of a tape. If it has read no record, none stood there.
    /// After an error it has read nothing more.
    pub fn read_on(&mut self, alloc: Global) -> Result<Vec<u8>, LogError>
        ensures who { self.new.writer.writer ≡ self.old.writer.writer }
        ensures ok { IfOk result (λ text.
            TellsMore (reported L.committed self.old) (reported L.committed self.new) text.items) }
        ensures some { OnOk result
            (count_read self.new.writer.reading ≡ count_read self.old.writer.reading
            → length (L.committed self.old.log) ≤ count_read self.old.writer.reading) }
        ensures grows { IsPrefix (L.committed self.old.log) (L.committed self.new.log) }
        ensures err { OnErr result (self.new.writer ≡ self.old.writer) }
        ensures same { OnErr result (reported L.committed self.new ≡ reported L.committed self.old) }
    {
        self.writer.follow(alloc, &mut self.log)
    }

    /// Takes over: the lines that the reader has reported are durable in the journal, and nothing waits. An error gives
    /// the reader back, as it was. After `KeepError::Log(LogError::Taken)` there is more to read first.
    pub fn take_over(self, alloc: Global) -> Result<LogJournal<L>, (KeepError, Follower<L>)>
        ensures durable { IfOk result (λ j. durable L.committed j ≡ reported L.committed self) }
        ensures waiting { IfOk result (λ j. j.waiting ≡ []) }
        ensures open { IfOk result (λ j. j.fault ≡ None) }
        ensures who { IfOk result (λ j. j.writer.writer ≡ self.writer.writer) }
        ensures grows { IfOk result (λ j. IsPrefix (L.committed self.log) (L.committed j.log)) }
        ensures err { IfErr result (λ e. e.1.writer ≡ self.writer) }
        ensures same { IfErr result (λ e. reported L.committed e.1 ≡ reported L.committed self) }
        ensures fault { IfErr result (λ e. IsTakeoverFault
            (L.committed self.log) (L.committed e.1.log) self.writer e.0) }
    {
        let Follower {
            mut log,
            mut writer,
        } = self;
        match writer.take_over(alloc, &mut log) {
            Ok(()) => Ok(LogJournal::new(alloc, log, writer)),
            Err(error) => Err((error, Follower::at(log, writer))),
        }
    }
}
