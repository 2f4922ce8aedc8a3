//! The journal of an exchange over a log.
ghost use Rattle.std.specs.Prelude.{◌≡◌, ◌++◌, [], ◌∷◌, None, true, false, IfErr, OnOk, OnErr, IsErrOf};
ghost use mathlib.Core.List.{IsPrefix};
ghost use Rattle.hx_journal.specs.Crashes.{Leaves};
ghost use Rattle.hx_journal.specs.Errors.{IsCause};
ghost use Rattle.hx_journal.specs.Lines.{text_of};
ghost use Rattle.hx_journal.specs.Records.{IsRecord};
ghost use Rattle.hx_fenced_log.specs.JournalFaults.{IsAppendFault, IsSyncFault};
ghost use Rattle.hx_fenced_log.specs.JournalStates.{HasRead, durable, appended, is_open, faults, count_read};
ghost use Rattle.hx_fenced_log.specs.Stops.{IsLeftSince};

use crate::{Follower, KeepError, Log, LogError, LogWriter};
use hx_journal::{Journal, JournalError, push_line};
use std::alloc::Global;
use std::marker::Model;

/// The journal of an exchange over a log that several append to. The lines of a sync are one record, which all readers
/// count or none. What its writer has read is durable.
pub struct LogJournal<L: Log> {
    alloc: Global,
    log: L,
    writer: LogWriter,
    // The text of the lines that wait. Its memory is reused from one record to the next.
    waiting: Vec<u8>,
    // Why it is closed.
    fault: Option<KeepError>,
}

// By hand, so that when a value is dropped its owner's proof sees one call.
impl<L: Log + Drop> Drop for LogJournal<L> {
    fn drop(self) {
        let LogJournal {
            alloc: _,
            log: _,
            writer: _,
            waiting: _,
            fault: _,
        } = self;
    }
}

impl<L: Log> Model for LogJournal<L> {
    ghost use Rattle.hx_journal.specs.Lines.{lines_of};
    ghost use Rattle.hx_fenced_log.specs.JournalStates.{LogJournalState, IsActive};

    ghost Value = { LogJournalState L };

    ghost view = { λ j. record {
      log = j.log;
      writer = j.writer;
      waiting = lines_of j.waiting.items;
      fault = j.fault;
    } };

    ghost invariant = { λ j. IsActive (L.committed j.log) j.writer j.waiting.items };
}

impl<L: Log> Journal for LogJournal<L> {
    ghost appended = { λ j. appended L.committed j };

    ghost durable = { λ j. durable L.committed j };

    ghost is_open = { λ j. is_open j.fault };

    ghost faults = { λ j. faults j.fault };

    ghost moment = { λ j. count_read j.writer.reading };

    ghost left_since = { λ j. IsLeftSince (L.committed j.log) j.writer j.waiting };

    /// Appends a line to those that wait, or nothing.
    fn append(&mut self, bytes: &[u8]) -> Result<(), JournalError>
        requires record_is { IsRecord bytes.now }
        ensures appended { OnOk result (appended L.committed self.new
            ≡ appended L.committed self.old ++ bytes.now ∷ []) }
        ensures refused { OnErr result
            (appended L.committed self.new ≡ appended L.committed self.old) }
        ensures durable { durable L.committed self.new ≡ durable L.committed self.old }
        ensures still { is_open self.new.fault ≡ is_open self.old.fault }
        ensures was_open { OnOk result (is_open self.old.fault ≡ true) }
        ensures closed { IsErrOf result JournalError.Closed → is_open self.old.fault ≡ false }
        ensures cause { IfErr result (λ e.
            IsCause (faults self.old.fault) (faults self.new.fault) e) }
        ensures any_moment { is_open self.old.fault ≡ true → Leaves
            (count_read self.old.writer.reading) (count_read self.new.writer.reading)
            (IsLeftSince (L.committed self.old.log) self.old.writer self.old.waiting)
            (IsLeftSince (L.committed self.new.log) self.new.writer self.new.waiting)
            (durable L.committed self.old) (appended L.committed self.old ++ bytes.now ∷ []) }

        // Nothing is sent.
        ensures log { self.new.log ≡ self.old.log }
        ensures writer { self.new.writer ≡ self.old.writer }
        ensures fault { IfErr result (IsAppendFault self.old.fault) }
    {
        if self.fault.is_some() {
            return Err(JournalError::Closed);
        }
        push_line(&mut self.waiting, bytes)?;
        Ok(())
    }

    /// Keeps the lines that wait as one record; with none there is nothing to do. After an error they wait on, since
    /// what was sent may stand there.
    fn sync(&mut self) -> Result<(), JournalError>
        ensures durable { OnOk result (durable L.committed self.new ≡ appended L.committed self.old) }
        ensures appended { OnOk result
            (appended L.committed self.new ≡ appended L.committed self.old) }
        ensures still { OnOk result (is_open self.new.fault ≡ true) }
        ensures was_open { OnOk result (is_open self.old.fault ≡ true) }
        ensures refused { OnErr result (is_open self.new.fault ≡ true
            → (appended L.committed self.new ≡ appended L.committed self.old)
            × (durable L.committed self.new ≡ durable L.committed self.old)) }
        ensures closed { IsErrOf result JournalError.Closed → is_open self.old.fault ≡ false }
        ensures cause { IfErr result (λ e.
            IsCause (faults self.old.fault) (faults self.new.fault) e) }
        ensures any_moment { is_open self.old.fault ≡ true → Leaves
            (count_read self.old.writer.reading) (count_read self.new.writer.reading)
            (IsLeftSince (L.committed self.old.log) self.old.writer self.old.waiting)
            (IsLeftSince (L.committed self.new.log) self.new.writer self.new.waiting)
            (durable L.committed self.old) (appended L.committed self.old) }

        ensures grows { IsPrefix (L.committed self.old.log) (L.committed self.new.log) }
        ensures who { self.new.writer.writer ≡ self.old.writer.writer }
        ensures waits_on { OnErr result (self.new.waiting ≡ self.old.waiting) }
        ensures fault { IfErr result (IsSyncFault
            (L.committed self.old.log) (L.committed self.new.log) self.old.writer
            (text_of self.old.waiting) self.old.fault self.new.fault) }
    {
        if self.fault.is_some() {
            return Err(JournalError::Closed);
        }
        if self.waiting.is_empty() {
            return Ok(());
        }
        let text = Vec::from_slice(self.alloc, &self.waiting)?;
        match self.writer.keep(&mut self.log, text) {
            Ok(()) => {
                self.waiting.clear();
                Ok(())
            }
            Err(error) => {
                if let KeepError::Log(LogError::NoMemory) = error {
                    return Err(JournalError::Memory);
                }
                self.fault = Some(error);
                Err(JournalError::Failed)
            }
        }
    }

    fn is_quick(&self) -> bool {
        false
    }

    fn stands(&self) {
        let _ = &self.waiting;
    }
}

impl<L: Log> LogJournal<L> {
    /// The journal of an active writer, with what the writer has read. Nothing waits.
    pub fn new(alloc: Global, log: L, writer: LogWriter) -> LogJournal<L>
        requires read { HasRead (L.committed log) writer.reading }
        requires active { writer.reading.writer ≡ writer.writer }
        ensures { result ≡ record { log = log; writer = writer; waiting = []; fault = None } }
    {
        LogJournal {
            alloc,
            log,
            writer,
            waiting: Vec::new(alloc),
            fault: None,
        }
    }

    /// Its writer is active as far as it has read, and that is the first records of the log. The call does nothing.
    pub fn is_active_now(&self)
        ensures read { HasRead (L.committed self.now.log) self.now.writer.reading }
        ensures active { self.now.writer.reading.writer ≡ self.now.writer.writer }
    {
        let _ = &self.writer;
    }

    /// Why the journal is closed; none if it is open.
    pub fn fault(&self) -> Option<KeepError>
        ensures { result ≡ self.now.fault }
    {
        self.fault
    }

    /// A reader that goes on from what is durable. The lines that wait are gone.
    pub fn into_follower(self) -> Follower<L>
        ensures { result ≡ record { log = self.log; writer = self.writer } }
    {
        let LogJournal {
            alloc: _,
            log,
            writer,
            waiting: _,
            fault: _,
        } = self;
        Follower::at(log, writer)
    }
}
