//! A journal with a mirror.
ghost use Rattle.std.specs.Prelude.{◌≡◌, ◌≢◌, ◌+◌, true, false};
ghost use Rattle.hx_journal.specs.Lines.{lines_of};
ghost use Rattle.hx_journal.specs.Records.{IsRecord};
ghost use Rattle.hx_fenced_log.specs.Mirrors.{Mirrors, both_open};

use crate::mirror::writing::write_records;
use hx_journal::{CallLog, Journal, JournalError, push_line};
use std::alloc::Global;
use std::marker::Model;

/// A journal and its mirror, another journal with the same records: what is synced is durable in both. The mirror is
/// never ahead. What recovery reads after a crash is what the first one leaves.
pub struct MirroredJournal<J: Journal, M: Journal> {
    journal: J,
    mirror: M,
    // The text of the records that the mirror gets at the next sync. Its memory is reused.
    waiting: Vec<u8>,
    // Whether no sync of one of them has failed.
    in_step: bool,
    // The calls that have failed, known to contracts alone.
    failed: CallLog,
}

// By hand, so that when a value is dropped its owner's proof sees one call.
impl<J: Journal + Drop, M: Journal + Drop> Drop for MirroredJournal<J, M> {
    fn drop(self) {
        let MirroredJournal {
            journal: _,
            mirror: _,
            waiting: _,
            in_step: _,
            failed: _,
        } = self;
    }
}

impl<J: Journal, M: Journal> Model for MirroredJournal<J, M> {
    ghost use Rattle.std.specs.Prelude.{length};
    ghost use Rattle.hx_fenced_log.specs.Mirrors.{MirroredState, IsInStep};

    ghost Value = { MirroredState J M };

    ghost view = { λ s. record {
      journal = s.journal;
      mirror = s.mirror;
      in_step = s.in_step;
      failed = length s.failed.events;
    } };

    ghost invariant = { λ s. IsInStep J.appended J.durable M.appended M.durable M.is_open
        s.journal s.mirror s.waiting.items s.in_step };
}

impl<J: Journal, M: Journal> Journal for MirroredJournal<J, M> {
    ghost appended = { λ s. J.appended s.journal };

    ghost durable = { λ s. J.durable s.journal };

    ghost is_open = { λ s. both_open J.is_open s };

    ghost faults = { λ s. s.failed };

    ghost moment = { λ s. J.moment s.journal };

    ghost left_since = { λ s. J.left_since s.journal };

    /// Appends a record to the journal. The mirror gets it at the next sync.
    fn append(&mut self, bytes: &[u8]) -> Result<(), JournalError> {
        if !self.in_step {
            return Err(JournalError::Closed);
        }
        let before = self.waiting.len();
        push_line(&mut self.waiting, bytes)?;
        let appended = self.journal.append(bytes);
        if appended.is_err() {
            self.waiting.truncate(before);
            self.failed.note(&[], &[]);
        }
        appended
    }

    /// Syncs the journal, and then appends to the mirror what it lacks, and syncs that. After an error of one of them
    /// both are closed.
    fn sync(&mut self) -> Result<(), JournalError> {
        if !self.in_step {
            return Err(JournalError::Closed);
        }
        if let Err(error) = self.journal.sync() {
            self.in_step = false;
            self.failed.note(&[], &[]);
            return Err(error);
        }
        if let Err(error) = write_records(&mut self.mirror, &self.waiting) {
            self.in_step = false;
            self.failed.note(&[], &[]);
            return Err(reported_as(error));
        }
        self.waiting.clear();
        Ok(())
    }

    fn is_quick(&self) -> bool {
        false
    }

    fn stands(&self) {
        self.journal.stands();
    }
}

impl<J: Journal, M: Journal> MirroredJournal<J, M> {
    /// A journal in which nothing waits, and a mirror with the same records.
    pub fn new(alloc: Global, journal: J, mirror: M) -> MirroredJournal<J, M>
        requires synced { J.appended journal ≡ J.durable journal }
        requires mirrors { Mirrors M.appended M.durable M.is_open mirror (J.durable journal) }
        ensures { result ≡ record {
          journal = journal;
          mirror = mirror;
          in_step = true;
          failed = 0;
        } }
    {
        MirroredJournal {
            journal,
            mirror,
            waiting: Vec::new(alloc),
            in_step: true,
            failed: CallLog::new(),
        }
    }

    /// Both, given out. What waits for the mirror is gone.
    pub fn into_both(self) -> (J, M)
        ensures journal { result.0 ≡ self.journal }
        ensures mirror { result.1 ≡ self.mirror }
    {
        let MirroredJournal {
            journal,
            mirror,
            waiting: _,
            in_step: _,
            failed: _,
        } = self;
        (journal, mirror)
    }

    /// Unless a sync of one of them has failed, the mirror has what is durable in the journal. The call does nothing.
    pub fn mirrors(&self)
        ensures { self.now.in_step ≡ true → Mirrors M.appended M.durable M.is_open
            self.now.mirror (J.durable self.now.journal) }
    {
        let _ = &self.mirror;
    }
}

// The error of a mirror: one that is closed has failed.
fn reported_as(error: JournalError) -> JournalError
    ensures { result ≢ JournalError.Closed }
{
    match error {
        JournalError::Closed => JournalError::Failed,
        other => other,
    }
}
