//! A journal that stores nothing on a disk.
ghost use Rattle.std.specs.Prelude.{◌≡◌, []};
ghost use Rattle.hx_journal.specs.NullJournal.{appended_in, durable_in};

use crate::{CallLog, Journal, JournalError};

const APPENDED: u64 = 0;

const SYNCED: u64 = 1;

/// A journal that survives nothing, for tests and for an exchange without a journal. It has no
/// bytes, and its calls do nothing at run time: only contracts know its records. What it says is
/// durable is what an exchange may rest on while its process runs; after a crash there is nothing
/// to recover.
#[derive(Drop)]
pub struct NullJournal {
    pub(crate) log: CallLog,
}

impl NullJournal {
    /// A journal without records.
    pub fn new() -> NullJournal
        ensures appended { appended_in result.log.events ≡ [] }
        ensures durable { durable_in result.log.events ≡ [] }
    {
        NullJournal {
            log: CallLog::new(),
        }
    }
}

impl Journal for NullJournal {
    ghost use Rattle.std.specs.Prelude.{true};

    ghost appended = { λ j. appended_in j.log.events };

    ghost durable = { λ j. durable_in j.log.events };

    ghost is_open = { λ j. true };

    ghost faults = { λ j. 0 };

    ghost moment = { λ j. 0 };

    ghost left_since = { λ j t records. ⊥ };

    fn append(&mut self, bytes: &[u8]) -> Result<(), JournalError> {
        self.log.note(&[APPENDED, 0, 1], bytes);
        Ok(())
    }

    fn sync(&mut self) -> Result<(), JournalError> {
        self.log.note(&[SYNCED, 0, 1], &[]);
        Ok(())
    }

    fn is_quick(&self) -> bool {
        true
    }

    fn stands(&self) {}
}
