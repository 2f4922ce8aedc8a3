//! A journal in memory, with a witness of its calls.
ghost use Rattle.std.specs.Prelude.{◌≡◌, []};

use crate::memory::Memory;
use hx_engine::{Journal, JournalError};
use std::alloc::Global;

/// A witness of a journal's calls.
pub trait Witness {
    /// A record is about to be appended.
    fn appends(&self) {}

    /// This number of records is synced from now on.
    fn synced(&self, _count: usize) {}
}

/// A journal in memory, with a witness of its calls.
#[derive(Drop)]
pub struct Witnessed<W> {
    /// The journal.
    pub memory: Memory,
    witness: W,
    is_quick: bool,
}

impl<W> Witnessed<W> {
    /// A journal with no records, whose sync lets other threads run `pause` times before it ends. If it is quick, it is
    /// written under an exchange's lock.
    pub fn new(alloc: Global, pause: u32, is_quick: bool, witness: W) -> Witnessed<W>
        ensures empty { result.memory.records.items ≡ [] }
        ensures synced { result.memory.synced ≡ 0 }
    {
        Witnessed {
            memory: Memory::new(alloc, pause),
            witness,
            is_quick,
        }
    }
}

impl<W: Witness> Journal for Witnessed<W> {
    ghost use Rattle.std.specs.Prelude.{◌≡◌, ℕ, List, true, take};
    ghost use Rattle.hx_journal.specs.Crashes.{IsBetween};
    ghost use Rattle.hx_engine.specs.Journals.{record_texts};

    ghost appended = { λ j. record_texts j.memory.records.items };

    ghost durable = { λ j. take j.memory.synced (record_texts j.memory.records.items) };

    ghost is_open = { λ j. true };

    ghost faults = { λ j. 0 };

    ghost moment = { λ j. 0 };

    ghost left_since = { λ j t c. IsBetween
        (take j.memory.synced (record_texts j.memory.records.items)) c
        (record_texts j.memory.records.items) };

    fn append(&mut self, bytes: &[u8]) -> Result<(), JournalError> {
        self.witness.appends();
        self.memory.append(bytes)
    }

    fn sync(&mut self) -> Result<(), JournalError> {
        let answer = self.memory.sync();
        self.witness.synced(self.memory.synced);
        answer
    }

    fn is_quick(&self) -> bool {
        self.is_quick
    }

    fn stands(&self) {
        self.memory.stands();
    }
}
