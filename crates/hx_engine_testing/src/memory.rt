//! A journal in memory. A test sets how long a sync takes, and the number of records that it takes.
ghost use Rattle.std.specs.Prelude.{◌≡◌, ◌≤◌, [], length};

use hx_engine::{Journal, JournalError};
use std::alloc::Global;
use std::thread;

/// A journal in memory.
#[derive(Drop)]
pub struct Memory {
    /// Its records.
    pub records: Vec<Vec<u8>>,
    /// The number of those that are synced.
    pub synced: usize,
    /// The number of syncs so far.
    pub syncs: u64,
    /// How many times a sync lets other threads run before it ends.
    pub pause: u32,
    /// The number of records that it takes.
    pub room: usize,
    alloc: Global,
    ghost within: { synced ≤ length records.items },
}

impl Memory {
    /// A journal with no records.
    pub fn new(alloc: Global, pause: u32) -> Memory
        ensures empty { result.records.items ≡ [] }
        ensures synced { result.synced ≡ 0 }
    {
        Memory {
            records: Vec::new(alloc),
            synced: 0,
            syncs: 0,
            pause,
            room: usize::MAX,
            alloc,
        }
    }

    /// One that takes no more than this number of records.
    pub fn with_room(alloc: Global, room: usize) -> Memory
        ensures empty { result.records.items ≡ [] }
        ensures synced { result.synced ≡ 0 }
    {
        let mut journal = Memory::new(alloc, 0);
        journal.room = room;
        journal
    }
}

impl Journal for Memory {
    ghost use Rattle.std.specs.Prelude.{◌≡◌, ℕ, List, true, take};
    ghost use Rattle.hx_journal.specs.Crashes.{IsBetween};
    ghost use Rattle.hx_engine.specs.Journals.{record_texts};

    ghost appended = { λ j. record_texts j.records.items };

    ghost durable = { λ j. take j.synced (record_texts j.records.items) };

    ghost is_open = { λ j. true };

    ghost faults = { λ j. 0 };

    ghost moment = { λ j. 0 };

    ghost left_since = { λ j t c.
        IsBetween (take j.synced (record_texts j.records.items)) c (record_texts j.records.items) };

    fn append(&mut self, bytes: &[u8]) -> Result<(), JournalError> {
        if self.records.len() >= self.room {
            return Err(JournalError::Full);
        }
        let Ok(copy) = Vec::from_slice(self.alloc, bytes) else {
            return Err(JournalError::Memory);
        };
        if self.records.push(copy).is_err() {
            return Err(JournalError::Memory);
        }
        Ok(())
    }

    fn sync(&mut self) -> Result<(), JournalError> {
        for _turn in 0..self.pause {
            thread::yield_now();
        }
        self.synced = self.records.len();
        self.syncs = self.syncs.wrapping_add(1);
        Ok(())
    }

    fn is_quick(&self) -> bool {
        false
    }

    fn stands(&self) {}
}
