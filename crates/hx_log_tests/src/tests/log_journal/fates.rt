//! A log in memory of which one append goes wrong.
ghost use Rattle.std.specs.Prelude.{◌≡◌};
ghost use mathlib.Core.List.{IsPrefix};

use hx_fenced_log::{Log, LogError, LogRecord, LogWriter, MemoryLog};
use std::alloc::Global;

// What becomes of a record.
#[derive(Clone, Copy, Debug, PartialEq, Eq)]
pub(super) enum Fate {
    // Its answer is lost, and it never comes.
    Gone,
    // Its answer is lost, and it stands there.
    Stands,
    // Its answer is lost, and it comes before the next append.
    Late,
    // Another writer takes over before it comes.
    Deposed,
}

#[derive(Drop)]
pub(super) struct FatefulLog {
    alloc: Global,
    log: MemoryLog,
    fate: Fate,
    // How many appends come before that one, which then counts no more.
    before: Option<u32>,
    late: Option<LogRecord>,
}

impl FatefulLog {
    pub(super) fn new(alloc: Global, fate: Fate, before: u32) -> FatefulLog {
        FatefulLog {
            alloc,
            log: MemoryLog::new(alloc),
            fate,
            before: Some(before),
            late: None,
        }
    }

    // Whether this append is the one.
    fn is_met(&mut self) -> bool
        ensures { self.new.log ≡ self.old.log }
    {
        match self.before {
            Some(before) => {
                self.before = before.checked_sub(1);
                before == 0
            }
            None => false,
        }
    }

    // What comes before a record.
    fn come_first(&mut self)
        ensures { IsPrefix self.old.log self.new.log }
    {
        if let Some(late) = self.late.take() {
            let _answer = self.log.append(&late);
        }
    }

    // What becomes of the record.
    fn meet(&mut self, next: &LogRecord)
        ensures { IsPrefix self.old.log self.new.log }
    {
        match self.fate {
            Fate::Gone => {}
            Fate::Stands => {
                let _answer = self.log.append(next);
            }
            Fate::Late => self.late = next.copy(self.alloc).ok(),
            Fate::Deposed => self.depose(),
        }
    }

    // Writer 3 takes over.
    fn depose(&mut self)
        ensures { IsPrefix self.old.log self.new.log }
    {
        let mut rival = LogWriter::new(3);
        let _read = rival.follow(self.alloc, &mut self.log);
        let _taken = rival.take_over(self.alloc, &mut self.log);
    }
}

impl Log for FatefulLog {
    ghost committed = { λ l. l.log };

    fn append(&mut self, next: &LogRecord) -> Result<(), LogError> {
        self.come_first();
        if self.is_met() {
            self.meet(next);
            if self.fate != Fate::Deposed {
                return Err(LogError::Unknown);
            }
        }
        self.log.append(next)
    }

    fn read(&mut self, alloc: Global, from: u64) -> Result<Vec<LogRecord>, LogError> {
        self.log.read(alloc, from)
    }
}
