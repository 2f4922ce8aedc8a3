//! A log in memory before whose appends rivals take over.
ghost use Rattle.std.specs.Prelude.{◌≡◌};
ghost use mathlib.Core.List.{IsPrefix};

use hx_fenced_log::{Log, LogError, LogRecord, LogWriter, MemoryLog};
use std::alloc::Global;

#[derive(Drop)]
pub(super) struct RivalLog {
    alloc: Global,
    log: MemoryLog,
    // The number of rivals that are still to come, each before an append.
    rivals: u64,
}

impl RivalLog {
    pub(super) fn new(alloc: Global, rivals: u64) -> RivalLog {
        RivalLog {
            alloc,
            log: MemoryLog::new(alloc),
            rivals,
        }
    }

    // A rival reads all, takes over and syncs a line.
    fn take_over(&mut self, line: &[u8])
        ensures { IsPrefix self.old.log self.new.log }
    {
        let mut rival = LogWriter::new(self.rivals.saturating_add(10));
        let _read = rival.follow(self.alloc, &mut self.log);
        let _taken = rival.take_over(self.alloc, &mut self.log);
        if let Ok(text) = Vec::from_slice(self.alloc, line) {
            let _durable = rival.keep(&mut self.log, text);
        }
    }
}

impl Log for RivalLog {
    ghost committed = { λ l. l.log };

    fn append(&mut self, next: &LogRecord) -> Result<(), LogError> {
        if self.rivals > 0 {
            self.rivals -= 1;
            self.take_over(b"1 0 51\n");
        }
        self.log.append(next)
    }

    fn read(&mut self, alloc: Global, from: u64) -> Result<Vec<LogRecord>, LogError> {
        self.log.read(alloc, from)
    }
}
