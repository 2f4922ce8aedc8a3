//! A log as a client sees it: what a writer asks of it. A writer of it follows what stands there, takes over, and
//! reports only what is durable; and there is a log in memory.
ghost use Rattle.std.specs.Prelude.{◌≡◌, ◌<◌, ◌≤◌, ◌-◌, ◌+◌, List, [], length, drop, OnOk, IfOk, IsErrOf};
ghost use mathlib.Core.List.{IsPrefix};
ghost use Rattle.hx_fenced_log.specs.Records.{Record};
ghost use Rattle.hx_fenced_log.specs.Logs.{Stands, AreNumbered};

mod error;
mod memory;
mod writer;

use crate::LogRecord;
pub use error::{KeepError, LogError};
pub use memory::MemoryLog;
use std::alloc::Global;
pub use writer::LogWriter;

/// A list of records that several append to, each at the next number. What stands there stays, and the list grows only
/// at its end: by this client's records, and by those of others.
pub trait Log {
    /// The records that stand there, in the order of their numbers.
    ghost committed: { Self → List Record };

    /// Appends a record if its number is the next one.
    ///
    /// Errors: after `Unknown` the record may stand there, now or later.
    fn append(&mut self, next: &LogRecord) -> Result<(), LogError>
        ensures grows { IsPrefix (committed self.old) (committed self.new) }

        // Ok: its number was free, and now it stands there, after all that stood there before it.
        ensures stands { OnOk result (Stands (committed self.new) next.now) }
        ensures was_free { OnOk result (length (committed self.old) < next.now.head.number) }

        ensures taken { IsErrOf result LogError.Taken
            → next.now.head.number ≤ length (committed self.new) }
        ensures gap { IsErrOf result LogError.Gap
            → length (committed self.old) + 1 < next.now.head.number };

    /// Records from a number on, in their order: at least one if one stands there.
    fn read(&mut self, alloc: Global, from: u64) -> Result<Vec<LogRecord>, LogError>
        requires { 0 < from }

        ensures grows { IsPrefix (committed self.old) (committed self.new) }
        ensures records { IfOk result (λ rs.
            IsPrefix rs.items (drop (from - 1) (committed self.new))) }
        ensures numbered { IfOk result (λ rs. AreNumbered from rs.items) }
        ensures some { IfOk result (λ rs. rs.items ≡ [] → length (committed self.old) < from) };
}
