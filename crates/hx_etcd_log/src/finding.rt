//! What stands at the number of a record.
ghost use Rattle.std.specs.Prelude.{◌≡◌, ◌↔◌, ◌+◌, ◌∷◌, ◌++◌, [], length, IsTrue, IfErr, OnOk};
ghost use Rattle.hx_fenced_log.specs.Texts.{spelled};
ghost use Rattle.hx_etcd_log.specs.Appends.{IsFindFault};

use crate::reported::Reported;
use hx_fenced_log::{LogError, LogRecord, TextError, read_record};
use std::alloc::Global;

impl Reported {
    /// The key of the next record has this text: Ok if it is the record's. If it is another record's, that one is
    /// reported.
    pub(crate) fn find(
        &mut self,
        alloc: Global,
        next: &LogRecord,
        text: &[u8],
    ) -> Result<(), LogError>
        requires { next.now.head.number ≡ length self.old.records + 1 }
        ensures same { OnOk result (text.now ≡ spelled next.now) }
        ensures reported { OnOk result (self.new ≡ record {
          records = self.old.records ++ next.now ∷ [];
          stored = 0;
        }) }
        ensures fault { IfErr result (IsFindFault self.old self.new next.now text.now) }
    {
        let number = next.head().number;
        let found = match read_record(alloc, text) {
            Ok(found) => found,
            Err(TextError::NoMemory) => return Err(LogError::Unknown),
            Err(_) => return Err(LogError::NoRecord { number }),
        };
        if found.head().number != number {
            return Err(LogError::NoRecord { number });
        }
        if is_same(&found, next) {
            self.add(next);
            return Ok(());
        }
        let mut page = Vec::new(alloc);
        if page.push(found).is_err() {
            return Err(LogError::Unknown);
        }
        self.add_page(page);
        Err(LogError::Taken)
    }
}

// Whether two records are the same.
fn is_same(one: &LogRecord, other: &LogRecord) -> bool
    ensures { IsTrue result ↔ (one.now ≡ other.now) }
{
    one.head() == other.head() && one.text() == other.text()
}
