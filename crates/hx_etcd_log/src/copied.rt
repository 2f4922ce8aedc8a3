//! A log that a copy begins.
ghost use Rattle.std.specs.Prelude.{◌≡◌, ◌<◌, ◌≤◌, ◌-◌, ◌+◌, [], length, drop, IfOk, IfErr, OnOk, OnErr, IsErrOf};
ghost use mathlib.Core.List.{IsPrefix};
ghost use Rattle.hx_fenced_log.specs.Logs.{Stands, AreNumbered};
ghost use Rattle.hx_etcd_log.specs.EtcdLogs.{committed_of};
ghost use Rattle.hx_etcd_log.specs.Appends.{IsAppendedTo, IsAppendFault};
ghost use Rattle.hx_etcd_log.specs.Copied.{records_of, IsReportedBy, IsTellFault, IsMisnumbered, IsPageTaken, IsBadPage, IsCopiedOn, IsCopiedFault};

use crate::{EtcdLog, Nodes};
use hx_fenced_log::{Log, LogError, LogRecord};
use std::alloc::Global;

/// Why a copy gives no page.
#[derive(Clone, Copy, Debug, PartialEq, Eq, Drop)]
pub enum PageError {
    /// It can't be read, or is none.
    Failed,
    /// A growth was refused.
    NoMemory,
}

/// A copy of a log, page by page: nothing is promised.
pub trait Pages {
    /// Its next records, from this number on; none if it has no more, for now.
    fn next(&mut self, alloc: Global, from: u64) -> Result<Vec<LogRecord>, PageError>;
}

/// No copy, or one.
impl<P: Pages> Pages for Option<P> {
    fn next(&mut self, alloc: Global, from: u64) -> Result<Vec<LogRecord>, PageError> {
        match self {
            Some(pages) => pages.next(alloc, from),
            None => Ok(Vec::new(alloc)),
        }
    }
}

impl<N: Nodes> EtcdLog<N> {
    /// Takes the next records from a copy: they are known as if a node had reported them, and are retained for a read.
    /// No node is asked.
    ///
    /// Errors: `BadCopy` of the first number that is due and that a record has not. Then nothing is reported.
    pub fn tell(&mut self, page: Vec<LogRecord>) -> Result<(), LogError>
        ensures reported { OnOk result (IsReportedBy page.items self.old self.new) }
        ensures err { IfErr result (IsTellFault (length (committed_of self.old) + 1) page.items) }
        ensures same { OnErr result (self.new ≡ self.old) }
    {
        check_numbers(self.reported.len() + 1, &page)?;
        self.reported.add_page(page);
        Ok(())
    }
}

// Whether records have the numbers from this one on.
fn check_numbers(from: u64, page: &[LogRecord]) -> Result<(), LogError>
    ensures ok { OnOk result (AreNumbered from page.now) }
    ensures err { IfErr result (IsTellFault from page.now) }
{
    let mut number = from;
    for next in page {
        if next.head().number != number {
            return Err(LogError::BadCopy { number });
        }
        number += 1;
    }
    Ok(())
}

/// A log in an etcd that a copy begins: what the copy has is read from there, and only what it has not is asked for. So
/// it is read from its beginning on if it is trimmed. It is believed that the copy is one of this log.
pub struct CopiedLog<P, N> {
    pub(crate) pages: P,
    pub(crate) log: EtcdLog<N>,
}

// By hand, so that when a value is dropped its owner's proof sees one call.
impl<P: Drop, N: Drop> Drop for CopiedLog<P, N> {
    fn drop(self) {
        let CopiedLog { pages: _, log: _ } = self;
    }
}

impl<P: Pages, N: Nodes> CopiedLog<P, N> {
    /// A log of which nothing is known, and a copy of it.
    pub fn new(alloc: Global, pages: P, nodes: N) -> CopiedLog<P, N>
        ensures { records_of result ≡ [] }
    {
        CopiedLog {
            pages,
            log: EtcdLog::new(alloc, nodes),
        }
    }

    // Gives the log the next page of the copy, and returns whether there was one.
    fn take_page(&mut self, alloc: Global) -> Result<bool, LogError>
        ensures ok { IfOk result (λ some. IsPageTaken some self.old.log self.new.log) }
        ensures err { IfErr result (IsBadPage (length (records_of self.old))) }
        ensures same { OnErr result (self.new.log ≡ self.old.log) }
    {
        let due = self.log.reported.len() + 1;
        let page = match self.pages.next(alloc, due) {
            Ok(page) => page,
            Err(PageError::Failed) => return Err(LogError::BadCopy { number: due }),
            Err(PageError::NoMemory) => return Err(LogError::NoMemory),
        };
        if page.is_empty() {
            return Ok(false);
        }
        self.log.tell(page)?;
        Ok(true)
    }
}

impl<P: Pages, N: Nodes> Log for CopiedLog<P, N> {
    ghost committed = { λ log. log.log.reported.records };

    /// Appends a record, as `EtcdLog::append` does.
    fn append(&mut self, next: &LogRecord) -> Result<(), LogError>
        ensures grows { IsPrefix (records_of self.old) (records_of self.new) }
        ensures stands { OnOk result (Stands (records_of self.new) next.now) }
        ensures was_free { OnOk result (length (records_of self.old) < next.now.head.number) }
        ensures taken { IsErrOf result LogError.Taken
            → next.now.head.number ≤ length (records_of self.new) }
        ensures gap { IsErrOf result LogError.Gap
            → length (records_of self.old) + 1 < next.now.head.number }

        ensures appended { OnOk result (IsAppendedTo self.old.log self.new.log next.now) }
        ensures fault { IfErr result (IsAppendFault self.old.log self.new.log next.now) }
    {
        self.log.append(next)
    }

    /// Records from a number on: of those that are retained; if none of them has it, the next page of the copy; and if
    /// that has none, asks the nodes for the next ones.
    ///
    /// Errors: those of `EtcdLog::read`; `BadCopy` if the copy gives no page, or one with other numbers.
    fn read(&mut self, alloc: Global, from: u64) -> Result<Vec<LogRecord>, LogError>
        requires { 0 < from }

        ensures grows { IsPrefix (records_of self.old) (records_of self.new) }
        ensures records { IfOk result (λ rs.
            IsPrefix rs.items (drop (from - 1) (records_of self.new))) }
        ensures numbered { IfOk result (λ rs. AreNumbered from rs.items) }
        ensures some { IfOk result (λ rs. rs.items ≡ [] → length (records_of self.old) < from) }

        ensures all { IfOk result (λ rs. rs.items ≡ drop (from - 1) (records_of self.new)) }
        ensures read_on { OnOk result (IsCopiedOn self.old.log self.new.log from) }
        ensures fault { IfErr result (IsCopiedFault self.old.log self.new.log from) }
    {
        if from > self.log.len() && self.take_page(alloc)? {
            return self.log.reported.copies(alloc, from);
        }
        self.log.read(alloc, from)
    }
}
