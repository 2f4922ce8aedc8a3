//! A log in an etcd.
ghost use Rattle.std.specs.Prelude.{◌≡◌, ◌<◌, ◌≤◌, ◌-◌, ◌+◌, [], length, drop, IfOk, IfErr, OnOk, IsErrOf};
ghost use mathlib.Core.List.{IsPrefix};
ghost use Rattle.hx_fenced_log.specs.Logs.{Stands, AreNumbered};
ghost use Rattle.hx_etcd_log.specs.EtcdLogs.{committed_of, stored_of, asks_of};
ghost use Rattle.hx_etcd_log.specs.Appends.{IsAppendedTo, IsAppendFault};
ghost use Rattle.hx_etcd_log.specs.Reads.{IsReadOn, IsReadFault};

use crate::Nodes;
use crate::noted::Noted;
use crate::reported::Reported;
use hx_etcd::Appended;
use hx_fenced_log::{Log, LogError, LogRecord};
use std::alloc::Global;

/// A log in an etcd, as this client knows it: of the records that stand there it knows how many answers have reported,
/// and retains the last of them until it reads on. What nodes answer against that is an error.
pub struct EtcdLog<N> {
    pub(crate) alloc: Global,
    pub(crate) nodes: N,
    // What the nodes were asked.
    pub(crate) asks: Noted,
    // What they have reported.
    pub(crate) reported: Reported,
    // The node that is asked next: the last that answered, or the one after the last that did not.
    pub(crate) node: usize,
}

// By hand, so that when a value is dropped its owner's proof sees one call.
impl<N: Drop> Drop for EtcdLog<N> {
    fn drop(self) {
        let EtcdLog {
            alloc: _,
            nodes: _,
            asks: _,
            reported: _,
            node: _,
        } = self;
    }
}

impl<N: Nodes> EtcdLog<N> {
    /// A log of which nothing is known. Its nodes were not asked anything.
    pub fn new(alloc: Global, nodes: N) -> EtcdLog<N>
        ensures committed { committed_of result ≡ [] }
        ensures stored { stored_of result ≡ 0 }
        ensures asks { asks_of result ≡ [] }
    {
        EtcdLog {
            alloc,
            nodes,
            asks: Noted::new(),
            reported: Reported::new(alloc),
            node: 0,
        }
    }

    /// How many records are known to stand there.
    pub fn len(&self) -> u64
        ensures { result ≡ length (committed_of self.now) }
    {
        self.reported.len()
    }
}

impl<N: Nodes> Log for EtcdLog<N> {
    ghost committed = { λ log. log.reported.records };

    /// Appends a record whose number is the next one that this client knows of: asks the nodes in turn, the last that
    /// answered first, twice each at most, until one reports what stands there. Each ask makes the record if nothing
    /// stands yet, and so finds it if the answer to an earlier one was lost.
    ///
    /// Errors: `Unreachable` if no byte was sent to any node, `Unknown` if no node answered, `Trimmed` if the record
    /// before it is not there.
    fn append(&mut self, next: &LogRecord) -> Result<(), LogError>
        ensures grows { IsPrefix (committed_of self.old) (committed_of self.new) }
        ensures stands { OnOk result (Stands (committed_of self.new) next.now) }
        ensures was_free { OnOk result (length (committed_of self.old) < next.now.head.number) }
        ensures taken { IsErrOf result LogError.Taken
            → next.now.head.number ≤ length (committed_of self.new) }
        ensures gap { IsErrOf result LogError.Gap
            → length (committed_of self.old) + 1 < next.now.head.number }

        ensures appended { OnOk result (IsAppendedTo self.old self.new next.now) }
        ensures fault { IfErr result (IsAppendFault self.old self.new next.now) }
    {
        let number = next.head().number;
        let due = self.reported.len() + 1;
        if number < due {
            return Err(LogError::Taken);
        }
        if number > due {
            return Err(LogError::Gap);
        }
        match self.ask_to_append(next)? {
            Appended::Stands => {
                self.reported.add(next);
                Ok(())
            }
            Appended::Taken(text) => self.reported.find(self.alloc, next, &text),
            Appended::NoneBefore => Err(LogError::Trimmed { number }),
        }
    }

    /// Records from a number on: of those that are retained; if none of them has it, asks the nodes for the next ones.
    ///
    /// Errors: `Unreachable` of a number in front of those that are retained, too; `NoRecord` if an answer contradicts
    /// what is known; `Trimmed` if the next record is not there, and later ones are.
    fn read(&mut self, alloc: Global, from: u64) -> Result<Vec<LogRecord>, LogError>
        requires { 0 < from }

        ensures grows { IsPrefix (committed_of self.old) (committed_of self.new) }
        ensures records { IfOk result (λ rs.
            IsPrefix rs.items (drop (from - 1) (committed_of self.new))) }
        ensures numbered { IfOk result (λ rs. AreNumbered from rs.items) }
        ensures some { IfOk result (λ rs. rs.items ≡ [] → length (committed_of self.old) < from) }

        ensures all { IfOk result (λ rs. rs.items ≡ drop (from - 1) (committed_of self.new)) }
        ensures read_on { OnOk result (IsReadOn self.old self.new from) }
        ensures fault { IfErr result (IsReadFault self.old self.new from) }
    {
        if from > self.reported.len() {
            self.fetch()?;
        }
        self.reported.copies(alloc, from)
    }
}
