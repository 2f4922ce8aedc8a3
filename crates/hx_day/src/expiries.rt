//! The times at which live orders may end, each under an index, in the order in which they end.
ghost use Rattle.std.specs.Prelude.{◌≡◌, IfOk, IfErr, OnOk, OnErr};
ghost use Rattle.hx_day.specs.Expiries.{HoldsNothing, HoldsAlso, HoldsOthers, HoldsLater, IsSomeDue, AreIndicesUntil};

mod entry;

pub use entry::Entry;
use hx_units::NoMemory;
use std::alloc::Global;
use std::collections::BTreeSet;
use std::marker::Model;

/// The times at which orders may end, in nanoseconds since midnight, each under the index of its order. An entry stays
/// until it is taken out, also if its order is gone. A call takes time in proportion to the logarithm of the number of
/// entries, and to the number of those that it takes out or whose indices it gives.
#[derive(Drop)]
pub struct Expiries {
    entries: BTreeSet<Entry>,
}

impl Model for Expiries {
    ghost use Rattle.std.specs.Prelude.{List};
    ghost use Rattle.hx_day.specs.Expiries.{Entry as Seen};

    ghost Value = { List Seen };

    ghost view = { λ e. e.entries.keys };
}

impl Expiries {
    /// Holds nothing, and takes its memory from `alloc`.
    pub fn new(alloc: Global) -> Self
        ensures { HoldsNothing result }
    {
        Expiries {
            entries: BTreeSet::new(alloc),
        }
    }

    /// Holds the entry too. After `NoMemory` all is as before.
    pub fn enter(&mut self, expiry: u64, index: u64) -> Result<(), NoMemory>
        ensures ok { OnOk result (HoldsAlso self.old self.new expiry index) }
        ensures err { OnErr result (self.new ≡ self.old) }
    {
        self.entries.insert(Entry { expiry, index })?;
        Ok(())
    }

    /// Takes the entry out, if it is held.
    pub fn leave(&mut self, expiry: u64, index: u64)
        ensures { HoldsOthers self.old self.new expiry index }
    {
        self.entries.remove(&Entry { expiry, index });
    }

    /// Takes out each entry that ends at the time or before it.
    pub fn leave_until(&mut self, time: u64)
        ensures { HoldsLater self.old self.new time }
    {
        while let Some(first) = self.entries.first() {
            if first.expiry > time {
                return;
            }
            self.entries.pop_first();
        }
    }

    /// The indices of the entries that end at the time or before it, each once, in increasing order. If there is none
    /// it takes no memory, and reads the first entry only.
    pub fn indices_until(&self, alloc: Global, time: u64) -> Result<Vec<u64>, NoMemory>
        ensures ok { IfOk result (λ indices. AreIndicesUntil self.now time indices.items) }
        ensures memory { IfErr result (λ _. IsSomeDue self.now time) }
    {
        let mut indices = Vec::new(alloc);
        for entry in self.entries.iter() {
            if entry.expiry > time {
                break;
            }
            indices.push(entry.index)?;
        }
        indices.sort_unstable();
        indices.dedup();
        Ok(indices)
    }
}
