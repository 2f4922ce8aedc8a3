//! When live orders end.
ghost use Rattle.std.specs.Prelude.{◌≡◌, ℕ, IfSome, IfOk, IfErr, OnOk};
ghost use Rattle.hx_day.specs.Expiries.{Holds, HoldsNothing, IsSomeDue, AreIndicesUntil};
ghost use Rattle.hx_day.specs.Ends.{StaysElsewhere, StaysAfter};

use crate::expiries::Expiries;
use hx_units::NoMemory;
use std::alloc::Global;
use std::marker::Model;

/// When live orders end: each that ends at a time is entered, before it arrives, under the index of its token in the
/// order of use. Times are in nanoseconds since midnight.
#[derive(Drop)]
pub struct Ends {
    entered: Expiries,
    // When the order ends that was entered last and has not come yet.
    waiting: Option<u64>,
}

impl Model for Ends {
    ghost use Rattle.std.specs.Prelude.{List};
    ghost use Rattle.hx_day.specs.declared.expiries.entry.Entry.{Entry};

    ghost Value = { List Entry };

    ghost view = { λ e. e.entered };
}

impl Ends {
    /// None is entered.
    pub fn new(alloc: Global) -> Ends
        ensures { HoldsNothing result }
    {
        Ends {
            entered: Expiries::new(alloc),
            waiting: None,
        }
    }

    /// Enters when an order ends, if it ends at a time, under the index that its token gets. It fails only when out of
    /// memory.
    #[inline(always)]
    pub fn enter(&mut self, index: u64, end: Option<u64>) -> Result<(), NoMemory>
        ensures entered { OnOk result (IfSome end (λ expiry. Holds self.new expiry index)) }
        ensures retained { (e p : ℕ) → Holds self.old e p → Holds self.new e p }
    {
        self.waiting = end;
        match end {
            Some(expiry) => self.entered.enter(expiry, index),
            None => Ok(()),
        }
    }

    /// Takes out the order that was entered last under this index, if it has not come.
    pub fn forget(&mut self, index: u64)
        ensures { StaysElsewhere index self.old self.new }
    {
        if let Some(expiry) = self.waiting {
            self.entered.leave(expiry, index);
            self.waiting = None;
        }
    }

    /// The order that was entered last has come. If orders have ended until a time, what ended until then is taken out.
    pub fn done(&mut self, until: Option<u64>)
        ensures { StaysAfter until self.old self.new }
    {
        self.waiting = None;
        if let Some(time) = until {
            self.entered.leave_until(time);
        }
    }

    /// The indices that are entered at a time or before it, in increasing order. With none it takes no memory.
    pub fn indices_until(&self, alloc: Global, time: u64) -> Result<Vec<u64>, NoMemory>
        ensures ok { IfOk result (λ indices. AreIndicesUntil self.now time indices.items) }
        ensures memory { IfErr result (λ _. IsSomeDue self.now time) }
    {
        self.entered.indices_until(alloc, time)
    }
}
