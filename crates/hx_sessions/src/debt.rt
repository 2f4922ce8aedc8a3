//! What a session owes for work of the market that led to no execution.
ghost use Rattle.std.specs.Prelude.{◌≡◌, ◌+◌, ◌-◌, ◌↔◌, ◌≤◌, IsTrue, min};

// A session rests for its debt once that has grown to this number of nanoseconds: a millisecond.
const DUE: u64 = 1_000_000;

/// The nanoseconds for which a session is not read from, because the market passed over orders for its messages.
#[derive(Clone, Copy, Debug)]
pub struct Debt {
    pub nanos: u64,
}

impl Debt {
    /// Of a session that owes nothing.
    pub fn none() -> Debt
        ensures { result.nanos ≡ 0 }
    {
        Debt { nanos: 0 }
    }

    /// Adds nanoseconds to the debt.
    pub fn grow(&mut self, nanos: u64)
        ensures { self.new.nanos ≡ min (self.old.nanos + nanos) 18446744073709551615 }
    {
        self.nanos = self.nanos.saturating_add(nanos);
    }

    /// A rest of this number of nanoseconds pays for the same number.
    pub fn pay(&mut self, nanos: u64)
        ensures { self.new.nanos ≡ self.old.nanos - nanos }
    {
        self.nanos = self.nanos.saturating_sub(nanos);
    }

    /// Whether the session rests for it now: a smaller debt waits until it has grown.
    pub fn is_due(self) -> bool
        ensures { IsTrue result ↔ (1000000 ≤ self.nanos) }
    {
        self.nanos >= DUE
    }
}
