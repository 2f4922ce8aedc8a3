//! The calls on a file, known to contracts alone.
ghost use Rattle.std.specs.Prelude.{◌≡◌, List, [], ◌∷◌};
ghost use Rattle.std.specs.Borrow.{ftrue};
ghost use Rattle.hx_disk.specs.Calls.{Event, event_of};

use std::marker::{Model, PhantomData};

/// A list of calls, the newest first. It has no bytes.
#[derive(Drop)]
pub struct CallLog {
    marker: PhantomData<u8>,
    pub ghost events: { List Event },
}

impl Model for CallLog {
    ghost also_owns = { λ _. ftrue };
}

impl CallLog {
    /// No call.
    pub fn new() -> CallLog
        ensures { result.events ≡ [] }
    {
        CallLog {
            marker: PhantomData,
        }
    }

    /// Notes a call: its kind, an offset or a length, 1 if it succeeded; and its bytes.
    pub fn note(&mut self, _numbers: &[u64], _bytes: &[u8])
        ensures { self.new.events ≡ event_of _numbers.now _bytes.now ∷ self.old.events }
    {}
}
