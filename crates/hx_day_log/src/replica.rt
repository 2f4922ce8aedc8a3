//! The state that the events of a log are applied to, one reading after the other.
ghost use Rattle.std.specs.Prelude.{◌≡◌, ◌++◌, List, length, OnOk};
ghost use Rattle.hx_members.specs.Setups.{Setup};
ghost use Rattle.hx_rules.specs.declared.event.Event.{Event};

use crate::fault::DayLogError;
use hx_engine::{Applies, apply_all};
use hx_market::Event;
use std::alloc::Global;
use std::marker::Model;

/// The state that the events of a log are applied to, as they are read.
pub trait Replica {
    /// The events that were.
    ghost applied: { Self → List Event };

    /// The setup under which they were.
    ghost under: { Self → Setup };

    /// Applies events after the others.
    ///
    /// Errors: why one of them is not. Nothing is promised of it then.
    fn apply(&mut self, alloc: Global, events: &[Event]) -> Result<(), DayLogError>
        ensures applied { OnOk result (applied self.new ≡ applied self.old ++ events.now) }
        ensures under { under self.new ≡ under self.old };

    /// How many events were applied.
    fn count(&self) -> u64
        ensures { result ≡ length (applied self.now) };
}

/// A day alone.
#[derive(Drop)]
pub struct Alone<D: Applies> {
    /// The day.
    pub day: D,
}

impl<D: Applies> Replica for Alone<D> {
    ghost applied = { λ a. D.applied a.day };

    ghost under = { λ a. D.under a.day };

    /// Applies events.
    ///
    /// Errors: why one of them is refused.
    fn apply(&mut self, _alloc: Global, events: &[Event]) -> Result<(), DayLogError> {
        apply_all(&mut self.day, events)?;
        Ok(())
    }

    fn count(&self) -> u64 {
        self.day.count()
    }
}
