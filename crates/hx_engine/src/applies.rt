//! Targets to which the events of a day are applied.
ghost use Rattle.std.specs.Prelude.{◌≡◌, ◌++◌, ◌∷◌, [], List, length, OnOk, OnErr};
ghost use Rattle.hx_members.specs.Setups.{Setup};
ghost use Rattle.hx_rules.specs.declared.event.Event.{Event};
ghost use Rattle.hx_engine.specs.Nowhere.{no_setup};
ghost use Rattle.hx_engine.specs.Applied.{StopsWithin};

use hx_desk::DeskError;
use hx_market::Event;
use hx_units::NoMemory;

/// A target to which the events of a day are applied, in the order in which its journal or its log stores them.
pub trait Applies {
    /// The events that were applied.
    ghost applied: { Self → List Event };

    /// The setup under which they are.
    ghost under: { Self → Setup };

    /// Applies an event after the others.
    ///
    /// Errors: why it is refused. It is not applied then.
    fn apply(&mut self, event: &Event) -> Result<(), DeskError>
        ensures applied { OnOk result (applied self.new ≡ applied self.old ++ event.now ∷ []) }
        ensures refused { OnErr result (applied self.new ≡ applied self.old) }
        ensures under { under self.new ≡ under self.old };

    /// The number of events that were applied.
    fn count(&self) -> u64
        ensures { result ≡ length (applied self.now) };
}

/// A list of events: applying an event appends it, and fails only if out of memory.
impl Applies for Vec<Event> {
    ghost applied = { λ events. events.items };

    ghost under = { λ events. no_setup };

    fn apply(&mut self, event: &Event) -> Result<(), DeskError> {
        let event = event.copy()?;
        self.push(event).map_err(|_| NoMemory)?;
        Ok(())
    }

    fn count(&self) -> u64 {
        self.len() as u64
    }
}

/// Applies events, in their order.
///
/// Errors: why one of them is refused. Those before it are applied then, and no others.
pub fn apply_all<D: Applies>(day: &mut D, events: &[Event]) -> Result<(), DeskError>
    ensures applied { OnOk result (D.applied day.new ≡ D.applied day.old ++ events.now) }
    ensures refused { OnErr result
        (StopsWithin (D.applied day.old) (D.applied day.new) events.now) }
    ensures under { D.under day.new ≡ D.under day.old }
{
    for event in events {
        day.apply(event)?;
    }
    Ok(())
}
