//! The state once the events of a day are applied: all that an exchange resumes from except its journal.
ghost use Rattle.std.specs.Prelude.{◌≡◌, ◌++◌, ◌∷◌, [], length, IfOk, IfErr, OnOk, OnErr};
ghost use Rattle.hx_engine.specs.Opening.{IsNewLog};
ghost use Rattle.hx_engine.specs.Applied.{with_event, IsRefusedAfter};

use crate::applies::Applies;
use hx_blog::{Log, Receipt, Writer};
use hx_desk::{Desk, DeskError, Entry};
use hx_market::Event;
use hx_members::{Seed, Setup};
use hx_units::NoMemory;
use std::alloc::Global;
use std::marker::Model;

/// The state once the events of a day are applied: the desk that recorded and published them, and the log of the feed.
/// An exchange that is opened on it publishes them again. Contracts see the log, the setup and the events.
#[derive(Drop)]
pub struct Applied {
    pub(crate) log: Log<Entry>,
    pub(crate) desk: Desk,
    // A receipt for nothing: what a new pass knows.
    pub(crate) knows: Receipt<Entry>,
}

impl Model for Applied {
    ghost use Rattle.hx_desk.specs.Entries.{events_of};
    ghost use Rattle.hx_engine.specs.Applied.{AppliedState, Stands};

    ghost Value = { AppliedState };

    ghost view = { λ p. record {
      log = p.log;
      setup = p.desk.setup;
      events = events_of p.desk.history;
    } };

    ghost invariant = { λ p. Stands p.log p.desk p.knows };
}

impl Applied {
    /// No event, over a new log of the feed. Its table of tokens has this seed.
    pub fn new(
        alloc: Global,
        setup: Setup,
        feed: (Log<Entry>, Writer<Entry>),
        seed: Seed,
    ) -> Result<Applied, NoMemory>
        requires feed { IsNewLog feed.0 feed }
        ensures { IfOk result (λ p. p ≡ record { log = feed.0; setup = setup; events = [] }) }
    {
        let (log, mut writer) = feed;
        let knows = writer.receipt(&log);
        let desk = Desk::seeded(alloc, setup, writer, seed)?;
        desk.stands();
        Ok(Applied { log, desk, knows })
    }

    /// These events, over a new log of the feed. Its table of tokens has this seed.
    ///
    /// Errors: why one of them is refused, or no memory.
    pub fn resume(
        alloc: Global,
        setup: Setup,
        feed: (Log<Entry>, Writer<Entry>),
        seed: Seed,
        events: &[Event],
    ) -> Result<Applied, DeskError>
        requires feed { IsNewLog feed.0 feed }
        ensures { IfOk result
            (λ p. p ≡ record { log = feed.0; setup = setup; events = events.now }) }
    {
        let (log, mut writer) = feed;
        let knows = writer.receipt(&log);
        let desk = Desk::resume(alloc, setup, writer, seed, &log, events)?;
        Ok(Applied { log, desk, knows })
    }
}

impl Applies for Applied {
    ghost applied = { λ p. p.events };

    ghost under = { λ p. p.setup };

    /// Applies an event after the others: it is recorded and published. If it is refused, nothing changes, and a
    /// recovery from these events refuses it for the same reason.
    fn apply(&mut self, event: &Event) -> Result<(), DeskError>
        ensures applied { OnOk result (self.new.events ≡ self.old.events ++ event.now ∷ []) }
        ensures refused { OnErr result (self.new.events ≡ self.old.events) }
        ensures under { self.new.setup ≡ self.old.setup }
        ensures ok { OnOk result (self.new ≡ with_event self.old event.now) }
        ensures err { OnErr result (self.new ≡ self.old) }
        ensures reason { IfErr result (IsRefusedAfter self.old event.now) }
    {
        self.desk.restore(&self.log, event)?;
        self.desk.stands();
        Ok(())
    }

    fn count(&self) -> u64 {
        self.desk.history_len()
    }
}
