//! A day whose events are applied before it is served.
ghost use Rattle.std.specs.Prelude.{◌≡◌, ◌++◌, ◌∷◌, [], length, IfOk, IfErr, OnOk, OnErr};
ghost use Rattle.hx_rules.specs.Steps as market;
ghost use Rattle.hx_engine.specs.Applied.{with_event, IsRefusedAfter};
ghost use Rattle.hx_serve.specs.Applied as day;

use hx_blog::{Log, Reader};
use hx_day_context::{ServeArgs, TradingStatus};
use hx_engine::{Applied, Applies, DeskError, Entry};
use hx_market::Event;
use hx_members::{Seed, Setup};
use hx_units::NoMemory;
use std::alloc::Global;
use std::marker::Model;

/// When an event happened, in nanoseconds since midnight.
pub fn time_of(event: &Event) -> u64
    ensures { result ≡ market.time_of event.now }
{
    match event {
        Event::Message { time, .. }
        | Event::Tick { time }
        | Event::Hours { time, .. }
        | Event::Halt { time, .. }
        | Event::Break { time, .. } => *time,
    }
}

/// A day whose events are applied as they come; it is served from there on without applying one again. Contracts see
/// the log of its feed, its setup and the events.
pub struct AppliedDay<'a> {
    applied: Applied,
    reader: Reader<Entry>,
    // The trading status so far.
    trading_status: TradingStatus,
    setup: &'a Setup,
    // The last time of the events.
    last: u64,
}

// By hand, so that when a value is dropped its owner's proof sees one call.
impl Drop for AppliedDay<'_> {
    fn drop(self) {
        let AppliedDay {
            applied: _,
            reader: _,
            trading_status: _,
            setup: _,
            last: _,
        } = self;
    }
}

impl<'a> Model for AppliedDay<'a> {
    ghost use Rattle.hx_engine.specs.Applied.{AppliedState};
    ghost use Rattle.hx_serve.specs.Applied.{Beside};

    ghost Value = { AppliedState };

    ghost view = { λ d. d.applied };

    ghost invariant = { λ d. Beside d.applied d.setup.now d.reader.log d.last };
}

impl<'a> AppliedDay<'a> {
    /// A day without an event. Its table of tokens has this seed, which is drawn at random if strangers trade.
    pub fn new(
        alloc: Global,
        setup: &'a Setup,
        args: &ServeArgs,
        seed: Seed,
    ) -> Result<AppliedDay<'a>, NoMemory>
        ensures setup { IfOk result (λ d. d.setup ≡ setup.now) }
        ensures events { IfOk result (λ d. d.events ≡ []) }
    {
        let own = setup.copy(alloc)?;
        let trading_status = TradingStatus::new(alloc, setup).map_err(|_| NoMemory)?;
        let (log, pen, reader) = Log::<Entry>::new(alloc, args.capacity)?;
        let applied = Applied::new(alloc, own, (log, pen), seed)?;
        Ok(AppliedDay {
            applied,
            reader,
            trading_status,
            setup,
            last: 0,
        })
    }

    /// The last time of its events, in nanoseconds since midnight, or 0: it is served on with no time below it.
    pub fn last_time(&self) -> u64
        ensures { result ≡ day.last_time self.now.events }
    {
        self.last
    }

    /// The state that the day is served from: the applied events, a reader of its feed, and the trading status that the
    /// operator has set.
    pub(crate) fn into_parts(self) -> (Applied, Reader<Entry>, TradingStatus)
        ensures applied { result.0 ≡ self.entry }
        ensures reads { result.1.log ≡ self.entry.log }
    {
        let AppliedDay {
            applied,
            reader,
            trading_status,
            setup: _,
            last: _,
        } = self;
        (applied, reader, trading_status)
    }
}

impl Applies for AppliedDay<'_> {
    ghost applied = { λ d. d.events };

    ghost under = { λ d. d.setup };

    /// Applies an event after the others: it is recorded and published. If it is refused, nothing changes, and the
    /// reason is the one for which a recovery from these events would refuse it.
    fn apply(&mut self, event: &Event) -> Result<(), DeskError>
        ensures applied { OnOk result (self.new.events ≡ self.old.events ++ event.now ∷ []) }
        ensures refused { OnErr result (self.new.events ≡ self.old.events) }
        ensures under { self.new.setup ≡ self.old.setup }
        ensures ok { OnOk result (self.new ≡ with_event self.old event.now) }
        ensures err { OnErr result (self.new ≡ self.old) }
        ensures reason { IfErr result (IsRefusedAfter self.old event.now) }
    {
        self.applied.apply(event)?;
        self.trading_status.note(self.setup, event);
        self.last = self.last.max(time_of(event));
        Ok(())
    }

    fn count(&self) -> u64 {
        self.applied.count()
    }
}
