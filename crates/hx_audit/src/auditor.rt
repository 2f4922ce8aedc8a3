//! A market that takes a history event by event, and then says which messages of it are struck.
ghost use Rattle.std.specs.Prelude.{◌≡◌, ◌++◌, ◌∷◌, [], List, false, IfOk, OnOk, IfErr, OnErr};
ghost use Rattle.hx_rules.specs.declared.event.Event.{Event as Happening};
ghost use Rattle.hx_market.specs.Refusals.{refusal, or_no_memory};
ghost use Rattle.hx_audit.specs.Auditing.{choice_of, IsStranger, is_borne, HasTaken};
ghost use Rattle.hx_audit.specs.Recording.{Explains};

use crate::applying::{error_at, open, take};
use crate::bearing::Bearing;
use crate::fault::StrikeError;
use crate::selection::{Selection, is_borne, is_quiet_of};
use hx_levels::LevelBook;
use hx_market::{Event, Market, PrepareError};
use hx_members::Setup;
use hx_units::{MemberNo, NoMemory, Token};
use std::alloc::Global;
use std::marker::Model;

/// Whose quiet chains are struck.
#[derive(Clone, Copy, Debug, PartialEq, Eq)]
pub enum Whose {
    /// One member's.
    Of(MemberNo),
    /// Those of all.
    OfAll,
}

/// A market that takes a history event by event, and then says which messages of it are struck. Contracts see the
/// setup, the market, and whose quiet chains are struck.
#[derive(Drop)]
pub struct Auditor {
    market: Market<LevelBook>,
    whose: Whose,
}

impl Model for Auditor {
    ghost use Rattle.hx_rules.specs.declared.event.Event.{Event as Happening};
    ghost use Rattle.std.specs.Prelude.{List};
    ghost use Rattle.hx_audit.specs.Auditing.{Audit, HasTaken};

    ghost Value = { Audit };

    ghost view = { λ a. record {
      setup = a.market.setup;
      market = a.market.market;
      whose = a.whose;
    } };

    ghost invariant = { λ a. (events : List Happening)
        × HasTaken (record { setup = a.market.setup; market = a.market.market; whose = a.whose })
        events };
}

impl Selection for Auditor {
    ghost chosen = { λ a. choice_of a.whose a.market };

    fn has(&self, member: u16, token: &Token) -> bool {
        is_quiet_of(&self.market, self.whose, member, token)
    }
}

impl Auditor {
    /// An auditor of the empty history. It fails only when out of memory.
    pub fn new(alloc: Global, setup: &Setup, whose: Whose) -> Result<Auditor, NoMemory>
        ensures setup { IfOk result (λ a. a.setup ≡ setup.now) }
        ensures whose { IfOk result (λ a. a.whose ≡ whose) }
        ensures taken { IfOk result (λ a. HasTaken a []) }
    {
        let market = open(alloc, setup)?;
        Ok(Auditor { market, whose })
    }

    /// Takes an event: one step of its market. The history that it has taken is then longer by it.
    ///
    /// The error is the market's: why it refuses the event, or `NoMemory`. Then nothing has changed.
    pub fn take(&mut self, event: &Event) -> Result<(), PrepareError>
        ensures setup { self.new.setup ≡ self.old.setup }
        ensures whose { self.new.whose ≡ self.old.whose }
        ensures taken { OnOk result ((events : List Happening) → HasTaken self.old events
            → HasTaken self.new (events ++ event.now ∷ [])) }
        ensures retained { OnErr result (self.new ≡ self.old) }
        ensures refused { IfErr result (λ e. e
            ≡ or_no_memory (refusal self.old.setup self.old.market.recorded event.now)) }
    {
        take(&mut self.market, event)
    }

    /// An auditor that has taken a history.
    pub(crate) fn of(
        alloc: Global,
        setup: &Setup,
        whose: Whose,
        events: &[Event],
    ) -> Result<Auditor, StrikeError>
        ensures setup { IfOk result (λ a. a.setup ≡ setup.now) }
        ensures whose { IfOk result (λ a. a.whose ≡ whose) }
        ensures taken { IfOk result (λ a. HasTaken a events.now) }
        ensures refused { IfErr result (Explains setup.now events.now) }
    {
        let mut auditor = Auditor::new(alloc, setup, whose)?;
        for (index, event) in events.iter().enumerate() {
            if let Err(error) = auditor.take(event) {
                return Err(error_at(index as u64, error));
            }
        }
        Ok(auditor)
    }

    /// Whether an event that bears these tokens is struck: whether one of them is of a chain of its own member's that
    /// was never displayed and never traded in the history so far, if that member's chains are struck. Nothing is
    /// struck for a number that the setup has not.
    pub fn strikes(&self, bearing: &Bearing) -> bool
        ensures chosen { result ≡ is_borne (choice_of self.now.whose self.now.market) bearing.now }
        ensures stranger { IsStranger self.now.setup self.now.whose
            → (events : List Happening) → HasTaken self.now events → result ≡ false }
    {
        is_borne(self, bearing)
    }
}
