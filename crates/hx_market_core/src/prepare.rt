//! To prepare an event: its effect is decided, its executions are planned, and all memory that its commit needs is
//! taken. What the caller gets of it is `Prepared`.
ghost use Rattle.std.specs.Prelude.{◌≡◌, ◌<◌, ◌^◌, ℕ, None, IfOk, OnOk, IfErr, length};
ghost use Rattle.hx_rules.specs.Refusals.{refusal, or_no_memory};
ghost use Rattle.hx_day.specs.Expiries.{Holds};
ghost use Rattle.hx_market_core.specs.Expiries.{AreEntered};
ghost use Rattle.hx_market_core.specs.MarketModel.{with_step};
ghost use Rattle.hx_market_core.specs.Room.{HasRoom, IsEmpty};
ghost use Rattle.hx_market_core.specs.Prepared.{IsReady, IsPlanned};

mod counts;
mod reserving;

use crate::decision::effect_of;
use crate::effect::end_of;
use crate::next_step::{NextStep, empty, make_room, take_empty};
use crate::prepare::counts::{feed_count, reply_members};
use crate::prepare::reserving::plan_effect;
use crate::state::State;
use hx_book::Book;
use hx_day::{Ends, admit};
use hx_members::Setup;
use hx_rules::{Event, PrepareError};
use hx_units::MemberNo;
use std::alloc::Global;
use std::marker::Model;
use std::snapshot::Snapshot;

/// What the market prepared for an event: the size of its output. Its effect is in the market.
#[derive(Drop)]
pub struct Prepared {
    // The event, and what it will do, known to contracts alone.
    pub(crate) event: Snapshot<Event>,
    pub(crate) next: Snapshot<NextStep>,
    pub(crate) feed_count: u64,
    pub(crate) reply_members: Vec<MemberNo>,
}

impl Model for Prepared {
    ghost use Rattle.hx_market_core.specs.MarketModel.{Planned};

    ghost Value = { Planned };

    ghost view = { λ p. record {
      event = p.event.value;
      feed_count = p.feed_count;
      reply_members = p.reply_members.items;
      next = p.next.value;
    } };
}

impl Prepared {
    /// How many messages of the feed the event's commit gives.
    pub fn feed_count(&self) -> u64
        ensures { result ≡ self.now.feed_count }
    {
        self.feed_count
    }

    /// The member of each of that commit's replies, in order.
    pub fn reply_members(&self) -> &[MemberNo]
        ensures { result.now ≡ self.now.reply_members }
    {
        &self.reply_members
    }
}

/// Plans the next step for an event, with all growths that it needs except room for its output. What contracts see of
/// the market stays, except for its reserved slots.
#[inline(always)]
pub fn plan_step<B: Book>(
    alloc: Global,
    setup: &Setup,
    state: &mut State<B>,
    ends: &mut Ends,
    next: &mut NextStep,
    event: &Event,
) -> Result<(), PrepareError>
    requires entered { AreEntered ends.old state.old.market.tokens state.old.market.live }
    ensures ends { (e p : ℕ) → Holds ends.old e p → Holds ends.new e p }
    ensures market { state.new.market ≡ state.old.market }
    ensures ready { OnOk result (IsReady setup.now state.new ends.new event.now next.new) }
    ensures few { OnOk result (length next.new.fills.items < 2 ^ 60) }
    ensures passes { OnOk result (refusal setup.now state.old.market.recorded event.now ≡ None) }
    ensures refused { IfErr result (λ e. e
        ≡ or_no_memory (refusal setup.now state.old.market.recorded event.now)) }
{
    next.number = admit(setup, &state.recorded, event)?;
    let effect = &mut next.effect;
    effect_of(alloc, setup, state, ends, event, effect)?;
    next.left = plan_effect(
        &mut next.fills,
        &mut state.book,
        &mut state.tokens,
        &next.effect,
    )?;
    ends.enter(state.tokens.count(), end_of(&next.effect))?;
    state.trading.reserve_for(&next.fills)?;
    Ok(())
}

/// Prepares the next step for an event, with all growths that its commit needs. What contracts see of the market stays,
/// except for its reserved slots.
pub fn make<B: Book>(
    alloc: Global,
    setup: &Setup,
    state: &mut State<B>,
    ends: &mut Ends,
    next: &mut NextStep,
    event: &Event,
) -> Result<Prepared, PrepareError>
    requires entered { AreEntered ends.old state.old.market.tokens state.old.market.live }
    ensures ends { (e p : ℕ) → Holds ends.old e p → Holds ends.new e p }
    ensures market { state.new.market ≡ state.old.market }
    ensures event { IfOk result (λ p. p.event ≡ event.now) }
    ensures planned { IfOk result (λ p. IsPlanned setup.now state.new ends.new p) }
    ensures next { IfOk result (λ p. p ≡ with_step next.new p) }
    ensures empty { OnOk result (IsEmpty next.new.out) }
    ensures room { OnOk result
        (HasRoom next.new.effect (length next.new.fills.items) next.new.out) }
    ensures passes { OnOk result (refusal setup.now state.old.market.recorded event.now ≡ None) }
    ensures refused { IfErr result (λ e. e
        ≡ or_no_memory (refusal setup.now state.old.market.recorded event.now)) }
{
    plan_step(alloc, setup, state, ends, next, event)?;
    let room = take_empty(alloc, &mut next.members);
    let reply_members = reply_members(room, &state.book, &next.effect, &next.fills, next.left)?;
    empty(&mut next.out);
    make_room(&mut next.out, &next.effect, next.fills.len())?;
    Ok(Prepared {
        event: Snapshot::of(event),
        next: Snapshot::of(next),
        feed_count: feed_count(&next.effect, &next.fills, next.left),
        reply_members,
    })
}
