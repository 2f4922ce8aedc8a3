//! To commit what was prepared: the state changes as the effect says, and its output is written after the earlier
//! output. Each effect has a function of its own; no memory is taken.
ghost use Rattle.std.specs.Prelude.{◌≡◌, ◌<◌, ◌≤◌, ◌^◌, length, Some};
ghost use Rattle.std.specs.Vec.{vec_len, vec_capacity};
ghost use Rattle.std.specs.List.{AllByRecursion};
ghost use Rattle.hx_itch.specs.Message.{feed_time};
ghost use Rattle.hx_rules.specs.Steps.{step};
ghost use Rattle.hx_day.specs.Bounds.{IsSound};
ghost use Rattle.hx_market_core.specs.Expiries.{AreEntered};
ghost use Rattle.hx_market_core.specs.declared.effect.Effect.TheVariants.{Reject};
ghost use Rattle.hx_market_core.specs.Effects.{IsUnused, outcome_of};
ghost use Rattle.hx_market_core.specs.MarketModel.{name_of};
ghost use Rattle.hx_market_core.specs.Room.{HasRoom, Tells};
ghost use Rattle.hx_market_core.specs.Prepared.{IsReady, CanCommit};

mod cancel;
mod enter;
mod execute;
mod expire;
mod incoming;
mod replace;
mod trading;

use crate::commit::cancel::cancel;
use crate::commit::enter::accept;
use crate::commit::expire::end;
use crate::commit::replace::{fail, replace};
use crate::commit::trading::{break_match, set_state};
use crate::effect::{Effect, RejectedEnter, over_until};
use crate::next_step::NextStep;
use crate::state::State;
use hx_book::Book;
use hx_day::Ends;
use hx_members::Setup;
use hx_ouch::{Outbound, Rejected};
use hx_rules::{Event, Output};
use std::snapshot::Snapshot;

// An Enter is rejected: its token is used, and its member gets a reply.
#[inline(always)]
fn reject<B: Book>(state: &mut State<B>, out: &mut Output, effect: &RejectedEnter)
    requires unused { IsUnused state.old.market.tokens effect.now.member effect.now.token }
    requires reserved { state.old.reserved_token ≡ Some (name_of effect.now.member effect.now.token) }
    requires room { vec_len out.old.replies < vec_capacity out.old.replies }
    ensures market { state.new.market ≡ (outcome_of state.old.market (Reject effect.now)).market }
    ensures output { Tells out.old out.new (outcome_of state.old.market (Reject effect.now)).output }
{
    state.tokens.consume(effect.member, &effect.token);
    out.replies.push_reserved((
        effect.member,
        Outbound::Rejected(Rejected {
            time: effect.time,
            token: effect.token,
            reason: effect.letter,
        }),
    ));
}

/// Carries out a step. Its slots are reserved, its executions planned, and there is room for its output, after what is
/// in the lists.
pub fn commit_effect<B: Book>(state: &mut State<B>, out: &mut Output, next: &NextStep)
    requires ready { CanCommit state.old next.now.fills.items next.now.left next.now.effect }
    requires room { HasRoom next.now.effect (length next.now.fills.items) out.old }
    ensures market { state.new.market ≡ (outcome_of state.old.market next.now.effect).market }
    ensures output { Tells out.old out.new (outcome_of state.old.market next.now.effect).output }
{
    match &next.effect {
        Effect::Nothing => {}
        Effect::Reject(effect) => reject(state, out, effect),
        Effect::Accept(effect) => accept(state, out, effect, &next.fills, next.left),
        Effect::Fail(effect) => fail(state, out, effect),
        Effect::Replace(effect) => replace(state, out, effect, &next.fills, next.left),
        Effect::Cancel(effect) => cancel(state, out, effect),
        Effect::End(effect) => end(state, out, effect),
        Effect::Halt(effect) => set_state(state, out, effect),
        Effect::Break(effect) => break_match(state, out, effect),
    }
}

/// Commits what is ready of an event: one step of the market, with its output after what is in the lists.
#[inline(always)]
pub fn commit_step<B: Book>(
    setup: Snapshot<Setup>,
    event: Snapshot<Event>,
    state: &mut State<B>,
    ends: &mut Ends,
    next: &NextStep,
    out: &mut Output,
)
    requires sound { IsSound state.old.market }
    requires entered { AreEntered ends.old state.old.market.tokens state.old.market.live }
    requires ready { IsReady setup.value state.old ends.old event.value next.now }
    requires room { HasRoom next.now.effect (length next.now.fills.items) out.old }
    ensures market { state.new.market ≡ (step setup.value state.old.market event.value).market }
    ensures sound { IsSound state.new.market }
    ensures entered { AreEntered ends.new state.new.market.tokens state.new.market.live }
    ensures output { Tells out.old out.new (step setup.value state.old.market event.value).output }

    // The feed's times have room in its messages.
    ensures times { AllByRecursion (λ f. feed_time f < 2 ^ 48)
        (step setup.value state.old.market event.value).output.feed }
{
    state.recorded.raise(next.number);
    ends.done(over_until(&next.effect));
    commit_effect(state, out, next);
}
