//! To decide, the first part of preparing an event: which effect it has. This file tells the events and the messages of
//! members apart; each kind has a file of its own.
ghost use Rattle.std.specs.Prelude.{◌≡◌, ◌<◌, ℕ, List, IsSome, OnOk, false};
ghost use Rattle.hx_units.specs.Limits.{day};
ghost use Rattle.hx_ouch.specs.Inbound.{inbound_of};
ghost use Rattle.hx_members.specs.Setups.{member_of};
ghost use Rattle.hx_rules.specs.Steps.{receive, happens, sender, time_of};
ghost use Rattle.hx_rules.specs.Refusals.{is_from_stranger};
ghost use Rattle.hx_market_core.specs.Effects.{outcome_of};
ghost use Rattle.hx_market_core.specs.Prepared.{SuitsMarket};
ghost use Rattle.hx_market_core.specs.Expiries.{AreEntered};

mod break_trade;
mod cancel;
mod due_orders;
mod end_orders;
mod enter;
mod halt;
mod phase;
mod replace;

use crate::decision::break_trade::break_effect;
use crate::decision::cancel::cancel_effect;
use crate::decision::end_orders::tick_effect;
use crate::decision::enter::enter_effect;
use crate::decision::halt::halt_effect;
use crate::decision::phase::hours_effect;
use crate::decision::replace::replace_effect;
use crate::effect::Effect;
use crate::state::State;
use hx_book::Book;
use hx_day::Ends;
use hx_members::Setup;
use hx_ouch::{Inbound, decode_in};
use hx_rules::Event;
use hx_units::{MemberNo, NoMemory};
use std::alloc::Global;

// What a member's message does.
#[inline(always)]
fn message_effect<B: Book>(
    setup: &Setup,
    state: &State<B>,
    member: MemberNo,
    time: u64,
    bytes: &[u8],
    effect: &mut Effect,
)
    requires member { IsSome (member_of setup.now member) }
    requires time { time < day }
    ensures does { (counts : List ℕ)
        → receive setup.now (record state.now.market { recorded = counts }) member time
        (inbound_of bytes.now)
        ≡ outcome_of (record state.now.market { recorded = counts }) effect.new }
    ensures fit { SuitsMarket setup.now state.now member effect.new }
{
    let message = decode_in(bytes);
    match &message {
        Some(Inbound::Enter(enter)) => {
            enter_effect(setup, state, member, time, *enter, effect);
        }
        Some(Inbound::Replace(replace)) => {
            replace_effect(setup, state, member, time, *replace, effect);
        }
        Some(Inbound::Cancel(cancel)) => {
            cancel_effect(setup, state, member, time, *cancel, effect);
        }
        None => *effect = Effect::Nothing,
    }
}

/// Sets `effect` to what an event does that is not refused. `NoMemory` if there is no memory for the orders that end,
/// or for their output.
#[inline(always)]
pub fn effect_of<B: Book>(
    alloc: Global,
    setup: &Setup,
    state: &State<B>,
    ends: &Ends,
    event: &Event,
    effect: &mut Effect,
) -> Result<(), NoMemory>
    requires known { is_from_stranger setup.now event.now ≡ false }
    requires time { time_of event.now < day }
    requires entered { AreEntered ends.now state.now.market.tokens state.now.market.live }
    ensures does { OnOk result ((counts : List ℕ)
        → happens setup.now (record state.now.market { recorded = counts }) event.now
        ≡ outcome_of (record state.now.market { recorded = counts }) effect.new) }
    ensures fit { OnOk result (SuitsMarket setup.now state.now (sender event.now) effect.new) }
{
    match event {
        Event::Message {
            member,
            time,
            bytes,
        } => {
            let member = MemberNo::of(*member).unwrap();
            let bytes = bytes.as_slice();
            message_effect(setup, state, member, *time, bytes, effect);
        }
        Event::Tick { time } => {
            tick_effect(alloc, setup, state, ends, *time, effect)?;
        }
        Event::Hours { time, code } => {
            hours_effect(alloc, setup, state, *time, *code, effect)?;
        }
        Event::Halt {
            time,
            stock,
            state: halt,
            reason,
        } => halt_effect(setup, *time, *stock, *halt, *reason, effect),
        Event::Break { time, number } => break_effect(state, *time, *number, effect),
    }
    Ok(())
}
