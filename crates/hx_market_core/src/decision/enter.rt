//! To decide: which effect an Enter has. It is rejected or accepted, or its token is used already.
ghost use Rattle.std.specs.Prelude.{◌≡◌, ◌<◌, ℕ, List, None, IsSome, false};
ghost use Rattle.hx_units.specs.Limits.{day};
ghost use Rattle.hx_members.specs.Setups.{member_of, locate_of};
ghost use Rattle.hx_members.specs.Chains.{Used, Chain, is_used};
ghost use Rattle.hx_rules.specs.Enter.{entered_by, enter, rejection, resolved_firm};
ghost use Rattle.hx_book.specs.declared.order.Live.{Live as LiveOrder};
ghost use Rattle.hx_rules.specs.Markets.{Market};
ghost use Rattle.hx_market_core.specs.Effects.{outcome_of, IsEffect, IsAcceptedEnter, IsOf, SuitsTokens, IsAbout};
ghost use Rattle.hx_market_core.specs.Prepared.{SuitsMarket};

use crate::effect::{AcceptedEnter, Effect, RejectedEnter};
use crate::state::State;
use hx_book::Book;
use hx_members::Setup;
use hx_ouch::Enter;
use hx_rules::{rejection, side_of};
use hx_units::{Firm, MemberNo, Price};

// The firm that a message is for: a blank one means the member's.
#[inline(always)]
fn resolved_firm(setup: &Setup, member: MemberNo, firm: Firm) -> Firm
    requires { IsSome (member_of setup.now member) }
    ensures { result ≡ resolved_firm setup.now member firm }
{
    if firm == (Firm([b' '; 4])) {
        setup.member(member).unwrap().firm
    } else {
        firm
    }
}

// An Enter that nothing rejects.
#[inline(always)]
fn accepted_enter(
    setup: &Setup,
    phase: u8,
    halted: &[bool],
    locate: Option<u16>,
    member: MemberNo,
    time: u64,
    enter: Enter,
) -> AcceptedEnter
    requires member { IsSome (member_of setup.now member) }
    requires time { time < day }
    requires locate { locate_of setup.now enter.stock ≡ locate }
    requires passes { rejection setup.now phase halted.now enter ≡ None }
    ensures message { (result.member ≡ member) × (result.time ≡ time) × (result.enter ≡ enter) }
    ensures is_accepted_enter { IsAcceptedEnter setup.now result }
{
    AcceptedEnter {
        member,
        time,
        enter,
        locate: locate.unwrap(),
        side: side_of(enter.side),
        price: Price::of(enter.price).unwrap(),
        firm: resolved_firm(setup, member, enter.firm),
    }
}

// What an Enter does whose token is not used.
#[inline(always)]
fn unused_enter_effect(
    setup: &Setup,
    phase: u8,
    halted: &[bool],
    member: MemberNo,
    time: u64,
    enter: Enter,
    effect: &mut Effect,
)
    requires member { IsSome (member_of setup.now member) }
    requires time { time < day }
    ensures does { (m : Market)
        → entered_by setup.now m member time enter false
        (rejection setup.now phase halted.now enter)
        ≡ outcome_of m effect.new }
    ensures is_effect { IsEffect setup.now effect.new }
    ensures sender { IsOf member effect.new }
    ensures suits { (tokens : List Used) (chains : List Chain)
        → is_used tokens member enter.token ≡ false → SuitsTokens tokens chains effect.new }
    ensures about { (orders : List LiveOrder) → IsAbout orders effect.new }
{
    let locate = setup.locate(enter.stock);
    if let Some(letter) = rejection(locate, phase, halted, &enter) {
        *effect = Effect::Reject(RejectedEnter {
            member,
            time,
            token: enter.token,
            letter,
        });
        return;
    }
    *effect = Effect::Accept(accepted_enter(setup, phase, halted, locate, member, time, enter));
}

/// What an Enter does.
#[inline(always)]
pub fn enter_effect<B: Book>(
    setup: &Setup,
    state: &State<B>,
    member: MemberNo,
    time: u64,
    message: Enter,
    effect: &mut Effect,
)
    requires member { IsSome (member_of setup.now member) }
    requires time { time < day }
    ensures does { (counts : List ℕ)
        → enter setup.now (record state.now.market { recorded = counts }) member time message
        ≡ outcome_of (record state.now.market { recorded = counts }) effect.new }
    ensures fit { SuitsMarket setup.now state.now member effect.new }
{
    if state.tokens.state(member, &message.token).is_some() {
        *effect = Effect::Nothing;
        return;
    }
    let halted = state.trading.halted();
    unused_enter_effect(setup, state.phase, halted, member, time, message, effect);
}
