//! To decide: which effect a Replace has. It replaces the live order, fails and cancels it, or does nothing.
ghost use Rattle.std.specs.Prelude.{◌≡◌, ◌<◌, ℕ, List, Some, false};
ghost use Rattle.hx_units.specs.Limits.{day};
ghost use Rattle.hx_members.specs.Setups.{symbol_of};
ghost use Rattle.hx_members.specs.Chains.{Used, Chain, is_used, entered_of, executed_by};
ghost use Rattle.hx_book.specs.declared.order.Live.{Live as LiveOrder};
ghost use Rattle.hx_rules.specs.Markets.{Market};
ghost use Rattle.hx_rules.specs.Replace.{replace, replace_fails, replaced_by, executed_of};
ghost use Rattle.hx_market_core.specs.Effects.{IsEffect, IsOf, SuitsTokens, IsAbout, IsOnly, outcome_of};
ghost use Rattle.hx_market_core.specs.Prepared.{SuitsMarket};

use crate::effect::{Effect, FailedReplace, Replacement};
use crate::order_by_token::{Found, find_order};
use crate::state::State;
use hx_book::Book;
use hx_members::Setup;
use hx_ouch::Replace;
use hx_rules::{is_halted, replace_fails};
use hx_units::{MemberNo, Price, Symbol};

// The name of the stock with this number.
#[inline(always)]
fn symbol_of(setup: &Setup, locate: u16) -> Symbol
    ensures { result ≡ symbol_of setup.now locate }
{
    match setup.stock(locate) {
        Some(stock) => stock.symbol,
        None => Symbol([b' '; 8]),
    }
}

// What a Replace of a live order does whose replacement token is not used.
#[inline(always)]
fn replace_or_fail(
    setup: &Setup,
    phase: u8,
    member: MemberNo,
    time: u64,
    replace: Replace,
    found: Found,
    effect: &mut Effect,
)
    requires time { time < day }
    ensures does { (m : Market) → executed_of m member replace.existing_token ≡ found.executed
        → replaced_by setup.now m member time replace (Some found.live.order) false
        false (replace_fails phase found.executed replace) ≡ outcome_of m effect.new }
    ensures is_effect { IsEffect setup.now effect.new }
    ensures sender { IsOf member effect.new }
    ensures suits { (tokens : List Used) (chains : List Chain)
        → is_used tokens member replace.replacement_token ≡ false
        → found.executed
        ≡ executed_by chains member (entered_of tokens member replace.existing_token)
        → SuitsTokens tokens chains effect.new }
    ensures about { (orders : List LiveOrder)
        → IsOnly orders member replace.existing_token found.live → IsAbout orders effect.new }
{
    if replace_fails(phase, found.executed, &replace) {
        *effect = Effect::Fail(FailedReplace {
            member,
            time,
            existing: replace.existing_token,
            replacement: replace.replacement_token,
            old: found.live,
        });
        return;
    }
    *effect = Effect::Replace(Replacement {
        member,
        time,
        replace,
        price: Price::of(replace.price).unwrap(),
        stock: symbol_of(setup, found.live.order.locate),
        executed: found.executed,
        old: found.live,
    });
}

/// What a Replace does.
#[inline(always)]
pub fn replace_effect<B: Book>(
    setup: &Setup,
    state: &State<B>,
    member: MemberNo,
    time: u64,
    message: Replace,
    effect: &mut Effect,
)
    requires time { time < day }
    ensures does { (counts : List ℕ)
        → replace setup.now (record state.now.market { recorded = counts }) member time message
        ≡ outcome_of (record state.now.market { recorded = counts }) effect.new }
    ensures fit { SuitsMarket setup.now state.now member effect.new }
{
    *effect = Effect::Nothing;
    let Some(found) = find_order(state, member, &message.existing_token) else {
        return;
    };
    if state
        .tokens
        .state(member, &message.replacement_token)
        .is_some()
    {
        return;
    }
    if is_halted(state.trading.halted(), found.live.order.locate) {
        return;
    }
    replace_or_fail(setup, state.phase, member, time, message, found, effect);
}
