//! To decide: which effect a break has (ITCH 5.0, Broken Trade Message).
ghost use Rattle.std.specs.Prelude.{◌≡◌, ◌<◌, ℕ, List};
ghost use Rattle.hx_units.specs.Limits.{day};
ghost use Rattle.hx_members.specs.Setups.{Setup as SetupOf};
ghost use Rattle.hx_rules.specs.Breaks.{break_trade};
ghost use Rattle.hx_market_core.specs.Effects.{outcome_of};
ghost use Rattle.hx_market_core.specs.Prepared.{SuitsMarket};

use crate::effect::{BrokenMatch, Effect};
use crate::state::State;
use hx_book::Book;

/// Sets `effect` to what a break does: nothing for a match number that was never drawn, or whose execution is broken.
#[inline(never)]
pub fn break_effect<B: Book>(state: &State<B>, time: u64, number: u64, effect: &mut Effect)
    requires { time < day }
    ensures does { (counts : List ℕ)
        → break_trade (record state.now.market { recorded = counts }) time number
        ≡ outcome_of (record state.now.market { recorded = counts }) effect.new }
    ensures fit { (setup : SetupOf) (member : ℕ) → SuitsMarket setup state.now member effect.new }
{
    *effect = Effect::Nothing;
    let Some(execution) = state.trading.execution(number) else {
        return;
    };
    if execution.broken {
        return;
    }
    *effect = Effect::Break(BrokenMatch {
        time,
        number,
        execution,
    });
}
