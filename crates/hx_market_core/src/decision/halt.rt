//! To decide: which effect a halt has (ITCH 5.0, Stock Trading Action Message).
ghost use Rattle.std.specs.Prelude.{◌≡◌, ◌<◌, ℕ};
ghost use Rattle.hx_units.specs.Limits.{day};
ghost use Rattle.hx_rules.specs.Markets.{Market};
ghost use Rattle.hx_rules.specs.Halts.{halt, is_trading_state};
ghost use Rattle.hx_market_core.specs.Effects.{outcome_of};
ghost use Rattle.hx_market_core.specs.MarketModel.{MarketState};
ghost use Rattle.hx_market_core.specs.Prepared.{SuitsMarket};

use crate::effect::{Effect, StateChange};
use hx_members::Setup;
use hx_rules::letters;
use hx_units::Symbol;

// Whether the letter is a state of a stock.
fn is_trading_state(state: u8) -> bool
    ensures { result ≡ is_trading_state state }
{
    state == letters::HALTED || state == letters::TRADING
}

/// Sets `effect` to what a halt does, or its end: nothing for a stock that the setup does not have, or for another
/// letter.
#[inline(never)]
pub fn halt_effect(
    setup: &Setup,
    time: u64,
    stock: Symbol,
    state: u8,
    reason: [u8; 4],
    effect: &mut Effect,
)
    requires { time < day }
    ensures does { (m : Market)
        → halt setup.now m time stock state reason ≡ outcome_of m effect.new }
    ensures fit { (s : MarketState) (member : ℕ) → SuitsMarket setup.now s member effect.new }
{
    *effect = Effect::Nothing;
    let Some(locate) = setup.locate(stock) else {
        return;
    };
    if !is_trading_state(state) {
        return;
    }
    *effect = Effect::Halt(StateChange {
        time,
        locate,
        stock,
        state,
        reason,
    });
}
