//! To decide: which effect a Cancel has. It takes shares off the live order, or does nothing.
ghost use Rattle.std.specs.Prelude.{◌≡◌, ◌<◌, ℕ, List};
ghost use Rattle.hx_units.specs.Limits.{day};
ghost use Rattle.hx_rules.specs.Cancel.{cancel, cancelled_shares};
ghost use Rattle.hx_market_core.specs.Effects.{outcome_of};
ghost use Rattle.hx_market_core.specs.Prepared.{SuitsMarket};

use crate::effect::{Effect, Reduction};
use crate::order_by_token::{Found, find_order};
use crate::state::State;
use hx_book::Book;
use hx_members::Setup;
use hx_ouch::Cancel;
use hx_units::MemberNo;

// How many open shares a Cancel takes off.
#[inline(always)]
fn cancelled_shares(found: &Found, cancel: &Cancel) -> u32
    ensures { result ≡ cancelled_shares found.now.executed cancel.now found.now.live.order }
{
    let open = found.live.order.shares;
    let wanted = cancel.shares.saturating_sub(found.executed);
    open - open.min(wanted)
}

/// What a Cancel does.
#[inline(always)]
pub fn cancel_effect<B: Book>(
    setup: &Setup,
    state: &State<B>,
    member: MemberNo,
    time: u64,
    message: Cancel,
    effect: &mut Effect,
)
    requires time { time < day }
    ensures does { (counts : List ℕ)
        → cancel (record state.now.market { recorded = counts }) member time message
        ≡ outcome_of (record state.now.market { recorded = counts }) effect.new }
    ensures fit { SuitsMarket setup.now state.now member effect.new }
{
    let _ = setup;
    let Some(found) = find_order(state, member, &message.token) else {
        *effect = Effect::Nothing;
        return;
    };
    let by = cancelled_shares(&found, &message);
    if by == 0 {
        *effect = Effect::Nothing;
        return;
    }
    *effect = Effect::Cancel(Reduction {
        member,
        time,
        token: message.token,
        by,
        old: found.live,
    });
}
