//! To commit: the order of an Enter is accepted, and arrives.
ghost use Rattle.std.specs.Prelude.{◌≡◌, ◌<◌, ◌^◌, length};
ghost use Rattle.hx_rules.specs.Enter.{accepted_of};
ghost use Rattle.hx_market_core.specs.Arrivals.{entering};
ghost use Rattle.hx_market_core.specs.Effects.{accepted_by};
ghost use Rattle.hx_market_core.specs.declared.effect.Effect.TheVariants.{Accept};
ghost use Rattle.hx_market_core.specs.Room.{RoomForFills, Tells};
ghost use Rattle.hx_market_core.specs.Prepared.{CanCommit};

use crate::commit::execute::Arriving;
use crate::commit::incoming::{arrive, draw};
use crate::effect::AcceptedEnter;
use crate::reports::publish;
use crate::state::State;
use hx_book::{Book, Order};
use hx_match::Fill;
use hx_ouch::{Accepted, Outbound};
use hx_rules::{Output, is_shown, letters, life_of};
use hx_units::MemberNo;

// The reply that an order is accepted.
#[inline(always)]
fn accepted(order: &Order, effect: &AcceptedEnter) -> (MemberNo, Outbound)
    requires { order.now.member ≡ effect.now.member }
    ensures { result ≡ accepted_of order.now effect.now.time effect.now.enter }
{
    let enter = &effect.enter;
    (
        order.member,
        Outbound::Accepted(Accepted {
            time: effect.time,
            token: enter.token,
            side: enter.side,
            shares: enter.shares,
            stock: enter.stock,
            price: enter.price,
            time_in_force: enter.time_in_force,
            firm: order.firm,
            display: enter.display,
            reference: order.reference,
            capacity: enter.capacity,
            intermarket_sweep: enter.intermarket_sweep,
            minimum_quantity: enter.minimum_quantity,
            cross_type: enter.cross_type,
            order_state: letters::ORDER_LIVE,
            bbo_weight: letters::NO_WEIGHT,
        }),
    )
}

// The order as it arrives, with its chain's number and its reference.
#[inline(always)]
fn arriving_of(chain: u64, reference: u64, effect: &AcceptedEnter) -> Arriving
    requires { effect.now.time < 2 ^ 62 }
    ensures { result ≡ entering chain reference effect.now }
{
    let enter = &effect.enter;
    Arriving {
        order: Order {
            member: effect.member,
            token: enter.token,
            chain,
            locate: effect.locate,
            side: effect.side,
            price: effect.price,
            shares: enter.shares,
            minimum: enter.minimum_quantity,
            display: enter.display,
            shown: is_shown(enter.display, enter.time_in_force),
            firm: effect.firm,
            capacity: enter.capacity,
            reference,
            life: life_of(effect.time, enter.time_in_force),
        },
        time: effect.time,
        stock: enter.stock,
        immediate: enter.time_in_force == 0,
    }
}

/// The order of a message that nothing rejects is accepted, and arrives.
#[inline(always)]
pub fn accept<B: Book>(
    state: &mut State<B>,
    out: &mut Output,
    effect: &AcceptedEnter,
    fills: &[Fill],
    left: u32,
)
    requires ready { CanCommit state.old fills.now left (Accept effect.now) }
    requires room { RoomForFills (length fills.now) out.old }
    ensures market { state.new.market ≡ (accepted_by state.old.market effect.now).market }
    ensures output { Tells out.old out.new (accepted_by state.old.market effect.now).output }
{
    let chain = state.tokens.count();
    state.tokens.consume(effect.member, &effect.enter.token);
    let shown = is_shown(effect.enter.display, effect.enter.time_in_force);
    let reference = draw(&mut state.refs, effect.member, shown);
    let arriving = arriving_of(chain, reference, effect);
    out.replies.push_reserved(accepted(&arriving.order, effect));
    let resting = arrive(state, out, &arriving, fills, left);
    publish(out, effect.time, effect.enter.stock, resting);
}
