//! To commit: a Replace. The old order goes, and the new one arrives in its chain; or the Replace fails, and the old
//! order is cancelled.
ghost use Rattle.std.specs.Prelude.{◌≡◌, ◌+◌, ◌<◌, ◌≤◌, ◌++◌, ◌&&◌, nat_lt, [], ◌∷◌, length, map, if◌then◌else◌, true, Some};
ghost use Rattle.std.specs.Vec.{vec_len, vec_capacity};
ghost use Rattle.hx_book.specs.Book.{without};
ghost use Rattle.hx_members.specs.Chains.{is_used, index_of};
ghost use Rattle.hx_market_core.specs.declared.effect.Effect.TheVariants.{Replace as ToReplaceBy, Fail};
ghost use Rattle.hx_rules.specs.Executions.{published, shown_of};
ghost use Rattle.hx_rules.specs.Removal.{deleted};
ghost use Rattle.hx_rules.specs.Replace.{handed_over, replaced_of, is_one_display};
ghost use Rattle.hx_market_core.specs.Arrivals.{replacing};
ghost use Rattle.hx_market_core.specs.OrderKeys.{AreBefore};
ghost use Rattle.hx_market_core.specs.Effects.{IsOnly, IsUnused, IsReplacement, replacement_order, replaced_by_effect, output_in_one, outcome_of};
ghost use Rattle.hx_market_core.specs.MarketModel.{listed, name_of};
ghost use Rattle.hx_market_core.specs.Room.{RoomForFills, Tells};
ghost use Rattle.hx_market_core.specs.Prepared.{CanCommit, IsChainOf};

use crate::commit::execute::Arriving;
use crate::commit::incoming::{arrive, draw};
use crate::effect::{FailedReplace, Replacement, is_one_display};
use crate::reports::{delete, publish, tell_canceled};
use crate::state::State;
use hx_book::{Book, Live, Order};
use hx_itch::{Feed, OrderReplace};
use hx_match::Fill;
use hx_ouch::{Outbound, Replaced};
use hx_rules::{Output, is_shown, letters, life_of};
use hx_units::{MemberNo, Token};

// The replacement token is used, in the chain of the existing one, and the existing order is gone.
fn hand_over<B: Book>(
    state: &mut State<B>,
    member: MemberNo,
    existing: &Token,
    replacement: &Token,
    old: &Live,
)
    requires only { IsOnly state.old.orders member existing.now old.now }
    requires unused { IsUnused state.old.market.tokens member replacement.now }
    requires reserved { state.old.reserved_token ≡ Some (name_of member replacement.now) }
    requires chain { IsChainOf state.old.market.tokens member existing.now old.now.order.chain }
    ensures market { state.new.market
        ≡ handed_over state.old.market member existing.now replacement.now }
    ensures orders { state.new.orders ≡ without old.now.key.0 state.old.orders }
    ensures reserved { state.new.reserved ≡ state.old.reserved }
    ensures room { state.new.room ≡ state.old.room }
    ensures used { is_used state.new.market.tokens member replacement.now ≡ true }
    ensures before { AreBefore state.new.market.tokens
        (index_of state.new.market.tokens member replacement.now) state.new.orders }
{
    let _ = existing;
    state.book.remove(old.key);
    state
        .tokens
        .join_chain(member, replacement, old.order.chain);
}

/// The Replace of an order fails: the order is cancelled, and the new token is used.
pub fn fail<B: Book>(state: &mut State<B>, out: &mut Output, effect: &FailedReplace)
    requires ready { CanCommit state.old [] 0 (Fail effect.now) }
    requires room { RoomForFills 0 out.old }
    ensures market { state.new.market ≡ (outcome_of state.old.market (Fail effect.now)).market }
    ensures output { Tells out.old out.new (outcome_of state.old.market (Fail effect.now)).output }
{
    let old = &effect.old.order;
    hand_over(
        state,
        effect.member,
        &effect.existing,
        &effect.replacement,
        &effect.old,
    );
    delete(out, effect.time, old);
    tell_canceled(
        out,
        effect.time,
        effect.member,
        effect.existing,
        old.shares,
        letters::BY_USER,
    );
}

// The new order as it arrives, with its reference.
#[inline(always)]
fn arriving_of(reference: u64, effect: &Replacement) -> Arriving
    requires { IsReplacement effect.now }
    ensures { result ≡ replacing reference effect.now }
{
    let old = &effect.old.order;
    let replace = &effect.replace;
    let open = replace.shares - effect.executed;
    Arriving {
        order: Order {
            member: old.member,
            token: replace.replacement_token,
            chain: old.chain,
            locate: old.locate,
            side: old.side,
            price: effect.price,
            shares: open,
            minimum: replace.minimum_quantity.min(open),
            display: replace.display,
            shown: is_shown(replace.display, replace.time_in_force),
            firm: old.firm,
            capacity: old.capacity,
            reference,
            life: life_of(effect.time, replace.time_in_force),
        },
        time: effect.time,
        stock: effect.stock,
        immediate: replace.time_in_force == 0,
    }
}

// The reply that an order replaces another.
#[inline(always)]
fn replaced(order: &Order, effect: &Replacement) -> (MemberNo, Outbound)
    ensures { result ≡ replaced_of effect.now.member effect.now.time effect.now.stock
        effect.now.replace order.now }
{
    let replace = &effect.replace;
    (
        effect.member,
        Outbound::Replaced(Replaced {
            time: effect.time,
            replacement_token: replace.replacement_token,
            side: order.side.get(),
            shares: order.shares,
            stock: effect.stock,
            price: replace.price,
            time_in_force: replace.time_in_force,
            firm: order.firm,
            display: replace.display,
            reference: order.reference,
            capacity: order.capacity,
            intermarket_sweep: replace.intermarket_sweep,
            minimum_quantity: order.minimum,
            cross_type: letters::NO_CROSS,
            order_state: letters::ORDER_LIVE,
            previous_token: replace.existing_token,
            bbo_weight: letters::NO_WEIGHT,
        }),
    )
}

// Whether one message of the feed reports old and new.
#[inline(always)]
fn tells_in_one(effect: &Replacement, fills: &[Fill]) -> bool
    ensures { result ≡ (is_one_display effect.now.old.order (replacement_order 0 effect.now)
        && nat_lt (length fills.now) 1) }
{
    is_one_display(effect) && fills.is_empty()
}

// In the feed, before the executions: the old order is gone, if it was shown and no one message reports both.
#[inline(always)]
fn tell_old(out: &mut Output, effect: &Replacement, in_one: bool)
    requires { vec_len out.old.feed < vec_capacity out.old.feed }
    ensures feed { out.new.feed.items ≡ out.old.feed.items
        ++ (if in_one then [] else deleted effect.now.time effect.now.old.order) }
    ensures room { (vec_len out.new.feed ≤ vec_len out.old.feed + 1)
        × (vec_capacity out.new.feed ≡ vec_capacity out.old.feed) }
    ensures replies { out.new.replies ≡ out.old.replies }
{
    if !in_one {
        delete(out, effect.time, &effect.old.order);
    }
}

// The feed messages after the executions: the one message, or what rests shown.
#[inline(always)]
fn tell_new(
    out: &mut Output,
    effect: &Replacement,
    order: &Order,
    in_one: bool,
    resting: Option<Order>,
)
    requires { vec_len out.old.feed < vec_capacity out.old.feed }
    ensures feed { out.new.feed.items ≡ out.old.feed.items ++ (if in_one
        then output_in_one effect.now.time effect.now.old.order order.now ∷ []
        else map (published effect.now.time effect.now.stock) (shown_of (listed resting))) }
    ensures replies { out.new.replies.items ≡ out.old.replies.items }
{
    if in_one {
        out.feed.push_reserved(Feed::OrderReplace(OrderReplace {
            locate: order.locate,
            time: effect.time,
            original_reference: effect.old.order.reference,
            reference: order.reference,
            shares: order.shares,
            price: order.price.get(),
        }));
    } else {
        publish(out, effect.time, effect.stock, resting);
    }
}

/// A Replace replaces: the old order goes, and the new one arrives in its chain.
#[inline(always)]
pub fn replace<B: Book>(
    state: &mut State<B>,
    out: &mut Output,
    effect: &Replacement,
    fills: &[Fill],
    left: u32,
)
    requires ready { CanCommit state.old fills.now left (ToReplaceBy effect.now) }
    requires room { RoomForFills (length fills.now) out.old }
    ensures market { state.new.market ≡ (replaced_by_effect state.old.market effect.now).market }
    ensures output { Tells out.old out.new (replaced_by_effect state.old.market effect.now).output }
{
    let replace = &effect.replace;
    hand_over(
        state,
        effect.member,
        &replace.existing_token,
        &replace.replacement_token,
        &effect.old,
    );
    let shown = is_shown(replace.display, replace.time_in_force);
    let reference = draw(&mut state.refs, effect.member, shown);
    let arriving = arriving_of(reference, effect);
    out.replies.push_reserved(replaced(&arriving.order, effect));
    let in_one = tells_in_one(effect, fills);
    tell_old(out, effect, in_one);
    let resting = arrive(state, out, &arriving, fills, left);
    tell_new(out, effect, &arriving.order, in_one, resting);
}
