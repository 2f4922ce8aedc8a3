//! To commit: an order arrives, be it entered or replacing. It draws its reference and executes, and what is left of it
//! rests or is cancelled.
ghost use Rattle.std.specs.Prelude.{◌≡◌, ◌+◌, ◌-◌, ◌<◌, ◌^◌, slice_index, length, ◌*◌};
ghost use Rattle.std.specs.Vec.{vec_len, vec_capacity};
ghost use Rattle.hx_rules.specs.Enter.{next_reference, after_draw};
ghost use Rattle.hx_market_core.specs.Arrivals.{CanArrive, CanRest, arrive_in, output_of_arrival, rested};
ghost use Rattle.hx_market_core.specs.MarketModel.{listed};
ghost use Rattle.hx_market_core.specs.Room.{RoomFor, Tells};

use crate::commit::execute::{Arriving, execute};
use crate::reports::tell_canceled;
use crate::state::State;
use hx_book::{Book, Order};
use hx_match::Fill;
use hx_refs::Refs;
use hx_rules::{Output, letters};
use hx_units::MemberNo;

/// Draws the reference of an order.
#[inline(always)]
pub fn draw(refs: &mut Refs, member: MemberNo, shown: bool) -> u64
    requires public { refs.old.public < 2 ^ 62 }
    requires private { slice_index refs.old.private member < 2 ^ 40 - 1 }
    ensures value { result ≡ next_reference refs.old member shown }
    ensures drawn { refs.new ≡ after_draw refs.old member shown }
{
    if shown {
        refs.public()
    } else {
        refs.private(member)
    }
}

// The order with `shares` open shares.
#[inline(always)]
fn with_shares(order: &Order, shares: u32) -> Order
    ensures { result ≡ record order.now { shares = shares } }
{
    let mut rest = *order;
    rest.shares = shares;
    rest
}

// Puts what is left of an order last in time, into its reserved slot, under its token; its chain counts as displayed if
// it is shown.
#[inline(always)]
fn rest_of<B: Book>(state: &mut State<B>, order: &Order, left: u32) -> Order
    requires ready { CanRest state.old order.now }
    ensures rest { result ≡ record order.now { shares = left } }
    ensures market { state.new.market
        ≡ rested state.old.market (record order.now { shares = left }) }
{
    let rest = with_shares(order, left);
    let key = state.book.add(rest);
    state.tokens.settle(rest.member, &rest.token, Some(key.0));
    if rest.shown {
        state.tokens.note(rest.chain, 0, true);
    }
    rest
}

/// An order arrives: its plan is carried out, and what is left of it rests, or is cancelled. Gives what rests.
#[inline(always)]
pub fn arrive<B: Book>(
    state: &mut State<B>,
    out: &mut Output,
    arriving: &Arriving,
    fills: &[Fill],
    left: u32,
) -> Option<Order>
    requires ready { CanArrive state.old arriving.now.order arriving.now.immediate fills.now left }
    requires room { RoomFor (length fills.now) (2 * length fills.now + 1) out.old }
    ensures rests { listed result ≡ (arrive_in state.old.market arriving.now).resting }
    ensures market { state.new.market ≡ (arrive_in state.old.market arriving.now).market }
    ensures output { Tells out.old out.new (output_of_arrival state.old.market arriving.now) }
    ensures feed_room { (vec_len out.new.feed ≡ vec_len out.old.feed + length fills.now)
        × (vec_capacity out.new.feed ≡ vec_capacity out.old.feed) }
{
    execute(state, out, arriving, fills);
    if left == 0 {
        return None;
    }
    let order = &arriving.order;
    if arriving.immediate {
        tell_canceled(
            out,
            arriving.time,
            order.member,
            order.token,
            left,
            letters::IMMEDIATE_OR_CANCEL,
        );
        return None;
    }
    Some(rest_of(state, order, left))
}
