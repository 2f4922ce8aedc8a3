//! To decide: which effect a tick has. Orders end, and their output is prepared; an hours code uses the same.
ghost use Rattle.std.specs.Prelude.{◌≡◌, ℕ, List, ◌+◌, ◌<◌, ◌≤◌, ◌^◌, ◌++◌, ◌∷◌, [], IfOk, OnOk, map, not, true};
ghost use Rattle.std.specs.List.{AllByRecursion, filter};
ghost use Rattle.hx_units.specs.Limits.{day};
ghost use Rattle.hx_rules.specs.Letters.{timeout};
ghost use Rattle.hx_itch.specs.Message.{feed_time};
ghost use Rattle.hx_book.specs.Book.{lives, KeysDiffer};
ghost use Rattle.hx_members.specs.Setups.{Setup as SetupOf};
ghost use Rattle.hx_rules.specs.Removal.{deleted, canceled};
ghost use Rattle.hx_rules.specs.Hours.{tick, all_deleted, end_orders};
ghost use Rattle.hx_market_core.specs.Effects.{is_due, outcome_of};
ghost use Rattle.hx_market_core.specs.Expiries.{AreEntered};
ghost use Rattle.hx_market_core.specs.Prepared.{SuitsMarket};

use crate::decision::due_orders::orders_over;
use crate::effect::{Due, Effect, Expiry};
use crate::reports::{delete, tell_canceled};
use crate::state::State;
use hx_book::{Book, Live, Order};
use hx_day::Ends;
use hx_members::Setup;
use hx_rules::{Output, letters};
use hx_units::NoMemory;
use std::alloc::Global;

// Reports that an order has ended.
fn tell_end(out: &mut Output, time: u64, order: &Order) -> Result<(), NoMemory>
    ensures feed { OnOk result (out.new.feed.items ≡ out.old.feed.items ++ deleted time order.now) }
    ensures replies { OnOk result (out.new.replies.items
        ≡ out.old.replies.items
        ++ canceled time order.now.member order.now.token order.now.shares timeout ∷ []) }
{
    out.feed.reserve(1)?;
    out.replies.reserve(1)?;
    delete(out, time, order);
    tell_canceled(
        out,
        time,
        order.member,
        order.token,
        order.shares,
        letters::TIMEOUT,
    );
    Ok(())
}

// Reports all orders that have ended.
fn tell_ended(out: &mut Output, time: u64, orders: &[Live]) -> Result<(), NoMemory>
    ensures feed { OnOk result (out.new.feed.items
        ≡ out.old.feed.items ++ all_deleted time (lives orders.now)) }
    ensures replies { OnOk result (out.new.replies.items
        ≡ out.old.replies.items
        ++ map (λ x. canceled time x.member x.token x.shares timeout) (lives orders.now)) }
{
    for live in orders {
        tell_end(out, time, &live.order)?;
    }
    Ok(())
}

/// Ends the due orders, whose messages come after the `first` ones. Then `phase` hours codes are past.
///
/// Errors: `NoMemory` if there is no memory for the messages.
pub fn end_orders<B: Book>(
    state: &State<B>,
    orders: Vec<Live>,
    due: Due,
    time: u64,
    phase: u8,
    first: Output,
) -> Result<Effect, NoMemory>
    requires time { time < day }
    requires times { AllByRecursion (λ f. feed_time f < 2 ^ 48) first.feed.items }
    requires due { orders.items ≡ filter (λ l. is_due due time l.order) state.now.orders }
    requires differ { KeysDiffer state.now.orders }
    ensures does { IfOk result (λ a. (counts : List ℕ)
        → end_orders (λ x. is_due due time x) time
        (record state.now.market { phase = phase; recorded = counts })
        (record { feed = first.feed.items; replies = first.replies.items })
        ≡ outcome_of (record state.now.market { recorded = counts }) a) }
    ensures fit { IfOk result (λ a. (setup : SetupOf) (member : ℕ)
        → SuitsMarket setup state.now member a) }
{
    // Read for the contract alone: the market's live orders are those of the book.
    let _ = &state.book;
    let mut output = first;
    tell_ended(&mut output, time, &orders)?;
    Ok(Effect::End(Expiry {
        time,
        due,
        phase,
        orders,
        output,
    }))
}

/// Sets `effect` to what a tick does. `NoMemory` if there is no memory for the orders that end, or for their output.
#[inline(never)]
pub fn tick_effect<B: Book>(
    alloc: Global,
    setup: &Setup,
    state: &State<B>,
    ends: &Ends,
    time: u64,
    effect: &mut Effect,
) -> Result<(), NoMemory>
    requires time { time < day }
    requires entered { AreEntered ends.now state.now.market.tokens state.now.market.live }
    ensures does { OnOk result ((counts : List ℕ)
        → tick (record state.now.market { recorded = counts }) time
        ≡ outcome_of (record state.now.market { recorded = counts }) effect.new) }
    ensures fit { OnOk result ((member : ℕ) → SuitsMarket setup.now state.now member effect.new) }
{
    let _ = setup;
    let orders = orders_over(alloc, state, ends, time)?;
    let first = Output {
        feed: Vec::new(alloc),
        replies: Vec::new(alloc),
    };
    *effect = end_orders(state, orders, Due::Over, time, state.phase, first)?;
    Ok(())
}
