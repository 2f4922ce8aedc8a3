//! To decide: which effect an hours code has (ITCH 5.0, System Event Message), and the output of the code itself.
ghost use Rattle.std.specs.Prelude.{◌≡◌, ℕ, List, ◌+◌, ◌<◌, ◌≤◌, ◌++◌, IfOk, OnOk, length};
ghost use Rattle.hx_units.specs.Limits.{day};
ghost use Rattle.hx_rules.specs.Hours.{next_hours, is_next, directory, to_all, output_by_code};
ghost use Rattle.hx_market_core.specs.Effects.{outcome_of};
ghost use Rattle.hx_market_core.specs.Prepared.{SuitsMarket};

use crate::decision::due_orders::orders_by_code;
use crate::decision::end_orders::end_orders;
use crate::effect::{Due, Effect};
use crate::state::State;
use hx_book::Book;
use hx_itch::{Feed, StockDirectory, SystemEvent};
use hx_members::{Member, Setup, Stock};
use hx_ouch::Outbound;
use hx_rules::{Output, letters};
use hx_units::{MemberNo, NoMemory};
use std::alloc::Global;

// Reports the stocks (ITCH 5.0, Stock Directory).
fn tell_stocks(feed: &mut Vec<Feed>, time: u64, stocks: &[Stock]) -> Result<(), NoMemory>
    requires { length stocks.now ≤ 1000 }
    ensures { OnOk result (feed.new.items ≡ feed.old.items ++ directory time 1 stocks.now) }
{
    let mut locate = 0;
    for stock in stocks {
        locate += 1;
        feed.push(Feed::StockDirectory(StockDirectory {
            locate,
            time,
            stock: stock.symbol,
            tail: stock.tail,
        }))?;
    }
    Ok(())
}

// Reports an hours code to each member (OUCH 4.2, System Event Message).
fn tell_members(
    replies: &mut Vec<(MemberNo, Outbound)>,
    time: u64,
    code: u8,
    members: &[Member],
) -> Result<(), NoMemory>
    ensures { OnOk result (replies.new.items ≡ replies.old.items ++ to_all members.now time code) }
{
    for member in members {
        let event = hx_ouch::SystemEvent {
            time,
            event_code: code,
        };
        replies.push((member.number, Outbound::SystemEvent(event)))?;
    }
    Ok(())
}

// The output of an hours code itself.
fn output_by_code(alloc: Global, setup: &Setup, time: u64, code: u8) -> Result<Output, NoMemory>
    ensures feed { IfOk result (λ out. out.feed.items ≡ (output_by_code setup.now time code).feed) }
    ensures replies { IfOk result (λ out. out.replies.items
        ≡ (output_by_code setup.now time code).replies) }
{
    let event = Feed::SystemEvent(SystemEvent {
        locate: 0,
        time,
        event_code: code,
    });
    let mut feed = vec![in alloc; event]?;
    let mut replies = Vec::new(alloc);
    if code == letters::START_OF_MESSAGES {
        tell_stocks(&mut feed, time, setup.stocks())?;
    }
    if code == letters::START_OF_SYSTEM_HOURS || code == letters::END_OF_SYSTEM_HOURS {
        tell_members(&mut replies, time, code, setup.members())?;
    }
    Ok(Output { feed, replies })
}

const CODES: [u8; 6] = *b"OSQMEC";

// Whether the code is the next one when `phase` hours codes are past.
fn is_next(phase: u8, code: u8) -> bool
    ensures { result ≡ is_next phase code }
{
    phase < 6 && CODES[phase as usize] == code
}

/// Sets `effect` to what an hours code does. `NoMemory` as for a tick.
#[inline(never)]
pub fn hours_effect<B: Book>(
    alloc: Global,
    setup: &Setup,
    state: &State<B>,
    time: u64,
    code: u8,
    effect: &mut Effect,
) -> Result<(), NoMemory>
    requires time { time < day }
    ensures does { OnOk result ((counts : List ℕ)
        → next_hours setup.now (record state.now.market { recorded = counts }) time code
        ≡ outcome_of (record state.now.market { recorded = counts }) effect.new) }
    ensures fit { OnOk result ((member : ℕ) → SuitsMarket setup.now state.now member effect.new) }
{
    if !is_next(state.phase, code) {
        *effect = Effect::Nothing;
        return Ok(());
    }
    let first = output_by_code(alloc, setup, time, code)?;
    let orders = orders_by_code(alloc, &state.book, code)?;
    *effect = end_orders(
        state,
        orders,
        Due::ByCode(code),
        time,
        state.phase + 1,
        first,
    )?;
    Ok(())
}
