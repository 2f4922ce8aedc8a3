//! To commit: halts and breaks.
ghost use Rattle.std.specs.Prelude.{◌≡◌, ◌+◌, ◌<◌, ◌++◌, [], ◌∷◌};
ghost use Rattle.std.specs.Vec.{vec_len, vec_capacity};
ghost use Rattle.hx_rules.specs.Breaks.{to_broken};
ghost use Rattle.hx_market_core.specs.Effects.{outcome_of};
ghost use Rattle.hx_market_core.specs.Room.{RoomForFills, Tells};
ghost use Rattle.hx_market_core.specs.declared.effect.Effect.TheVariants.{Halt, Break};

use crate::effect::{BrokenMatch, StateChange};
use crate::state::State;
use hx_book::Book;
use hx_itch::{BrokenTrade, Feed, StockTradingAction};
use hx_ouch::Outbound;
use hx_rules::{Output, letters};
use hx_units::{MemberNo, Token};

/// A stock is halted, or trades again: the feed reports it.
pub fn set_state<B: Book>(state: &mut State<B>, out: &mut Output, effect: &StateChange)
    requires { RoomForFills 0 out.old }
    ensures market { state.new.market ≡ (outcome_of state.old.market (Halt effect.now)).market }
    ensures output { Tells out.old out.new (outcome_of state.old.market (Halt effect.now)).output }
{
    state
        .trading
        .set_halted(effect.locate, effect.state == letters::HALTED);
    out.feed.push_reserved(Feed::StockTradingAction(StockTradingAction {
        locate: effect.locate,
        time: effect.time,
        stock: effect.stock,
        trading_state: effect.state,
        reason: effect.reason,
    }));
}

// Replies to a member that the execution of its order is broken.
fn tell_broken(out: &mut Output, time: u64, member: MemberNo, token: Token, number: u64)
    requires { vec_len out.old.replies < vec_capacity out.old.replies }
    ensures feed { out.new.feed ≡ out.old.feed }
    ensures replies { out.new.replies.items
        ≡ out.old.replies.items ++ to_broken time member token number ∷ [] }
    ensures room { (vec_len out.new.replies ≡ vec_len out.old.replies + 1)
        × (vec_capacity out.new.replies ≡ vec_capacity out.old.replies) }
{
    out.replies.push_reserved((
        member,
        Outbound::BrokenTrade(hx_ouch::BrokenTrade {
            time,
            token,
            match_number: number,
            reason: letters::SUPERVISORY,
        }),
    ));
}

/// An execution is broken: the feed reports it, and both members get a reply.
pub fn break_match<B: Book>(state: &mut State<B>, out: &mut Output, effect: &BrokenMatch)
    requires { RoomForFills 0 out.old }
    ensures market { state.new.market ≡ (outcome_of state.old.market (Break effect.now)).market }
    ensures output { Tells out.old out.new (outcome_of state.old.market (Break effect.now)).output }
{
    let (time, number) = (effect.time, effect.number);
    let execution = &effect.execution;
    state.trading.mark_broken(number, execution);
    out.feed.push_reserved(Feed::BrokenTrade(BrokenTrade {
        locate: execution.locate,
        time,
        match_number: number,
    }));
    tell_broken(out, time, execution.maker, execution.maker_token, number);
    tell_broken(out, time, execution.taker, execution.taker_token, number);
}
