//! To commit: a Cancel takes shares off an order, or the order out.
ghost use Rattle.std.specs.Prelude.{◌≡◌, ◌<◌, ◌++◌};
ghost use Rattle.std.specs.Vec.{vec_len, vec_capacity};
ghost use Rattle.hx_book.specs.Book.{lives};
ghost use Rattle.hx_members.specs.Tokens.{TokenList};
ghost use Rattle.hx_rules.specs.Removal.{lessened, taken_off};
ghost use Rattle.hx_market_core.specs.OrderKeys.{AreKeyed};
ghost use Rattle.hx_market_core.specs.Effects.{IsOnly, IsReduction, outcome_of};
ghost use Rattle.hx_market_core.specs.Room.{RoomForFills, Tells};
ghost use Rattle.hx_market_core.specs.declared.effect.Effect.TheVariants.{Cancel};

use crate::effect::Reduction;
use crate::reports::{delete, tell_canceled};
use crate::state::State;
use hx_book::Book;
use hx_itch::{Feed, OrderCancel};
use hx_rules::{Output, letters};

// Takes the shares off, or the order out.
#[inline(always)]
fn take_off<B: Book>(book: &mut B, effect: &Reduction)
    requires only { IsOnly (B.orders book.old) effect.now.member effect.now.token effect.now.old }
    requires shares { IsReduction effect.now }
    ensures live { lives (B.orders book.new)
        ≡ lessened effect.now.member effect.now.token effect.now.by (lives (B.orders book.old)) }
    ensures keyed { (t : TokenList) → AreKeyed t.tokens t.keys (B.orders book.old)
        → AreKeyed t.tokens t.keys (B.orders book.new) }
{
    if effect.by < effect.old.order.shares {
        book.reduce(effect.old.key, effect.by);
    } else {
        book.remove(effect.old.key);
    }
}

// The feed message: `by` shares are off, or the order is gone.
#[inline(always)]
fn tell_feed(out: &mut Output, effect: &Reduction)
    requires { vec_len out.old.feed < vec_capacity out.old.feed }
    ensures feed { out.new.feed.items
        ≡ out.old.feed.items ++ taken_off effect.now.time effect.now.by effect.now.old.order }
    ensures replies { out.new.replies ≡ out.old.replies }
{
    let order = &effect.old.order;
    if effect.by >= order.shares {
        delete(out, effect.time, order);
    } else if order.shown {
        out.feed.push_reserved(Feed::OrderCancel(OrderCancel {
            locate: order.locate,
            time: effect.time,
            reference: order.reference,
            shares: effect.by,
        }));
    }
}

/// A Cancel takes shares off an order, or the order out.
#[inline(always)]
pub fn cancel<B: Book>(state: &mut State<B>, out: &mut Output, effect: &Reduction)
    requires only { IsOnly state.old.orders effect.now.member effect.now.token effect.now.old }
    requires shares { IsReduction effect.now }
    requires room { RoomForFills 0 out.old }
    ensures market { state.new.market ≡ (outcome_of state.old.market (Cancel effect.now)).market }
    ensures output { Tells out.old out.new (outcome_of state.old.market (Cancel effect.now)).output }
{
    take_off(&mut state.book, effect);
    tell_feed(out, effect);
    tell_canceled(
        out,
        effect.time,
        effect.member,
        effect.token,
        effect.by,
        letters::BY_USER,
    );
}
