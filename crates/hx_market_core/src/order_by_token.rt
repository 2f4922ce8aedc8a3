//! A look-up for deciding: a member's live order, found by its token.
ghost use Rattle.std.specs.Prelude.{◌≡◌, IfSome};
ghost use Rattle.std.specs.Option.{option_map};
ghost use Rattle.std.specs.List.{find};
ghost use Rattle.hx_book.specs.Book.{order_of, KeysDiffer};
ghost use Rattle.hx_members.specs.Chains.{entered_of, executed_by};
ghost use Rattle.hx_rules.specs.Orders.{is_called};
ghost use Rattle.hx_market_core.specs.Effects.{IsOnly, confirmed};

use crate::state::State;
use hx_book::{Book, Key, Live};
use hx_members::is_same_name;
use hx_units::{MemberNo, Token};

/// A live order, and what its chain has executed.
#[derive(Clone, Copy, Debug)]
pub struct Found {
    /// The order, under its key.
    pub live: Live,
    /// The executed shares of its chain.
    pub executed: u32,
}

// The order under a key, if it is the one that the member calls by this token.
#[inline(always)]
fn confirm<B: Book>(book: &B, key: Key, member: MemberNo, token: &Token) -> Option<Live>
    ensures confirmed { option_map (λ live. live.order) result
        ≡ confirmed member token.now (order_of key.0 (B.orders book.now)) }
    ensures key { IfSome result (λ live. live.key ≡ key) }
    ensures keys { KeysDiffer (B.orders book.now) }
{
    let order = *book.get(key)?;
    if is_same_name(order.member, &order.token, member, token) {
        Some(Live { key, order })
    } else {
        None
    }
}

/// The live order that a member calls by a token. A token has the key of the last order under it: the book knows
/// whether that one still lives.
#[inline(always)]
pub fn find_order<B: Book>(state: &State<B>, member: MemberNo, token: &Token) -> Option<Found>
    ensures found { option_map (λ f. f.live.order) result
        ≡ find (is_called member token.now) state.now.market.live }
    ensures only { IfSome result (λ f. IsOnly state.now.orders member token.now f.live) }
    ensures executed { IfSome result (λ f. f.executed ≡ executed_by state.now.market.chains member
        (entered_of state.now.market.tokens member token.now)) }
{
    let used = state.tokens.state(member, token)?;
    let live = confirm(&state.book, Key(used.key?), member, token)?;
    Some(Found {
        live,
        executed: used.facts.executed,
    })
}
