//! To commit: orders that end leave the book, and the output that was decided for them is written.
ghost use Rattle.std.specs.Prelude.{◌≡◌, ◌≤◌, ◌+◌, ◌++◌, length, not};
ghost use Rattle.std.specs.List.{filter};
ghost use Rattle.hx_book.specs.Book.{lives};
ghost use Rattle.hx_members.specs.Tokens.{TokenList};
ghost use Rattle.hx_market_core.specs.OrderKeys.{AreKeyed};
ghost use Rattle.hx_market_core.specs.Effects.{IsExpiry, is_due, ended_by};
ghost use Rattle.hx_market_core.specs.Room.{RoomFor, Tells};
ghost use Rattle.std.specs.Vec.{vec_len, vec_capacity};

use crate::effect::Expiry;
use crate::state::State;
use hx_book::Book;
use hx_itch::Feed;
use hx_ouch::Outbound;
use hx_rules::Output;
use hx_units::MemberNo;

// Takes the orders that end out of the book.
fn remove_ended<B: Book>(book: &mut B, effect: &Expiry)
    requires { IsExpiry (B.orders book.old) effect.now }
    ensures live { lives (B.orders book.new)
        ≡ filter (λ x. not (is_due effect.now.due effect.now.time x)) (lives (B.orders book.old)) }
    ensures keyed { (t : TokenList) → AreKeyed t.tokens t.keys (B.orders book.old)
        → AreKeyed t.tokens t.keys (B.orders book.new) }
{
    for live in &effect.orders {
        book.remove(live.key);
    }
}

// Writes these messages of the feed.
fn tell_feed(feed: &mut Vec<Feed>, output: &[Feed])
    requires { vec_len feed.old + length output.now ≤ vec_capacity feed.old }
    ensures { feed.new.items ≡ feed.old.items ++ output.now }
{
    for message in output {
        feed.push_reserved(*message);
    }
}

// Writes these replies.
fn give_replies(replies: &mut Vec<(MemberNo, Outbound)>, output: &[(MemberNo, Outbound)])
    requires { vec_len replies.old + length output.now ≤ vec_capacity replies.old }
    ensures { replies.new.items ≡ replies.old.items ++ output.now }
{
    for reply in output {
        replies.push_reserved(*reply);
    }
}

/// The orders end, the phase becomes that of the effect, and the prepared output is written.
pub fn end<B: Book>(state: &mut State<B>, out: &mut Output, effect: &Expiry)
    requires ended { IsExpiry state.old.orders effect.now }
    requires room { RoomFor (length effect.now.output.feed.items)
        (length effect.now.output.replies.items) out.old }
    ensures market { state.new.market ≡ (ended_by state.old.market effect.now).market }
    ensures output { Tells out.old out.new (ended_by state.old.market effect.now).output }
{
    remove_ended(&mut state.book, effect);
    state.phase = effect.phase;
    tell_feed(&mut out.feed, &effect.output.feed);
    give_replies(&mut out.replies, &effect.output.replies);
}
