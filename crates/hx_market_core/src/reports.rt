//! The output of an event, message by message: the messages that several effects share, written as they are committed
//! or, of orders that end, as they are decided.
ghost use Rattle.std.specs.Prelude.{◌≡◌, ◌+◌, ◌<◌, ◌≤◌, ◌++◌, [], ◌∷◌, map};
ghost use Rattle.std.specs.Vec.{vec_len, vec_capacity};
ghost use Rattle.hx_rules.specs.Executions.{published, shown_of};
ghost use Rattle.hx_rules.specs.Removal.{deleted, canceled};
ghost use Rattle.hx_market_core.specs.MarketModel.{listed};

use hx_book::Order;
use hx_itch::{AddOrder, AddOrderWithAttribution, Feed, OrderDelete};
use hx_ouch::{Canceled, Outbound};
use hx_rules::{Output, letters, published_side};
use hx_units::{MemberNo, Symbol, Token};

// In the feed: an order that rests.
#[inline(always)]
fn published(time: u64, stock: Symbol, order: &Order) -> Feed
    ensures { result ≡ published time stock order.now }
{
    let side = published_side(order.side);
    let price = order.price.get();
    if order.display == letters::ATTRIBUTABLE {
        return Feed::AddOrderWithAttribution(AddOrderWithAttribution {
            locate: order.locate,
            time,
            reference: order.reference,
            side,
            shares: order.shares,
            stock,
            price,
            attribution: order.firm,
        });
    }
    Feed::AddOrder(AddOrder {
        locate: order.locate,
        time,
        reference: order.reference,
        side,
        shares: order.shares,
        stock,
        price,
    })
}

/// Publishes an order that rests, if it is shown.
#[inline(always)]
pub fn publish(out: &mut Output, time: u64, stock: Symbol, resting: Option<Order>)
    requires { vec_len out.old.feed < vec_capacity out.old.feed }
    ensures feed { out.new.feed.items
        ≡ out.old.feed.items ++ map (published time stock) (shown_of (listed resting)) }
    ensures replies { out.new.replies.items ≡ out.old.replies.items }
{
    if let Some(order) = resting {
        if order.shown {
            out.feed.push_reserved(published(time, stock, &order));
        }
    }
}

/// Publishes that an order is gone, if it was shown.
#[inline(always)]
pub fn delete(out: &mut Output, time: u64, order: &Order)
    requires { vec_len out.old.feed < vec_capacity out.old.feed }
    ensures feed { out.new.feed.items ≡ out.old.feed.items ++ deleted time order.now }
    ensures room { (vec_len out.new.feed ≤ vec_len out.old.feed + 1)
        × (vec_capacity out.new.feed ≡ vec_capacity out.old.feed) }
    ensures replies { out.new.replies ≡ out.old.replies }
{
    if order.shown {
        out.feed.push_reserved(Feed::OrderDelete(OrderDelete {
            locate: order.locate,
            time,
            reference: order.reference,
        }));
    }
}

/// Replies to a member that `shares` shares of an order are off, for a reason.
#[inline(always)]
pub fn tell_canceled(
    out: &mut Output,
    time: u64,
    member: MemberNo,
    token: Token,
    shares: u32,
    reason: u8,
)
    requires { vec_len out.old.replies < vec_capacity out.old.replies }
    ensures feed { out.new.feed ≡ out.old.feed }
    ensures replies { out.new.replies.items
        ≡ out.old.replies.items ++ canceled time member token shares reason ∷ [] }
{
    out.replies.push_reserved((
        member,
        Outbound::Canceled(Canceled {
            time,
            token,
            shares,
            reason,
        }),
    ));
}
