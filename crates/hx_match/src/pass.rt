//! The one pass over the orders that cross.
ghost use Rattle.std.specs.Prelude.{List, ◌≡◌, ◌<◌, ◌++◌, length, IfOk, IfErr, OnOk, OnErr, min};
ghost use Rattle.hx_book.specs.Book.{KeysDiffer, lives};
ghost use Rattle.hx_match.specs.Matching.{matched, matched_live};
ghost use Rattle.hx_match.specs.Executing.{fills_of, AreGood, done_by, left_by};
ghost use Rattle.hx_match.specs.Rules.{AreFills};
ghost use Rattle.hx_match.specs.declared.fills.Fill.{Fill};

use crate::fills::{Fill, Incoming, Plan};
use hx_book::{Book, Key, Order, Terms, Walk};
use hx_units::NoMemory;
use std::alloc::Global;

/// The executions of an incoming order against a book, in one pass over the orders that cross, by rank. The book stays
/// as it is. The fills can be carried out one after another: what they execute, and the orders that then stay, are
/// those of the rules. `NoMemory` if the list of fills cannot grow: with no fill it takes no memory.
pub fn plan<B: Book>(alloc: Global, book: &B, incoming: &Incoming) -> Result<Plan, NoMemory>
    ensures fills { IfOk result (λ plan.
        plan.fills.items ≡ fills_of incoming.now (B.orders book.now)) }
    ensures left { IfOk result (λ plan.
        plan.left ≡ (matched_live incoming.now (B.orders book.now)).left) }
    ensures good { IfOk result (λ plan. AreGood plan.fills.items (B.orders book.now)) }
    ensures done { IfOk result (λ plan. done_by plan.fills.items (B.orders book.now)
        ≡ (matched incoming.now incoming.now.shares (lives (B.orders book.now))).fills) }
    ensures rest { IfOk result (λ plan. lives (left_by plan.fills.items (B.orders book.now))
        ≡ (matched incoming.now incoming.now.shares (lives (B.orders book.now))).rest) }
    ensures remains { IfOk result (λ plan. plan.left
        ≡ (matched incoming.now incoming.now.shares (lives (B.orders book.now))).left) }
    ensures memory { IfErr result (λ _. 0 < length (fills_of incoming.now (B.orders book.now))) }
    ensures keys { KeysDiffer (B.orders book.now) }
{
    let mut fills = Vec::new(alloc);
    let left = plan_into(&mut fills, book, incoming)?;
    Ok(Plan { fills, left })
}

/// The same into a list of earlier executions, which go: it takes memory only if the list has to grow. After `NoMemory`
/// the list holds the first executions, as far as there was room.
#[inline(always)]
pub fn plan_into<B: Book>(
    fills: &mut Vec<Fill>,
    book: &B,
    incoming: &Incoming,
) -> Result<u32, NoMemory>
    ensures fills { OnOk result (fills.new.items ≡ fills_of incoming.now (B.orders book.now)) }
    ensures left { IfOk result (λ left.
        left ≡ (matched_live incoming.now (B.orders book.now)).left) }
    ensures executions { IfOk result (λ left.
        AreFills incoming.now (B.orders book.now) fills.new.items left) }
    ensures memory { IfErr result (λ _. 0 < length (fills_of incoming.now (B.orders book.now))) }
    ensures front { OnErr result ((others : List Fill)
        × (fills.new.items ++ others ≡ fills_of incoming.now (B.orders book.now))) }
    ensures keys { KeysDiffer (B.orders book.now) }
{
    fills.clear();
    let terms = Terms {
        locate: incoming.locate,
        side: incoming.side,
        price: incoming.price,
    };
    let mut left = incoming.shares;
    let mut walk = Walk::start();
    'walk: while let Some(key) = book.next_qualifying(&terms, &mut walk, left, incoming.minimum) {
        let order = book.get(key).unwrap();
        let fill = execution(left, key, order);
        left -= fill.shares;
        fills.push(fill)?;
    }
    Ok(left)
}

// The execution of a resting order that qualifies for the shares that are left.
#[inline(always)]
fn execution(left: u32, key: Key, order: &Order) -> Fill
    ensures { result ≡ record {
      key = key;
      shares = min left order.now.shares;
      price = order.now.price;
    } }
{
    Fill {
        key,
        shares: left.min(order.shares),
        price: order.price,
    }
}
