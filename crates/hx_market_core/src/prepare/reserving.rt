//! To prepare: the plan of an effect, its executions and a slot for what it adds to the book and to the used tokens.
ghost use Rattle.std.specs.Prelude.{◌≡◌, [], Some, IfOk, OnOk, false};
ghost use Rattle.hx_book.specs.Book.{order_of, without, KeysDiffer};
ghost use Rattle.hx_match.specs.Matching.{terms, matched_live};
ghost use Rattle.hx_match.specs.Executing.{fills_of};
ghost use Rattle.hx_match.specs.Rules.{AreFills};
ghost use Rattle.hx_rules.specs.Orders.{is_immediate};
ghost use Rattle.hx_market_core.specs.Effects.{IsReplacement, IsInRange, IsAbout, incoming_of_enter, terms_of_enter, incoming_of_replacement, terms_of_replacement};
ghost use Rattle.hx_market_core.specs.Prepared.{HasReserved};

use crate::effect::{AcceptedEnter, Effect, Replacement};
use hx_book::{Book, Terms};
use hx_match::{Fill, Incoming, plan_into};
use hx_members::Tokens;
use hx_units::NoMemory;

fn incoming_of(effect: &AcceptedEnter) -> Incoming
    ensures { result ≡ incoming_of_enter effect.now }
{
    Incoming {
        locate: effect.locate,
        side: effect.side,
        price: effect.price,
        shares: effect.enter.shares,
        minimum: effect.enter.minimum_quantity,
    }
}

fn incoming_by(effect: &Replacement) -> Incoming
    requires { IsReplacement effect.now }
    ensures { result ≡ incoming_of_replacement effect.now }
{
    let open = effect.replace.shares - effect.executed;
    Incoming {
        locate: effect.old.order.locate,
        side: effect.old.order.side,
        price: effect.price,
        shares: open,
        minimum: effect.replace.minimum_quantity.min(open),
    }
}

// Writes the plan of an order into this list, and reserves a slot for what rests of it: none of an immediate one does.
#[inline(always)]
fn plan_order<B: Book>(
    fills: &mut Vec<Fill>,
    book: &mut B,
    incoming: &Incoming,
    immediate: bool,
) -> Result<u32, NoMemory>
    ensures orders { B.orders book.new ≡ B.orders book.old }
    ensures reserved { OnOk result (immediate ≡ false
        → B.reserved book.new ≡ Some (terms incoming.now)) }
    ensures fills { OnOk result (fills.new.items ≡ fills_of incoming.now (B.orders book.new)) }
    ensures left { IfOk result (λ left. left
        ≡ (matched_live incoming.now (B.orders book.new)).left) }
    ensures executions { IfOk result
        (λ left. AreFills incoming.now (B.orders book.new) fills.new.items left) }
    ensures keys { OnOk result (KeysDiffer (B.orders book.new)) }
{
    if !immediate {
        book.reserve(incoming.locate, incoming.side, incoming.price)?;
    }
    let terms = Terms {
        locate: incoming.locate,
        side: incoming.side,
        price: incoming.price,
    };
    book.prepare_walk(&terms, incoming.shares, incoming.minimum);
    plan_into(fills, book, incoming)
}

// The plan of an order that is accepted.
#[inline(always)]
fn plan_enter<B: Book>(
    fills: &mut Vec<Fill>,
    book: &mut B,
    effect: &AcceptedEnter,
) -> Result<u32, NoMemory>
    ensures orders { B.orders book.new ≡ B.orders book.old }
    ensures reserved { OnOk result (is_immediate effect.now.enter.time_in_force ≡ false
        → B.reserved book.new ≡ Some (terms_of_enter effect.now)) }
    ensures executions { IfOk result (λ left. AreFills
        (incoming_of_enter effect.now) (B.orders book.new) fills.new.items left) }
    ensures keys { OnOk result (KeysDiffer (B.orders book.new)) }
{
    let immediate = effect.enter.time_in_force == 0;
    plan_order(fills, book, &incoming_of(effect), immediate)
}

// The plan of an order that replaces another, which it does not meet.
#[inline(always)]
fn plan_replacement<B: Book>(
    fills: &mut Vec<Fill>,
    book: &mut B,
    effect: &Replacement,
) -> Result<u32, NoMemory>
    requires is_replacement { IsReplacement effect.now }
    requires old { order_of effect.now.old.key.0 (B.orders book.old) ≡ Some effect.now.old.order }
    ensures orders { B.orders book.new ≡ B.orders book.old }
    ensures reserved { OnOk result (is_immediate effect.now.replace.time_in_force ≡ false
        → B.reserved book.new ≡ Some (terms_of_replacement effect.now)) }
    ensures executions { IfOk result (λ left. AreFills (incoming_of_replacement effect.now)
        (without effect.now.old.key.0 (B.orders book.new)) fills.new.items left) }
{
    let immediate = effect.replace.time_in_force == 0;
    let left = plan_order(fills, book, &incoming_by(effect), immediate)?;
    Ok(left)
}

// The plan of no order.
fn no_plan(fills: &mut Vec<Fill>) -> u32
    ensures fills { fills.new.items ≡ [] }
    ensures left { result ≡ 0 }
{
    fills.clear();
    0
}

/// Writes the plan of an effect into this list, and reserves a slot for the token that it uses and one for the order
/// that may rest. After `NoMemory` the list holds some executions.
#[inline(always)]
pub fn plan_effect<B: Book>(
    fills: &mut Vec<Fill>,
    book: &mut B,
    tokens: &mut Tokens,
    effect: &Effect,
) -> Result<u32, NoMemory>
    requires range { IsInRange effect.now }
    requires about { IsAbout (B.orders book.old) effect.now }
    ensures orders { B.orders book.new ≡ B.orders book.old }
    ensures tokens { tokens.new.tokens ≡ tokens.old.tokens }
    ensures chains { tokens.new.chains ≡ tokens.old.chains }
    ensures token_keys { tokens.new.keys ≡ tokens.old.keys }
    ensures indices { IfOk result
        (λ left. HasReserved (B.orders book.new)
        (B.reserved book.new) tokens.new.reserved fills.new.items left effect.now) }
{
    match effect {
        Effect::Reject(effect) => {
            tokens.reserve(effect.member, &effect.token)?;
            Ok(no_plan(fills))
        }
        Effect::Accept(effect) => {
            tokens.reserve(effect.member, &effect.enter.token)?;
            plan_enter(fills, book, effect)
        }
        Effect::Fail(effect) => {
            tokens.reserve(effect.member, &effect.replacement)?;
            Ok(no_plan(fills))
        }
        Effect::Replace(effect) => {
            tokens.reserve(effect.member, &effect.replace.replacement_token)?;
            plan_replacement(fills, book, effect)
        }
        Effect::Nothing | Effect::Cancel(_) | Effect::End(_) | Effect::Halt(_) | Effect::Break(_) =>
            Ok(no_plan(fills)),
    }
}
