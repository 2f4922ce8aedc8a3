//! To prepare: the output of an effect, counted before it is made: the number of messages of the feed, and the members
//! of its replies.
ghost use Rattle.std.specs.Prelude.{◌≡◌, ◌<◌, ◌^◌, [], ◌∷◌, IfOk, length, map};
ghost use Rattle.hx_market_core.specs.Prepared.{effect_feed_count, effect_members, arrival_members, arrival_count, one_if, replaced_count};

use crate::effect::{Effect, Replacement, is_one_display};
use hx_book::Book;
use hx_match::Fill;
use hx_ouch::Outbound;
use hx_rules::{Match, is_shown};
use hx_units::{MemberNo, NoMemory};

// How many messages of the feed an order gives that arrives.
fn arrival_count(shown: bool, fills: &[Fill], left: u32) -> u64
    requires { length fills.now < 2 ^ 60 }
    ensures { result ≡ arrival_count shown fills.now left }
{
    let fills = fills.len() as u64;
    if left > 0 && shown { fills + 1 } else { fills }
}

// How many an order gives that replaces another.
fn replaced_count(effect: &Replacement, fills: &[Fill], left: u32) -> u64
    requires { length fills.now < 2 ^ 60 }
    ensures { result ≡ replaced_count effect.now fills.now left }
{
    if is_one_display(effect) && fills.is_empty() {
        return 1;
    }
    let shown = is_shown(effect.replace.display, effect.replace.time_in_force);
    one_if(effect.old.order.shown) + arrival_count(shown, fills, left)
}

fn one_if(output: bool) -> u64
    ensures { result ≡ one_if output }
{
    if output { 1 } else { 0 }
}

/// How many messages of the feed an effect gives, whose order has these executions.
pub fn feed_count(effect: &Effect, fills: &[Fill], left: u32) -> u64
    requires { length fills.now < 2 ^ 60 }
    ensures { result ≡ effect_feed_count effect.now fills.now left }
{
    match effect {
        Effect::Nothing | Effect::Reject(_) => 0,
        Effect::Accept(effect) => {
            let shown = is_shown(effect.enter.display, effect.enter.time_in_force);
            arrival_count(shown, fills, left)
        }
        Effect::Fail(effect) => one_if(effect.old.order.shown),
        Effect::Replace(effect) => replaced_count(effect, fills, left),
        Effect::Cancel(effect) => one_if(effect.old.order.shown),
        Effect::End(effect) => effect.output.feed.len() as u64,
        Effect::Halt(_) | Effect::Break(_) => 1,
    }
}

// The members of the replies of an order that arrives, in order, in this buffer.
fn members_of<B: Book>(
    room: Vec<MemberNo>,
    book: &B,
    member: MemberNo,
    immediate: bool,
    fills: &[Fill],
    left: u32,
) -> Result<Vec<MemberNo>, NoMemory>
    requires room { room.items ≡ [] }
    requires few { length fills.now < 2 ^ 60 }
    ensures { IfOk result (λ members. members.items
        ≡ arrival_members member immediate
        (B.orders book.now) fills.now left) }
{
    let mut members = room;
    members.reserve(2 * fills.len() + 2)?;
    members.push_reserved(member);
    for fill in fills {
        let maker = match book.get(fill.key) {
            Some(order) => order.member,
            None => member,
        };
        members.push_reserved(maker);
        members.push_reserved(member);
    }
    if left > 0 && immediate {
        members.push_reserved(member);
    }
    Ok(members)
}

// The members of replies, in order, in this buffer.
fn output_members(
    room: Vec<MemberNo>,
    replies: &[(MemberNo, Outbound)],
) -> Result<Vec<MemberNo>, NoMemory>
    requires { room.items ≡ [] }
    ensures { IfOk result (λ members. members.items ≡ map (λ r. r.0) replies.now) }
{
    let mut members = room;
    for (member, _) in replies {
        members.push(*member)?;
    }
    Ok(members)
}

// One member, in this buffer.
fn one_member(room: Vec<MemberNo>, member: MemberNo) -> Result<Vec<MemberNo>, NoMemory>
    requires { room.items ≡ [] }
    ensures { IfOk result (λ members. members.items ≡ member ∷ []) }
{
    let mut members = room;
    members.push(member)?;
    Ok(members)
}

// Both sides of an execution, in this buffer.
fn both_sides(room: Vec<MemberNo>, execution: &Match) -> Result<Vec<MemberNo>, NoMemory>
    requires { room.items ≡ [] }
    ensures { IfOk result (λ members. members.items
        ≡ execution.now.maker ∷ execution.now.taker ∷ []) }
{
    let mut members = room;
    members.push(execution.maker)?;
    members.push(execution.taker)?;
    Ok(members)
}

/// The members of the replies of an effect, whose order has these executions, in order, in this buffer.
pub fn reply_members<B: Book>(
    room: Vec<MemberNo>,
    book: &B,
    effect: &Effect,
    fills: &[Fill],
    left: u32,
) -> Result<Vec<MemberNo>, NoMemory>
    requires room { room.items ≡ [] }
    requires few { length fills.now < 2 ^ 60 }
    ensures { IfOk result (λ members. members.items
        ≡ effect_members effect.now (B.orders book.now) fills.now left) }
{
    match effect {
        Effect::Nothing | Effect::Halt(_) => Ok(room),
        Effect::Reject(effect) => one_member(room, effect.member),
        Effect::Accept(effect) => {
            let immediate = effect.enter.time_in_force == 0;
            members_of(room, book, effect.member, immediate, fills, left)
        }
        Effect::Fail(effect) => one_member(room, effect.member),
        Effect::Replace(effect) => {
            let immediate = effect.replace.time_in_force == 0;
            members_of(room, book, effect.member, immediate, fills, left)
        }
        Effect::Cancel(effect) => one_member(room, effect.member),
        Effect::End(effect) => output_members(room, &effect.output.replies),
        Effect::Break(effect) => both_sides(room, &effect.execution),
    }
}
