//! The effects that an event can have: one is chosen when an event is decided, and carried out by its commit.
ghost use Rattle.std.specs.Prelude.{◌≡◌};
ghost use Rattle.hx_market_core.specs.Effects.{replacement_order, IsInRange};
ghost use Rattle.hx_market_core.specs.Expiries.{end_of, over_until};
ghost use Rattle.hx_rules.specs.Replace.{is_one_display};

use hx_book::{Live, Order};
use hx_ouch::{Enter, Replace};
use hx_rules::{Match, Output, expiry_of, is_shown, life_of};
use hx_units::{Firm, MemberNo, Price, Side, Symbol, Token};

/// An Enter that is rejected.
#[derive(Clone, Copy, Debug)]
pub struct RejectedEnter {
    /// The member whose message it is.
    pub member: MemberNo,
    /// When it came, in nanoseconds since midnight.
    pub time: u64,
    /// The token of the order.
    pub token: Token,
    /// The reason, by its letter (OUCH 4.2, Rejected Order: Reason).
    pub letter: u8,
}

/// An Enter that is accepted.
#[derive(Clone, Copy, Debug)]
pub struct AcceptedEnter {
    /// The member whose message it is.
    pub member: MemberNo,
    /// When it came, in nanoseconds since midnight.
    pub time: u64,
    /// The message.
    pub enter: Enter,
    /// The index of the stock in the setup, from 1.
    pub locate: u16,
    /// The side of its letter.
    pub side: Side,
    /// Its price, as the book has it.
    pub price: Price,
    /// The firm that it is for.
    pub firm: Firm,
}

/// A Replace that fails.
#[derive(Clone, Copy, Debug)]
pub struct FailedReplace {
    /// The member whose message it is.
    pub member: MemberNo,
    /// When it came, in nanoseconds since midnight.
    pub time: u64,
    /// The token of the order that is cancelled.
    pub existing: Token,
    /// The token that is used.
    pub replacement: Token,
    /// The order that is cancelled.
    pub old: Live,
}

/// A Replace that replaces.
#[derive(Clone, Copy, Debug)]
pub struct Replacement {
    /// The member whose message it is.
    pub member: MemberNo,
    /// When it came, in nanoseconds since midnight.
    pub time: u64,
    /// The message.
    pub replace: Replace,
    /// Its price, as the book has it.
    pub price: Price,
    /// The stock of the old order.
    pub stock: Symbol,
    /// The shares that its chain has executed.
    pub executed: u32,
    /// The old order, under its key.
    pub old: Live,
}

/// A Cancel that takes shares off.
#[derive(Clone, Copy, Debug)]
pub struct Reduction {
    /// The member whose message it is.
    pub member: MemberNo,
    /// When it came, in nanoseconds since midnight.
    pub time: u64,
    /// The token of the order.
    pub token: Token,
    /// How many open shares are taken off.
    pub by: u32,
    /// The order as it was, under its key.
    pub old: Live,
}

/// Which orders end.
#[derive(Clone, Copy, Debug)]
pub enum Due {
    /// Those in seconds whose time has come.
    Over,
    /// Those that this code of the hours ends.
    ByCode(u8),
}

/// Orders that end, and all of their output.
#[derive(Drop)]
pub struct Expiry {
    /// When they end, in nanoseconds since midnight.
    pub time: u64,
    /// Which of the live orders.
    pub due: Due,
    /// How many of the hours codes are past then.
    pub phase: u8,
    /// The orders that end, the earlier ones first.
    pub orders: Vec<Live>,
    /// The output.
    pub output: Output,
}

/// A stock that is halted, or that trades again.
#[derive(Clone, Copy, Debug)]
pub struct StateChange {
    /// When it is, in nanoseconds since midnight.
    pub time: u64,
    /// The index of the stock in the setup, from 1.
    pub locate: u16,
    /// The stock.
    pub stock: Symbol,
    /// `H` halted, `T` trading (ITCH 5.0, Stock Trading Action: Trading State).
    pub state: u8,
    /// Why.
    pub reason: [u8; 4],
}

/// An execution that is broken.
#[derive(Clone, Copy, Debug)]
pub struct BrokenMatch {
    /// When it is, in nanoseconds since midnight.
    pub time: u64,
    /// Its match number.
    pub number: u64,
    /// The execution as it was.
    pub execution: Match,
}

/// What an event does.
#[derive(Drop)]
pub enum Effect {
    /// No more than that it is recorded.
    Nothing,
    /// A token is used, and a reply goes out.
    Reject(RejectedEnter),
    /// An order arrives.
    Accept(AcceptedEnter),
    /// A token is used, and an order cancelled.
    Fail(FailedReplace),
    /// An order arrives in place of another.
    Replace(Replacement),
    /// An order has fewer shares, or is gone.
    Cancel(Reduction),
    /// Orders end.
    End(Expiry),
    /// A stock is halted, or trades again.
    Halt(StateChange),
    /// An execution is broken.
    Break(BrokenMatch),
}

/// Whether one message of the feed reports old and new, if nothing trades.
pub fn is_one_display(effect: &Replacement) -> bool
    ensures { result ≡ is_one_display effect.now.old.order (replacement_order 0 effect.now) }
{
    let old = &effect.old.order;
    old.shown
        && is_shown(effect.replace.display, effect.replace.time_in_force)
        && old.display == effect.replace.display
}

/// When the order of an effect ends, if that is a time.
pub fn end_of(effect: &Effect) -> Option<u64>
    requires { IsInRange effect.now }
    ensures { result ≡ end_of effect.now }
{
    match effect {
        Effect::Accept(accepted) => {
            expiry_of(life_of(accepted.time, accepted.enter.time_in_force))
        }
        Effect::Replace(replacement) => {
            let life = life_of(replacement.time, replacement.replace.time_in_force);
            expiry_of(life)
        }
        Effect::Nothing
        | Effect::Reject(_)
        | Effect::Fail(_)
        | Effect::Cancel(_)
        | Effect::End(_)
        | Effect::Halt(_)
        | Effect::Break(_) => None,
    }
}

/// Until when an effect ends all orders that are over, if it is a tick's.
pub fn over_until(effect: &Effect) -> Option<u64>
    ensures { result ≡ over_until effect.now }
{
    match effect {
        Effect::End(ending) => match ending.due {
            Due::Over => Some(ending.time),
            Due::ByCode(_) => None,
        },
        Effect::Nothing
        | Effect::Reject(_)
        | Effect::Accept(_)
        | Effect::Fail(_)
        | Effect::Replace(_)
        | Effect::Cancel(_)
        | Effect::Halt(_)
        | Effect::Break(_) => None,
    }
}
