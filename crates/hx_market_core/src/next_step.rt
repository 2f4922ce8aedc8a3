//! What holds between prepare and commit: the next step, as it was planned, with room for its output.
ghost use Rattle.std.specs.Prelude.{◌≡◌, ◌<◌, ◌^◌, [], OnOk};
ghost use Rattle.hx_market_core.specs.Room.{HasRoom, IsEmpty};

use crate::effect::Effect;
use hx_match::Fill;
use hx_rules::Output;
use hx_units::{MemberNo, NoMemory};
use std::alloc::Global;
use std::mem::replace;

/// What was prepared of an event, in the memory where its commit works on it: no part of it moves in between. Its lists
/// are those of the step before, and take memory only if they have to grow.
#[derive(Drop)]
pub struct NextStep {
    /// The number under which the event is recorded.
    pub number: u16,
    /// What the event does.
    pub effect: Effect,
    /// The executions of an order that arrives.
    pub fills: Vec<Fill>,
    /// The shares that they leave.
    pub left: u32,
    /// Room for the output.
    pub out: Output,
    /// A list for the members of the replies.
    pub members: Vec<MemberNo>,
}

impl NextStep {
    /// Nothing.
    pub fn nothing(alloc: Global) -> NextStep {
        NextStep {
            number: 0,
            effect: Effect::Nothing,
            fills: Vec::new(alloc),
            left: 0,
            out: no_output(alloc),
            members: Vec::new(alloc),
        }
    }
}

/// Lists of no messages.
pub fn no_output(alloc: Global) -> Output {
    Output {
        feed: Vec::new(alloc),
        replies: Vec::new(alloc),
    }
}

/// Takes a list out, and empties it.
pub fn take_empty<T: Copy>(alloc: Global, list: &mut Vec<T>) -> Vec<T>
    ensures { result.items ≡ [] }
{
    let mut taken = replace(list, Vec::new(alloc));
    taken.clear();
    taken
}

/// Empties the lists of messages.
pub fn empty(out: &mut Output)
    ensures { IsEmpty out.new }
{
    out.feed.clear();
    out.replies.clear();
}

/// Makes room for the output of an effect with `fills` fills, after what is in the lists.
#[inline(always)]
pub fn make_room(out: &mut Output, effect: &Effect, fills: usize) -> Result<(), NoMemory>
    requires { fills < 2 ^ 60 }
    ensures room { OnOk result (HasRoom effect.now fills out.new) }
    ensures feed { out.new.feed.items ≡ out.old.feed.items }
    ensures replies { out.new.replies.items ≡ out.old.replies.items }
{
    let (feed, replies) = match effect {
        Effect::End(ending) => (ending.output.feed.len(), ending.output.replies.len()),
        Effect::Nothing
        | Effect::Reject(_)
        | Effect::Accept(_)
        | Effect::Fail(_)
        | Effect::Replace(_)
        | Effect::Cancel(_)
        | Effect::Halt(_)
        | Effect::Break(_) => (fills + 2, 2 * fills + 2),
    };
    out.feed.reserve(feed)?;
    out.replies.reserve(replies)?;
    Ok(())
}
