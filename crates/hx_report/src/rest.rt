//! Shares that rest hidden.
ghost use Rattle.std.specs.Prelude.{◌≡◌, ◌++◌, OnOk};
ghost use Rattle.hx_market.specs.Steps.{replies_among};
ghost use Rattle.hx_report.specs.Counts.{hidden_if, hidden_in, taken_off, left_by};
ghost use Rattle.hx_report.specs.Noted.{rests_among};

use hx_ouch::Outbound;
use hx_units::{MemberNo, NoMemory, Token};

/// Shares of a hidden order that rest once the event is over by which it came.
#[derive(Clone, Copy, Debug, Drop)]
pub(crate) struct Rested {
    pub(crate) member: MemberNo,
    pub(crate) shares: u32,
}

// An order that is accepted, or replaces another, and is not displayed: its token, and its shares.
#[derive(Clone, Copy, Drop)]
struct Hidden {
    token: Token,
    shares: u32,
}

// The display of an order that is not shown.
const NON_DISPLAY: u8 = b'N';

// An order of this token and of `shares` shares, if it is not shown.
fn hidden_if(display: u8, token: Token, shares: u32) -> Option<Hidden>
    ensures { result ≡ hidden_if display token shares }
{
    if display == NON_DISPLAY {
        Some(Hidden { token, shares })
    } else {
        None
    }
}

// The hidden order whose arrival a reply reports.
fn hidden_in(reply: &Outbound) -> Option<Hidden>
    ensures { result ≡ hidden_in reply.now }
{
    match reply {
        Outbound::Accepted(order) => hidden_if(order.display, order.token, order.shares),
        Outbound::Replaced(order) => hidden_if(
            order.display,
            order.replacement_token,
            order.shares,
        ),
        _ => None,
    }
}

// The shares that a reply takes off the order of a token.
fn taken_off(token: &Token, reply: &Outbound) -> u32
    ensures { result ≡ taken_off token.now reply.now }
{
    match reply {
        Outbound::Executed(executed) if executed.token == *token => executed.shares,
        Outbound::Canceled(canceled) if canceled.token == *token => canceled.shares,
        _ => 0,
    }
}

// What the replies of an event leave of a member's order.
fn left_by(member: MemberNo, hidden: &Hidden, replies: &[(MemberNo, Outbound)]) -> u32
    ensures { result ≡ left_by hidden.now (replies_among member replies.now) }
{
    let mut left = hidden.shares;
    for (other, reply) in replies {
        if *other == member {
            left = left.saturating_sub(taken_off(&hidden.token, reply));
        }
    }
    left
}

/// Notes the shares that rest hidden by an event of these replies.
pub(crate) fn note_rested(
    rested: &mut Vec<Rested>,
    replies: &[(MemberNo, Outbound)],
) -> Result<(), NoMemory>
    ensures { OnOk result (rested.new.items
        ≡ rested.old.items ++ rests_among replies.now replies.now) }
{
    for (member, reply) in replies {
        if let Some(hidden) = hidden_in(reply) {
            let shares = left_by(*member, &hidden, replies);
            rested.push(Rested {
                member: *member,
                shares,
            })?;
        }
    }
    Ok(())
}
