//! Replies in words.

use super::word::Words;
use hx_ouch::{
    Accepted, BrokenTrade, Canceled, Executed, Inbound, Outbound, Rejected, Replaced, SystemEvent,
};
use hx_units::{Firm, Symbol, Token};
use std::test::Fail;

/// What is answered: to which member, and the event.
#[derive(Clone, Copy)]
pub struct Answered {
    /// The member's number.
    pub member: u64,
    /// The event's time, in nanoseconds since midnight.
    pub time: u64,
    /// Its message, if it is one.
    pub message: Option<Inbound>,
}

/// The reply that these words are.
///
/// - `accepted REFERENCE`, with the fields of the Enter above it
/// - `replaced SIDE SHARES REFERENCE`, with those of the Replace above it, and then `stock NAME`, `firm NAME`, `minimum
///   SHARES` if they are not the usual ones
/// - `canceled TOKEN SHARES REASON`: `user`, `immediate`, `timeout`
/// - `executed TOKEN SHARES PRICE FLAG match NUMBER`: `added`, `hidden`, `removed`
/// - `rejected LETTER`, of the Enter above it; `system CODE`; `broken TOKEN match NUMBER`
pub fn reply(words: &mut Words, to: &Answered) -> Result<Outbound, Fail> {
    match words.next() {
        "accepted" => accepted(words, to),
        "replaced" => replaced(words, to),
        "canceled" => canceled(words, to),
        "executed" => executed(words, to),
        "rejected" => rejected(words, to),
        "broken" => broken(words, to),
        "system" => Ok(Outbound::SystemEvent(SystemEvent {
            time: to.time,
            event_code: words.letter()?,
        })),
        _ => Err("no such reply".into()),
    }
}

// The firm of a member.
fn firm_of(member: u64) -> Firm {
    match member {
        1 => Firm(*b"FMA1"),
        2 => Firm(*b"FMB2"),
        _ => Firm(*b"FMC3"),
    }
}

fn accepted(words: &mut Words, to: &Answered) -> Result<Outbound, Fail> {
    let Some(Inbound::Enter(enter)) = to.message else {
        return Err("no Enter is accepted".into());
    };
    let is_blank = enter.firm == Firm(*b"    ");
    Ok(Outbound::Accepted(Accepted {
        time: to.time,
        token: enter.token,
        side: enter.side,
        shares: enter.shares,
        stock: enter.stock,
        price: enter.price,
        time_in_force: enter.time_in_force,
        firm: if is_blank {
            firm_of(to.member)
        } else {
            enter.firm
        },
        display: enter.display,
        reference: words.reference()?,
        capacity: enter.capacity,
        intermarket_sweep: enter.intermarket_sweep,
        minimum_quantity: enter.minimum_quantity,
        cross_type: enter.cross_type,
        order_state: b'L',
        bbo_weight: b' ',
    }))
}

fn replaced(words: &mut Words, to: &Answered) -> Result<Outbound, Fail> {
    let Some(Inbound::Replace(replace)) = to.message else {
        return Err("nothing is replaced".into());
    };
    let mut replaced = Replaced {
        time: to.time,
        replacement_token: replace.replacement_token,
        side: words.side()?,
        shares: words.shares()?,
        stock: Symbol(*b"ABCD    "),
        price: replace.price,
        time_in_force: replace.time_in_force,
        firm: firm_of(to.member),
        display: replace.display,
        reference: words.reference()?,
        capacity: b'O',
        intermarket_sweep: replace.intermarket_sweep,
        minimum_quantity: 0,
        cross_type: b'N',
        order_state: b'L',
        previous_token: replace.existing_token,
        bbo_weight: b' ',
    };
    for _ in 0..3 {
        match words.next() {
            "stock" => replaced.stock = Symbol(words.name()),
            "firm" => replaced.firm = Firm(words.name()),
            "minimum" => replaced.minimum_quantity = words.shares()?,
            _ => break,
        }
    }
    Ok(Outbound::Replaced(replaced))
}

fn canceled(words: &mut Words, to: &Answered) -> Result<Outbound, Fail> {
    Ok(Outbound::Canceled(Canceled {
        time: to.time,
        token: Token(words.name()),
        shares: words.shares()?,
        reason: match words.next() {
            "user" => b'U',
            "immediate" => b'I',
            "timeout" => b'T',
            _ => return Err("no such reason".into()),
        },
    }))
}

fn executed(words: &mut Words, to: &Answered) -> Result<Outbound, Fail> {
    let token = Token(words.name());
    let shares = words.shares()?;
    let price = words.price()?;
    let liquidity_flag = match words.next() {
        "added" => b'A',
        "hidden" => b'J',
        "removed" => b'R',
        _ => return Err("no such flag".into()),
    };
    let _match = words.next();
    Ok(Outbound::Executed(Executed {
        time: to.time,
        token,
        shares,
        price,
        liquidity_flag,
        match_number: words.number()?,
    }))
}

fn rejected(words: &mut Words, to: &Answered) -> Result<Outbound, Fail> {
    let Some(Inbound::Enter(enter)) = to.message else {
        return Err("no Enter is rejected".into());
    };
    Ok(Outbound::Rejected(Rejected {
        time: to.time,
        token: enter.token,
        reason: words.letter()?,
    }))
}

fn broken(words: &mut Words, to: &Answered) -> Result<Outbound, Fail> {
    let token = Token(words.name());
    let _match = words.next();
    Ok(Outbound::BrokenTrade(BrokenTrade {
        time: to.time,
        token,
        match_number: words.number()?,
        reason: b'S',
    }))
}
