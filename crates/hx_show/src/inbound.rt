//! Messages from a member, in words (OUCH 4.2, Inbound Messages).
ghost use Rattle.std.specs.Prelude.{◌≡◌, ◌++◌, OnOk};
ghost use Rattle.hx_show.specs.Inbound.{enter_parts, replace_parts, cancel_parts, inbound_message};

use crate::label::Label;
use crate::part::{Part, put_message};
use hx_ouch::{Cancel, Enter, Inbound, Replace};
use std::alloc::AllocError;

// The fields of an Enter Order.
fn enter_parts(m: Enter) -> [Part; 13]
    ensures { result ≡ enter_parts m }
{
    [
        Part::Token(Label::Token, m.token),
        Part::Letter(Label::Side, m.side),
        Part::Shares(m.shares),
        Part::Stock(m.stock),
        Part::Price(m.price),
        Part::Display(m.display, m.time_in_force),
        Part::TimeInForce(m.time_in_force),
        Part::Counted(Label::Minimum, m.minimum_quantity),
        Part::Firm(m.firm),
        Part::Letter(Label::Capacity, m.capacity),
        Part::Letter(Label::Sweep, m.intermarket_sweep),
        Part::Letter(Label::CrossType, m.cross_type),
        Part::Letter(Label::CustomerType, m.customer_type),
    ]
}

// The fields of a Replace Order; its shares are those of the whole chain.
fn replace_parts(m: Replace) -> [Part; 8]
    ensures { result ≡ replace_parts m }
{
    [
        Part::Token(Label::ExistingToken, m.existing_token),
        Part::Token(Label::ReplacementToken, m.replacement_token),
        Part::Counted(Label::InAll, m.shares),
        Part::Price(m.price),
        Part::Display(m.display, m.time_in_force),
        Part::TimeInForce(m.time_in_force),
        Part::Counted(Label::Minimum, m.minimum_quantity),
        Part::Letter(Label::Sweep, m.intermarket_sweep),
    ]
}

// The fields of a Cancel Order; its shares are the new size of the whole chain.
fn cancel_parts(m: Cancel) -> [Part; 2]
    ensures { result ≡ cancel_parts m }
{
    [
        Part::Token(Label::Token, m.token),
        Part::Counted(Label::InAll, m.shares),
    ]
}

/// Appends a message from a member.
pub fn put_inbound(out: &mut Vec<u8>, message: &Inbound) -> Result<(), AllocError>
    ensures { OnOk result (out.new.items ≡ out.old.items ++ inbound_message message.now) }
{
    match message {
        Inbound::Enter(m) => put_message(out, "Enter Order", &enter_parts(*m)),
        Inbound::Replace(m) => put_message(out, "Replace Order", &replace_parts(*m)),
        Inbound::Cancel(m) => put_message(out, "Cancel Order", &cancel_parts(*m)),
    }
}
