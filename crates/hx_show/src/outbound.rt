//! Replies to a member, in words (OUCH 4.2, Outbound Messages).
ghost use Rattle.std.specs.Prelude.{◌≡◌, ◌++◌, OnOk};
ghost use Rattle.hx_show.specs.Outbound.{system_event_parts, accepted_parts, replaced_parts, canceled_parts, executed_parts, rejected_parts, broken_trade_parts, outbound_message, outbound_time};
ghost use Rattle.hx_ouch.specs.declared.outbound.Outbound.TheVariants as variant;

use crate::label::Label;
use crate::part::{Part, put_message};
use hx_ouch::{
    Accepted, BrokenTrade, Canceled, Executed, Outbound, Rejected, Replaced, SystemEvent,
};
use std::alloc::AllocError;

fn system_event_parts(m: SystemEvent) -> [Part; 1]
    ensures { result ≡ system_event_parts m }
{
    [Part::Letter(Label::DayEvent, m.event_code)]
}

// All fields of an Accepted but its BBO weight.
fn accepted_parts(m: Accepted) -> [Part; 14]
    ensures { result ≡ accepted_parts m }
{
    [
        Part::Token(Label::Token, m.token),
        Part::Letter(Label::Side, m.side),
        Part::Shares(m.shares),
        Part::Stock(m.stock),
        Part::Price(m.price),
        Part::Display(m.display, m.time_in_force),
        Part::TimeInForce(m.time_in_force),
        Part::Counted(Label::Minimum, m.minimum_quantity),
        Part::Firm(m.firm),
        Part::Number(Label::Reference, m.reference),
        Part::Letter(Label::Capacity, m.capacity),
        Part::Letter(Label::Sweep, m.intermarket_sweep),
        Part::Letter(Label::CrossType, m.cross_type),
        Part::Letter(Label::OrderState, m.order_state),
    ]
}

// All fields of a Replaced but its BBO weight.
fn replaced_parts(m: Replaced) -> [Part; 15]
    ensures { result ≡ replaced_parts m }
{
    [
        Part::Token(Label::PreviousToken, m.previous_token),
        Part::Token(Label::ReplacementToken, m.replacement_token),
        Part::Letter(Label::Side, m.side),
        Part::Shares(m.shares),
        Part::Stock(m.stock),
        Part::Price(m.price),
        Part::Display(m.display, m.time_in_force),
        Part::TimeInForce(m.time_in_force),
        Part::Counted(Label::Minimum, m.minimum_quantity),
        Part::Firm(m.firm),
        Part::Number(Label::Reference, m.reference),
        Part::Letter(Label::Capacity, m.capacity),
        Part::Letter(Label::Sweep, m.intermarket_sweep),
        Part::Letter(Label::CrossType, m.cross_type),
        Part::Letter(Label::OrderState, m.order_state),
    ]
}

fn canceled_parts(m: Canceled) -> [Part; 3]
    ensures { result ≡ canceled_parts m }
{
    [
        Part::Token(Label::Token, m.token),
        Part::Shares(m.shares),
        Part::Letter(Label::CancelReason, m.reason),
    ]
}

fn executed_parts(m: Executed) -> [Part; 5]
    ensures { result ≡ executed_parts m }
{
    [
        Part::Token(Label::Token, m.token),
        Part::Shares(m.shares),
        Part::Price(m.price),
        Part::Letter(Label::Liquidity, m.liquidity_flag),
        Part::Number(Label::MatchNumber, m.match_number),
    ]
}

fn rejected_parts(m: Rejected) -> [Part; 2]
    ensures { result ≡ rejected_parts m }
{
    [
        Part::Token(Label::Token, m.token),
        Part::Letter(Label::RejectReason, m.reason),
    ]
}

fn broken_trade_parts(m: BrokenTrade) -> [Part; 3]
    ensures { result ≡ broken_trade_parts m }
{
    [
        Part::Token(Label::Token, m.token),
        Part::Number(Label::MatchNumber, m.match_number),
        Part::Letter(Label::BreakReason, m.reason),
    ]
}

fn put_accepted(out: &mut Vec<u8>, m: &Accepted) -> Result<(), AllocError>
    ensures { OnOk result
        (out.new.items ≡ out.old.items ++ outbound_message (variant.Accepted m.now)) }
{
    put_message(out, "Accepted", &accepted_parts(*m))
}

fn put_replaced(out: &mut Vec<u8>, m: &Replaced) -> Result<(), AllocError>
    ensures { OnOk result
        (out.new.items ≡ out.old.items ++ outbound_message (variant.Replaced m.now)) }
{
    put_message(out, "Replaced", &replaced_parts(*m))
}

/// Appends a reply, by its name in the standard.
pub fn put_outbound(out: &mut Vec<u8>, message: &Outbound) -> Result<(), AllocError>
    ensures { OnOk result (out.new.items ≡ out.old.items ++ outbound_message message.now) }
{
    match message {
        Outbound::SystemEvent(m) => put_message(out, "System Event", &system_event_parts(*m)),
        Outbound::Accepted(m) => put_accepted(out, m),
        Outbound::Replaced(m) => put_replaced(out, m),
        Outbound::Canceled(m) => put_message(out, "Canceled", &canceled_parts(*m)),
        Outbound::Executed(m) => put_message(out, "Executed", &executed_parts(*m)),
        Outbound::Rejected(m) => put_message(out, "Rejected", &rejected_parts(*m)),
        Outbound::BrokenTrade(m) => put_message(out, "Broken Trade", &broken_trade_parts(*m)),
    }
}

/// When a reply was sent, in nanoseconds since midnight.
pub fn outbound_time(message: &Outbound) -> u64
    ensures { result ≡ outbound_time message.now }
{
    match message {
        Outbound::SystemEvent(m) => m.time,
        Outbound::Accepted(m) => m.time,
        Outbound::Replaced(m) => m.time,
        Outbound::Canceled(m) => m.time,
        Outbound::Executed(m) => m.time,
        Outbound::Rejected(m) => m.time,
        Outbound::BrokenTrade(m) => m.time,
    }
}
