//! Replies to a member, written as bytes.
ghost use Rattle.std.specs.Prelude.{◌≡◌, ◌<◌, ◌^◌};
ghost use Rattle.hx_ouch.specs.Outbound.{outbound_bytes, IsOutbound, system_event_bytes, accepted_bytes, replaced_bytes, canceled_bytes, executed_bytes, rejected_bytes, broken_trade_bytes, IsSystemEvent, IsAccepted, IsReplaced, IsCanceled, IsExecuted, IsRejected, IsBrokenTrade};

use super::{
    Accepted, BrokenTrade, Canceled, Executed, Outbound, Rejected, Replaced, SystemEvent, kinds,
};
use arrayvec::ArrayVec;
use hx_units::fields::{put, u32_bytes, u64_bytes};

// The bytes of a message, whose fields fit into their slots.
pub fn write(message: &Outbound) -> ArrayVec<u8, 80>
    ensures bytes { result.items ≡ outbound_bytes message.now }
    ensures fits { IsOutbound message.now }
{
    match message {
        Outbound::SystemEvent(m) => write_system_event(*m),
        Outbound::Accepted(m) => write_accepted(*m),
        Outbound::Replaced(m) => write_replaced(*m),
        Outbound::Canceled(m) => write_canceled(*m),
        Outbound::Executed(m) => write_executed(*m),
        Outbound::Rejected(m) => write_rejected(*m),
        Outbound::BrokenTrade(m) => write_broken_trade(*m),
    }
}

fn write_system_event(m: SystemEvent) -> ArrayVec<u8, 80>
    ensures bytes { result.items ≡ system_event_bytes m }
    ensures fits { IsSystemEvent m }
{
    let mut out = ArrayVec::new();
    out.push(kinds::SYSTEM_EVENT);
    put(&mut out, &u64_bytes(m.time));
    out.push(m.event_code);
    out
}

fn write_accepted(m: Accepted) -> ArrayVec<u8, 80>
    ensures bytes { result.items ≡ accepted_bytes m }
    ensures fits { IsAccepted m }
{
    let mut out = ArrayVec::new();
    out.push(kinds::ACCEPTED);
    put(&mut out, &u64_bytes(m.time));
    put(&mut out, &m.token.0);
    out.push(m.side);
    put(&mut out, &u32_bytes(m.shares));
    put(&mut out, &m.stock.0);
    put(&mut out, &u32_bytes(m.price));
    put(&mut out, &u32_bytes(m.time_in_force));
    put(&mut out, &m.firm.0);
    out.push(m.display);
    put(&mut out, &u64_bytes(m.reference));
    out.push(m.capacity);
    out.push(m.intermarket_sweep);
    put(&mut out, &u32_bytes(m.minimum_quantity));
    out.push(m.cross_type);
    out.push(m.order_state);
    out.push(m.bbo_weight);
    out
}

fn write_replaced(m: Replaced) -> ArrayVec<u8, 80>
    ensures bytes { result.items ≡ replaced_bytes m }
    ensures fits { IsReplaced m }
{
    let mut out = ArrayVec::new();
    out.push(kinds::REPLACED);
    put(&mut out, &u64_bytes(m.time));
    put(&mut out, &m.replacement_token.0);
    out.push(m.side);
    put(&mut out, &u32_bytes(m.shares));
    put(&mut out, &m.stock.0);
    put(&mut out, &u32_bytes(m.price));
    put(&mut out, &u32_bytes(m.time_in_force));
    put(&mut out, &m.firm.0);
    out.push(m.display);
    put(&mut out, &u64_bytes(m.reference));
    out.push(m.capacity);
    out.push(m.intermarket_sweep);
    put(&mut out, &u32_bytes(m.minimum_quantity));
    out.push(m.cross_type);
    out.push(m.order_state);
    put(&mut out, &m.previous_token.0);
    out.push(m.bbo_weight);
    out
}

fn write_canceled(m: Canceled) -> ArrayVec<u8, 80>
    ensures bytes { result.items ≡ canceled_bytes m }
    ensures fits { IsCanceled m }
{
    let mut out = ArrayVec::new();
    out.push(kinds::CANCELED);
    put(&mut out, &u64_bytes(m.time));
    put(&mut out, &m.token.0);
    put(&mut out, &u32_bytes(m.shares));
    out.push(m.reason);
    out
}

fn write_executed(m: Executed) -> ArrayVec<u8, 80>
    ensures bytes { result.items ≡ executed_bytes m }
    ensures fits { IsExecuted m }
{
    let mut out = ArrayVec::new();
    out.push(kinds::EXECUTED);
    put(&mut out, &u64_bytes(m.time));
    put(&mut out, &m.token.0);
    put(&mut out, &u32_bytes(m.shares));
    put(&mut out, &u32_bytes(m.price));
    out.push(m.liquidity_flag);
    put(&mut out, &u64_bytes(m.match_number));
    out
}

fn write_rejected(m: Rejected) -> ArrayVec<u8, 80>
    ensures bytes { result.items ≡ rejected_bytes m }
    ensures fits { IsRejected m }
{
    let mut out = ArrayVec::new();
    out.push(kinds::REJECTED);
    put(&mut out, &u64_bytes(m.time));
    put(&mut out, &m.token.0);
    out.push(m.reason);
    out
}

fn write_broken_trade(m: BrokenTrade) -> ArrayVec<u8, 80>
    ensures bytes { result.items ≡ broken_trade_bytes m }
    ensures fits { IsBrokenTrade m }
{
    let mut out = ArrayVec::new();
    out.push(kinds::BROKEN_TRADE);
    put(&mut out, &u64_bytes(m.time));
    put(&mut out, &m.token.0);
    put(&mut out, &u64_bytes(m.match_number));
    out.push(m.reason);
    out
}
