//! Messages of a member, written as bytes.
ghost use Rattle.std.specs.Prelude.{◌≡◌, ◌<◌, ◌^◌};
ghost use Rattle.hx_ouch.specs.Inbound.{inbound_bytes, IsInbound, enter_bytes, replace_bytes, cancel_bytes, IsEnter, IsReplace, IsCancel};

use super::{Cancel, Enter, Inbound, Replace, kinds};
use arrayvec::ArrayVec;
use hx_units::fields::{put, u32_bytes};

// The bytes of a message, whose fields fit into their slots.
pub fn write(message: &Inbound) -> ArrayVec<u8, 49>
    ensures bytes { result.items ≡ inbound_bytes message.now }
    ensures fits { IsInbound message.now }
{
    match message {
        Inbound::Enter(m) => write_enter(*m),
        Inbound::Replace(m) => write_replace(*m),
        Inbound::Cancel(m) => write_cancel(*m),
    }
}

fn write_enter(m: Enter) -> ArrayVec<u8, 49>
    ensures bytes { result.items ≡ enter_bytes m }
    ensures fits { IsEnter m }
{
    let mut out = ArrayVec::new();
    out.push(kinds::ENTER_ORDER);
    put(&mut out, &m.token.0);
    out.push(m.side);
    put(&mut out, &u32_bytes(m.shares));
    put(&mut out, &m.stock.0);
    put(&mut out, &u32_bytes(m.price));
    put(&mut out, &u32_bytes(m.time_in_force));
    put(&mut out, &m.firm.0);
    out.push(m.display);
    out.push(m.capacity);
    out.push(m.intermarket_sweep);
    put(&mut out, &u32_bytes(m.minimum_quantity));
    out.push(m.cross_type);
    out.push(m.customer_type);
    out
}

fn write_replace(m: Replace) -> ArrayVec<u8, 49>
    ensures bytes { result.items ≡ replace_bytes m }
    ensures fits { IsReplace m }
{
    let mut out = ArrayVec::new();
    out.push(kinds::REPLACE_ORDER);
    put(&mut out, &m.existing_token.0);
    put(&mut out, &m.replacement_token.0);
    put(&mut out, &u32_bytes(m.shares));
    put(&mut out, &u32_bytes(m.price));
    put(&mut out, &u32_bytes(m.time_in_force));
    out.push(m.display);
    out.push(m.intermarket_sweep);
    put(&mut out, &u32_bytes(m.minimum_quantity));
    out
}

fn write_cancel(m: Cancel) -> ArrayVec<u8, 49>
    ensures bytes { result.items ≡ cancel_bytes m }
    ensures fits { IsCancel m }
{
    let mut out = ArrayVec::new();
    out.push(kinds::CANCEL_ORDER);
    put(&mut out, &m.token.0);
    put(&mut out, &u32_bytes(m.shares));
    out
}
