//! Replies to a member, read from their bytes.
ghost use Rattle.std.specs.Prelude.{◌≡◌, length};
ghost use Rattle.hx_ouch.specs.Outbound.{outbound_of, system_event_of, accepted_of, replaced_of, canceled_of, executed_of, rejected_of, broken_trade_of};

use super::{
    Accepted, BrokenTrade, Canceled, Executed, Outbound, Rejected, Replaced, SystemEvent, kinds,
};
use hx_units::fields::{array_at, u32_at, u64_at};
use hx_units::{Firm, Symbol, Token};

// The message that the bytes are, by their type and length.
pub fn read(bytes: &[u8]) -> Option<Outbound>
    ensures { result ≡ outbound_of bytes.now }
{
    let (kind, size) = (*bytes.first()?, bytes.len());
    if size == 10 && kind == kinds::SYSTEM_EVENT {
        Some(Outbound::SystemEvent(read_system_event(bytes)))
    } else if size == 66 && kind == kinds::ACCEPTED {
        Some(Outbound::Accepted(read_accepted(bytes)))
    } else if size == 80 && kind == kinds::REPLACED {
        Some(Outbound::Replaced(read_replaced(bytes)))
    } else if size == 28 && kind == kinds::CANCELED {
        Some(Outbound::Canceled(read_canceled(bytes)))
    } else if size == 40 && kind == kinds::EXECUTED {
        Some(Outbound::Executed(read_executed(bytes)))
    } else if size == 24 && kind == kinds::REJECTED {
        Some(Outbound::Rejected(read_rejected(bytes)))
    } else if size == 32 && kind == kinds::BROKEN_TRADE {
        Some(Outbound::BrokenTrade(read_broken_trade(bytes)))
    } else {
        None
    }
}

fn read_system_event(bytes: &[u8]) -> SystemEvent
    requires { length bytes.now ≡ 10 }
    ensures { result ≡ system_event_of bytes.now }
{
    SystemEvent {
        time: u64_at(bytes, 1),
        event_code: bytes[9],
    }
}

fn read_accepted(bytes: &[u8]) -> Accepted
    requires { length bytes.now ≡ 66 }
    ensures { result ≡ accepted_of bytes.now }
{
    Accepted {
        time: u64_at(bytes, 1),
        token: Token(array_at(bytes, 9)),
        side: bytes[23],
        shares: u32_at(bytes, 24),
        stock: Symbol(array_at(bytes, 28)),
        price: u32_at(bytes, 36),
        time_in_force: u32_at(bytes, 40),
        firm: Firm(array_at(bytes, 44)),
        display: bytes[48],
        reference: u64_at(bytes, 49),
        capacity: bytes[57],
        intermarket_sweep: bytes[58],
        minimum_quantity: u32_at(bytes, 59),
        cross_type: bytes[63],
        order_state: bytes[64],
        bbo_weight: bytes[65],
    }
}

fn read_replaced(bytes: &[u8]) -> Replaced
    requires { length bytes.now ≡ 80 }
    ensures { result ≡ replaced_of bytes.now }
{
    Replaced {
        time: u64_at(bytes, 1),
        replacement_token: Token(array_at(bytes, 9)),
        side: bytes[23],
        shares: u32_at(bytes, 24),
        stock: Symbol(array_at(bytes, 28)),
        price: u32_at(bytes, 36),
        time_in_force: u32_at(bytes, 40),
        firm: Firm(array_at(bytes, 44)),
        display: bytes[48],
        reference: u64_at(bytes, 49),
        capacity: bytes[57],
        intermarket_sweep: bytes[58],
        minimum_quantity: u32_at(bytes, 59),
        cross_type: bytes[63],
        order_state: bytes[64],
        previous_token: Token(array_at(bytes, 65)),
        bbo_weight: bytes[79],
    }
}

fn read_canceled(bytes: &[u8]) -> Canceled
    requires { length bytes.now ≡ 28 }
    ensures { result ≡ canceled_of bytes.now }
{
    Canceled {
        time: u64_at(bytes, 1),
        token: Token(array_at(bytes, 9)),
        shares: u32_at(bytes, 23),
        reason: bytes[27],
    }
}

fn read_executed(bytes: &[u8]) -> Executed
    requires { length bytes.now ≡ 40 }
    ensures { result ≡ executed_of bytes.now }
{
    Executed {
        time: u64_at(bytes, 1),
        token: Token(array_at(bytes, 9)),
        shares: u32_at(bytes, 23),
        price: u32_at(bytes, 27),
        liquidity_flag: bytes[31],
        match_number: u64_at(bytes, 32),
    }
}

fn read_rejected(bytes: &[u8]) -> Rejected
    requires { length bytes.now ≡ 24 }
    ensures { result ≡ rejected_of bytes.now }
{
    Rejected {
        time: u64_at(bytes, 1),
        token: Token(array_at(bytes, 9)),
        reason: bytes[23],
    }
}

fn read_broken_trade(bytes: &[u8]) -> BrokenTrade
    requires { length bytes.now ≡ 32 }
    ensures { result ≡ broken_trade_of bytes.now }
{
    BrokenTrade {
        time: u64_at(bytes, 1),
        token: Token(array_at(bytes, 9)),
        match_number: u64_at(bytes, 23),
        reason: bytes[31],
    }
}
