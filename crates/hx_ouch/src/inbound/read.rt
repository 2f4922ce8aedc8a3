//! Messages of a member, read from their bytes.
ghost use Rattle.std.specs.Prelude.{◌≡◌, length};
ghost use Rattle.hx_ouch.specs.Inbound.{inbound_of, enter_of, replace_of, cancel_of};

use super::{Cancel, Enter, Inbound, Replace, kinds};
use hx_units::fields::{array_at, u32_at};
use hx_units::{Firm, Symbol, Token};

// The message that the bytes are, by their type and length.
pub fn read(bytes: &[u8]) -> Option<Inbound>
    ensures { result ≡ inbound_of bytes.now }
{
    let (kind, size) = (*bytes.first()?, bytes.len());
    if size == 49 && kind == kinds::ENTER_ORDER {
        Some(Inbound::Enter(read_enter(bytes)))
    } else if size == 47 && kind == kinds::REPLACE_ORDER {
        Some(Inbound::Replace(read_replace(bytes)))
    } else if size == 19 && kind == kinds::CANCEL_ORDER {
        Some(Inbound::Cancel(read_cancel(bytes)))
    } else {
        None
    }
}

fn read_enter(bytes: &[u8]) -> Enter
    requires { length bytes.now ≡ 49 }
    ensures { result ≡ enter_of bytes.now }
{
    Enter {
        token: Token(array_at(bytes, 1)),
        side: bytes[15],
        shares: u32_at(bytes, 16),
        stock: Symbol(array_at(bytes, 20)),
        price: u32_at(bytes, 28),
        time_in_force: u32_at(bytes, 32),
        firm: Firm(array_at(bytes, 36)),
        display: bytes[40],
        capacity: bytes[41],
        intermarket_sweep: bytes[42],
        minimum_quantity: u32_at(bytes, 43),
        cross_type: bytes[47],
        customer_type: bytes[48],
    }
}

fn read_replace(bytes: &[u8]) -> Replace
    requires { length bytes.now ≡ 47 }
    ensures { result ≡ replace_of bytes.now }
{
    Replace {
        existing_token: Token(array_at(bytes, 1)),
        replacement_token: Token(array_at(bytes, 15)),
        shares: u32_at(bytes, 29),
        price: u32_at(bytes, 33),
        time_in_force: u32_at(bytes, 37),
        display: bytes[41],
        intermarket_sweep: bytes[42],
        minimum_quantity: u32_at(bytes, 43),
    }
}

fn read_cancel(bytes: &[u8]) -> Cancel
    requires { length bytes.now ≡ 19 }
    ensures { result ≡ cancel_of bytes.now }
{
    Cancel {
        token: Token(array_at(bytes, 1)),
        shares: u32_at(bytes, 15),
    }
}
