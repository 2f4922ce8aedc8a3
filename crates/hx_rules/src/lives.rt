//! When orders end (OUCH 4.2, Enter Order: Time in Force).
ghost use Rattle.std.specs.Prelude.{◌≡◌};
ghost use Rattle.hx_rules.specs.Orders.{expiry_of};
ghost use Rattle.hx_rules.specs.Hours.{is_over, is_to_market, ends_by_code};

use crate::letters;
use hx_book::{Life, Order};

/// When an order of this life ends, if that is a time, in nanoseconds since midnight.
pub fn expiry_of(life: Life) -> Option<u64>
    ensures { result ≡ expiry_of life }
{
    match life {
        Life::Market | Life::System => None,
        Life::Until(expiry) => Some(expiry),
    }
}

/// Whether an order of this life is over at a time, in nanoseconds since midnight.
pub fn is_over(time: u64, life: Life) -> bool
    ensures { result ≡ is_over time life }
{
    match life {
        Life::Market | Life::System => false,
        Life::Until(expiry) => expiry <= time,
    }
}

fn is_to_market(life: Life) -> bool
    ensures { result ≡ is_to_market life }
{
    match life {
        Life::Market => true,
        Life::System | Life::Until(_) => false,
    }
}

/// Whether an order ends by this code of the hours.
pub fn ends_by_code(code: u8, order: &Order) -> bool
    ensures { result ≡ ends_by_code code order.now }
{
    (code == letters::END_OF_MARKET_HOURS && is_to_market(order.life))
        || code == letters::END_OF_SYSTEM_HOURS
}
