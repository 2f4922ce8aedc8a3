//! The number of passes of an exchange.
ghost use Rattle.std.specs.Prelude.{◌≡◌, ◌≤◌};
ghost use Rattle.hx_engine.specs.Opening.{most_passes};

use crate::venue::Venue;
use std::marker::{Model, PhantomData};

/// The number of passes that an exchange gave: one for each part of its venue's ledger.
#[derive(Drop)]
pub struct PassCount<V: Venue> {
    count: u16,
    of: PhantomData<V>,
}

impl<V: Venue> Model for PassCount<V> {
    ghost use Rattle.std.specs.Prelude.{◌≡◌, ◌≤◌, ℕ};
    ghost use Rattle.hx_engine.specs.Opening.{most_passes};

    ghost Value = { ℕ };

    ghost view = { λ c. c.count };

    ghost invariant = { λ c. (c.count ≡ V.parts) × (c.count ≤ most_passes) };
}

impl<V: Venue> PassCount<V> {
    /// This number.
    pub fn of(count: u16) -> PassCount<V>
        requires { (count ≡ V.parts) × (count ≤ most_passes) }
        ensures { result ≡ count }
    {
        PassCount {
            count,
            of: PhantomData,
        }
    }

    /// The number.
    pub fn get(&self) -> u16
        ensures value { result ≡ V.parts }
        ensures limit { result ≤ most_passes }
    {
        self.count
    }
}
