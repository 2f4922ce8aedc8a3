//! The tables that store a book: its orders under numbers in time, the number of each reference, and the levels.
ghost use Rattle.std.specs.Prelude.{◌≡◌, ◌≤◌, ◌<◌, ◌-◌, ◌++◌, [], ◌∷◌, Some, None, IsSome, OnOk, OnErr};
ghost use Rattle.std.specs.Map.{remove_entry, set_value};
ghost use Rattle.hx_reader.specs.Tables.{is_number, order_at, AreBelow, AreLevels};
ghost use Rattle.hx_reader.specs.LevelKeys.{level_key_of};

use crate::levels::{Level, LevelKey, join, leave, reduce};
use hx_itch::ShownOrder;
use hx_units::NoMemory;
use indexmap::IndexMap;
use std::collections::BTreeMap;

/// The parts of a book. An order comes under a number above all others, so that the orders stand in
/// time order.
#[derive(Drop)]
pub struct Table {
    pub indices: IndexMap<u64, u64>,
    pub orders: BTreeMap<u64, ShownOrder>,
    pub levels: BTreeMap<LevelKey, Level>,
    pub next: u64,
}

/// The level key of an order.
pub fn level_key_of(order: &ShownOrder) -> LevelKey
    ensures { result ≡ level_key_of order.now }
{
    LevelKey {
        locate: order.locate,
        side: order.side,
        price: order.price,
    }
}

/// An order comes last.
pub fn push(
    orders: &mut BTreeMap<u64, ShownOrder>,
    levels: &mut BTreeMap<LevelKey, Level>,
    number: u64,
    order: ShownOrder,
) -> Result<(), NoMemory>
    requires last { AreBelow number orders.old.entries }
    requires levels { AreLevels levels.old orders.old.entries }
    ensures ok { OnOk result (orders.new.entries ≡ orders.old.entries ++ (number, order) ∷ []) }
    ensures err { OnErr result (orders.new.entries ≡ orders.old.entries) }
    ensures levels { AreLevels levels.new orders.new.entries }
{
    orders.insert(number, order)?;
    match join(levels, level_key_of(&order), order.shares) {
        Ok(()) => Ok(()),
        Err(error) => {
            orders.remove(&number);
            Err(error)
        }
    }
}

/// An order leaves.
pub fn take_out(
    orders: &mut BTreeMap<u64, ShownOrder>,
    levels: &mut BTreeMap<LevelKey, Level>,
    number: u64,
) -> ShownOrder
    requires there { IsSome (order_at number orders.old.entries) }
    requires levels { AreLevels levels.old orders.old.entries }
    ensures was { order_at number orders.old.entries ≡ Some result }
    ensures entries { orders.new.entries ≡ remove_entry (is_number number) orders.old.entries }
    ensures gone { order_at number orders.new.entries ≡ None }
    ensures levels { AreLevels levels.new orders.new.entries }
{
    let order = orders.remove(&number).unwrap();
    leave(levels, level_key_of(&order), order.shares);
    order
}

/// Takes shares off an order that has more, and else does nothing. The order as it was.
pub fn take_off(
    orders: &mut BTreeMap<u64, ShownOrder>,
    levels: &mut BTreeMap<LevelKey, Level>,
    number: u64,
    shares: u32,
) -> ShownOrder
    requires there { IsSome (order_at number orders.old.entries) }
    requires levels { AreLevels levels.old orders.old.entries }
    ensures was { order_at number orders.old.entries ≡ Some result }
    ensures less { shares < result.shares → orders.new.entries
        ≡ set_value (is_number number) orders.old.entries
        (record result { shares = result.shares - shares }) }
    ensures same { result.shares ≤ shares → orders.new.entries ≡ orders.old.entries }
    ensures levels { AreLevels levels.new orders.new.entries }
{
    let order = orders.get_mut(&number).unwrap();
    let was = *order;
    if was.shares > shares {
        order.shares = was.shares - shares;
        reduce(levels, level_key_of(&was), shares);
    }
    was
}
