//! The levels of a book: of each price of a stock's side, how many orders and shares stand there.
ghost use Rattle.std.specs.Prelude.{◌≡◌, ◌≤◌, ◌+◌, ◌-◌, ℕ, Option, Some, None, IsSome, IfSome, IfNone, OnOk, OnErr, false, ◌<◌};
ghost use Rattle.std.specs.BTreeMap.Range.{IsInRange, IsLeBy, IsLtBy};
ghost use Rattle.std.specs.Ordering.{is_lt};
ghost use Rattle.std.specs.declared.ops.Bound.TheVariants.{Included, Excluded};
ghost use Rattle.hx_reader.specs.Levels.{level_key_cmp, level_at, grown, reduced, lessened};

use hx_units::NoMemory;
use std::collections::BTreeMap;
use std::ops::Bound;

/// A stock, a side and a price.
#[derive(Clone, Copy, Debug, PartialEq, Eq, PartialOrd, Ord)]
pub struct LevelKey {
    pub locate: u16,
    pub side: u8,
    pub price: u32,
}

/// What stands at a price.
#[derive(Clone, Copy, Debug)]
pub struct Level {
    pub shares: u64,
    pub orders: u64,
}

// A level with one order more.
fn with_one_more(level: Level, shares: u32) -> Option<Level>
    ensures { IfSome result (λ l. Some l ≡ grown shares (Some level)) }
{
    Some(Level {
        shares: level.shares.checked_add(shares as u64)?,
        orders: level.orders.checked_add(1)?,
    })
}

/// An order comes to a price.
pub fn join(
    levels: &mut BTreeMap<LevelKey, Level>,
    at: LevelKey,
    shares: u32,
) -> Result<(), NoMemory>
    ensures ok { OnOk result (level_at levels.new at ≡ grown shares (level_at levels.old at)) }
    ensures others { (q : LevelKey) → (q ≡ at → ⊥) → level_at levels.new q ≡ level_at levels.old q }
    ensures err { OnErr result ((q : LevelKey) → level_at levels.new q ≡ level_at levels.old q) }
{
    if let Some(level) = levels.get_mut(&at) {
        let Some(grown) = with_one_more(*level, shares) else {
            return Err(NoMemory);
        };
        *level = grown;
        return Ok(());
    }
    levels.insert(
        at,
        Level {
            shares: shares as u64,
            orders: 1,
        },
    )?;
    Ok(())
}

/// An order at a price loses shares.
pub fn reduce(levels: &mut BTreeMap<LevelKey, Level>, at: LevelKey, shares: u32)
    requires there { IsSome (level_at levels.old at) }
    requires enough { IfSome (level_at levels.old at) (λ l. shares ≤ l.shares) }
    ensures changed { level_at levels.new at ≡ reduced shares (level_at levels.old at) }
    ensures others { (q : LevelKey) → (q ≡ at → ⊥) → level_at levels.new q ≡ level_at levels.old q }
{
    let level = levels.get_mut(&at).unwrap();
    level.shares -= shares as u64;
}

/// An order leaves a price.
pub fn leave(levels: &mut BTreeMap<LevelKey, Level>, at: LevelKey, shares: u32)
    requires there { IsSome (level_at levels.old at) }
    requires enough { IfSome (level_at levels.old at) (λ l. shares ≤ l.shares) }
    requires some { IfSome (level_at levels.old at) (λ l. 1 ≤ l.orders) }
    ensures changed { level_at levels.new at ≡ lessened shares (level_at levels.old at) }
    ensures others { (q : LevelKey) → (q ≡ at → ⊥) → level_at levels.new q ≡ level_at levels.old q }
{
    let level = levels.get_mut(&at).unwrap();
    if level.orders > 1 {
        level.shares -= shares as u64;
        level.orders -= 1;
        return;
    }
    levels.remove(&at);
}
