//! The best prices of a stock, and those after them.
ghost use Rattle.std.specs.Prelude.{◌≡◌, ◌+◌, Option, Some, None, IsSome, IfSome, IfNone, option_map, false};
ghost use Rattle.std.specs.BTreeMap.Range.{IsInRange, IsLeBy};
ghost use Rattle.std.specs.Ordering.{is_lt};
ghost use Rattle.std.specs.declared.ops.Bound.TheVariants.{Included, Excluded};
ghost use Rattle.hx_units.specs.Letters.{letter};
ghost use Rattle.hx_reader.specs.Prices.{prices, below, above, IsHighest, IsLowest};
ghost use Rattle.hx_reader.specs.Depth.{level_of};
ghost use Rattle.hx_reader.specs.Levels.{level_key_cmp, level_at, level_key_at, bids_end, offers_begin, IsBefore};
ghost use Rattle.hx_reader.specs.Tables.{book_in, IsTable};

use crate::level::PriceLevel;
use crate::levels::{Level, LevelKey};
use crate::table::Table;
use std::collections::BTreeMap;
use std::ops::Bound;

// The last level from one level key up to another, which is left out.
fn last_between(
    levels: &BTreeMap<LevelKey, Level>,
    from: LevelKey,
    to: LevelKey,
) -> Option<(LevelKey, Level)>
    requires { IsLeBy level_key_cmp from to }
    ensures found { IfSome result (λ e. (IsInRange level_key_cmp (Included from) (Excluded to) e.0)
        × (level_at levels.now e.0 ≡ Some e.1)) }
    ensures greatest { IfSome result (λ e. (q : LevelKey)
        → IsInRange level_key_cmp (Included from) (Excluded to) q
        → IsSome (level_at levels.now q) → is_lt (level_key_cmp e.0 q) ≡ false) }
    ensures none { IfNone result ((q : LevelKey)
        → IsInRange level_key_cmp (Included from) (Excluded to) q → level_at levels.now q ≡ None) }
{
    let range = (Bound::Included(from), Bound::Excluded(to));
    match levels.range(range).next_back() {
        Some((level_key, level)) => Some((*level_key, *level)),
        None => None,
    }
}

// The first level from a bound up to a level key, which is left out.
fn first_between(
    levels: &BTreeMap<LevelKey, Level>,
    from: Bound<LevelKey>,
    to: LevelKey,
) -> Option<(LevelKey, Level)>
    requires { IsBefore from to }
    ensures found { IfSome result (λ e. (IsInRange level_key_cmp from (Excluded to) e.0)
        × (level_at levels.now e.0 ≡ Some e.1)) }
    ensures least { IfSome result (λ e. (q : LevelKey) → IsInRange level_key_cmp from (Excluded to) q
        → IsSome (level_at levels.now q) → IsLeBy level_key_cmp e.0 q) }
    ensures none { IfNone result ((q : LevelKey)
        → IsInRange level_key_cmp from (Excluded to) q → level_at levels.now q ≡ None) }
{
    match levels.range((from, Bound::Excluded(to))).next() {
        Some((level_key, level)) => Some((*level_key, *level)),
        None => None,
    }
}

// A level, as it is delivered.
fn delivered(level_key: LevelKey, level: Level) -> PriceLevel
    ensures { result
        ≡ record { price = level_key.price; shares = level.shares; orders = level.orders } }
{
    PriceLevel {
        price: level_key.price,
        shares: level.shares,
        orders: level.orders,
    }
}

// Where the level keys of a stock's buys begin.
fn bids_begin(locate: u16) -> LevelKey
    ensures { result ≡ level_key_at locate (letter "B") 0 }
{
    LevelKey {
        locate,
        side: b'B',
        price: 0,
    }
}

// Where those below a limit end, or all.
fn bids_end(locate: u16, under: Option<u32>) -> LevelKey
    ensures { result ≡ bids_end locate (letter "B") under }
{
    match under {
        Some(price) => LevelKey {
            locate,
            side: b'B',
            price,
        },
        None => LevelKey {
            locate,
            side: b'B' + 1,
            price: 0,
        },
    }
}

// The bound at which the level keys of a stock's sells above a limit begin, or all.
fn offers_begin(locate: u16, over: Option<u32>) -> Bound<LevelKey>
    ensures { result ≡ offers_begin locate (letter "S") over }
{
    match over {
        Some(price) => Bound::Excluded(LevelKey {
            locate,
            side: b'S',
            price,
        }),
        None => Bound::Included(LevelKey {
            locate,
            side: b'S',
            price: 0,
        }),
    }
}

// Where the level keys of a stock's sells end.
fn offers_end(locate: u16) -> LevelKey
    ensures { result ≡ level_key_at locate (letter "S" + 1) 0 }
{
    LevelKey {
        locate,
        side: b'S' + 1,
        price: 0,
    }
}

/// The highest price of a stock's buys below a limit, or of all.
pub fn highest_below(table: &Table, locate: u16, under: Option<u32>) -> Option<PriceLevel>
    requires { IsTable table.now }
    ensures price { IsHighest (below under (prices locate (letter "B") (book_in table.now)))
        (option_map (λ l. l.price) result) }
    ensures level { IfSome result (λ l.
        l ≡ level_of locate (letter "B") l.price (book_in table.now)) }
{
    let from = bids_begin(locate);
    let to = bids_end(locate, under);
    match last_between(&table.levels, from, to) {
        Some((level_key, level)) => Some(delivered(level_key, level)),
        None => None,
    }
}

/// The lowest price of a stock's sells above a limit, or of all.
pub fn lowest_above(table: &Table, locate: u16, over: Option<u32>) -> Option<PriceLevel>
    requires { IsTable table.now }
    ensures price { IsLowest (above over (prices locate (letter "S") (book_in table.now)))
        (option_map (λ l. l.price) result) }
    ensures level { IfSome result (λ l.
        l ≡ level_of locate (letter "S") l.price (book_in table.now)) }
{
    let from = offers_begin(locate, over);
    let to = offers_end(locate);
    match first_between(&table.levels, from, to) {
        Some((level_key, level)) => Some(delivered(level_key, level)),
        None => None,
    }
}
