//! The levels of a book, by stock, side and price.
ghost use Rattle.std.specs.Prelude.{◌≡◌, ◌+◌, ◌≤◌, ◌^◌, ◌↔◌, ℕ, Option, Some, None, IsSome, IsTrue, OnOk, OnErr, IfOk, IfSome, IfNone, MatchOption, Bool, ◌<◌, if◌then◌else◌, true, false};
ghost use Rattle.std.specs.Option.{option_map};
ghost use Rattle.std.specs.BTreeMap.{get, Updates};
ghost use Rattle.std.specs.BTreeMap.Range.{IsInRange, IsLeBy};
ghost use Rattle.std.specs.declared.ops.Bound.TheVariants.{Unbounded};
ghost use Rattle.hx_levels.specs.declared.level_book.levels.Level.{Level};
ghost use Rattle.hx_levels.specs.OrderLinks.{no_ends};
ghost use Rattle.hx_levels.specs.LevelKeys.{LevelKey, level_key_cmp};
ghost use Rattle.hx_levels.specs.Levels.{level_at, with_ends, empty_level, ends_of, ends_in, first_at, IsFirstFrom, IsFirstLevel, IsEmptyAt, IsEmptyLevel};

use crate::level_book::level_key::LevelKey;
use crate::level_book::level_store::LevelStore;
use crate::level_book::linked_orders::Ends;
use std::ops::Bound;

/// The orders of one price: those that are shown, and those that are not. No order has more open shares than `most`, which
/// rises as orders join, and is lowered before a walk.
#[derive(Clone, Copy)]
pub struct Level {
    pub shown: Ends,
    pub hidden: Ends,
    pub most: u32,
}

// The ends of a queue, none if there is no level.
pub fn ends_at(levels: &LevelStore, at: LevelKey, shown: bool) -> Ends
    ensures { result ≡ ends_in shown (level_at levels.now at) }
{
    match levels.level(at) {
        Some(level) if shown => level.shown,
        Some(level) => level.hidden,
        None => Ends::none(),
    }
}

impl Level {
    // A level without orders.
    pub fn empty() -> Level
        ensures { result ≡ empty_level }
    {
        Level {
            shown: Ends::none(),
            hidden: Ends::none(),
            most: 0,
        }
    }

    // The first order of the level, if there is one.
    fn first(self) -> Option<usize>
        ensures { MatchOption self.shown.first (result ≡ self.hidden.first)
            (λ key. result ≡ Some key) }
    {
        let hidden = self.hidden.first;
        match self.shown.first.get() {
            Some(key) => Some(key),
            None => hidden.get(),
        }
    }
}

impl Level {
    // The first order of the level, if an order of it may have at least `least` shares.
    pub fn first_if(self, least: u32) -> Option<usize>
        ensures { IfSome result (λ key. MatchOption self.shown.first
            (self.hidden.first ≡ Some key) (λ first. first ≡ key)) }
    {
        if self.most < least {
            return None;
        }
        self.first()
    }
}

// The first level of a stock and side from a level key up to a distance.
#[inline(always)]
pub fn first_within(levels: &LevelStore, from: LevelKey, limit: u32) -> Option<(u32, Level)>
    ensures found { IfSome result (IsFirstLevel levels.now from limit) }
    ensures none { IfNone result ((d : ℕ) → from.distance ≤ d → d ≤ limit
        → level_at levels.now (record from { distance = d }) ≡ None) }
{
    match levels.first_level(Bound::Included(from)) {
        Some((level_key, level)) if level_key.is_beside(from) && level_key.distance() <= limit => {
            Some((level_key.distance(), level))
        }
        _ => None,
    }
}

// The first order of the first level that is not empty, from a level key up to a distance.
pub fn first_from(levels: &LevelStore, from: LevelKey, limit: u32) -> Option<usize>
    requires single { (a b : LevelKey) → IsEmptyAt levels.now a → IsEmptyAt levels.now b → a ≡ b }
    requires limit { limit < 4294967295 }
    ensures found { IfSome result
        (IsFirstFrom levels.now from.locate from.buy from.distance limit) }
    ensures none { IfNone result ((d : ℕ) (s : Bool) → from.distance ≤ d → d ≤ limit
        → first_at levels.now from.locate from.buy d s ≡ None) }
{
    let Some((distance, level)) = first_within(levels, from, limit) else {
        return None;
    };
    if let Some(key) = level.first() {
        return Some(key);
    }
    // At most one level is empty.
    match first_within(levels, from.at(distance + 1), limit) {
        Some((_, level)) => level.first(),
        None => None,
    }
}

// The first order of the level with a key, if there is one.
pub fn first_of_level(levels: &LevelStore, at: LevelKey) -> Option<usize>
    ensures { IfSome result
        (IsFirstFrom levels.now at.locate at.buy at.distance at.distance) }
{
    match levels.level(at) {
        Some(level) => level.first(),
        None => None,
    }
}

// Whether the level key is the one to retain.
pub fn is_retained(at: LevelKey, retained: Option<LevelKey>) -> bool
    ensures { IsTrue result ↔ (retained ≡ Some at) }
{
    match retained {
        Some(level_key) => level_key == at,
        None => false,
    }
}

// The most shares of the level with a key, if there is one.
pub fn most_at(levels: &LevelStore, at: LevelKey) -> u32
    ensures { IfSome (level_at levels.now at) (λ level. result ≡ level.most) }
{
    match levels.level(at) {
        Some(level) => level.most,
        None => 0,
    }
}

// Whether the level is there and has no order.
pub fn is_empty_at(levels: &LevelStore, at: LevelKey) -> bool
    ensures { IsTrue result ↔ IsEmptyAt levels.now at }
{
    match levels.level(at) {
        Some(level) => level.first().is_none(),
        None => false,
    }
}
