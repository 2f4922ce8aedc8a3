//! The levels of a book, and beside them how near to the best price those of each stock and side begin.
ghost use Rattle.std.specs.Prelude.{◌≡◌, ◌+◌, ◌≤◌, ◌<◌, ◌%◌, ◌^◌, ℕ, Option, Some, None, IsSome, OnOk, OnErr, IfSome, IfNone, Bool, true, false};
ghost use Rattle.std.specs.Option.{option_map};
ghost use Rattle.hx_levels.specs.OrderLinks.{ends_with};
ghost use Rattle.hx_levels.specs.LevelKeys.{LevelKey, level_key_number, level_key_of_number};
ghost use Rattle.hx_levels.specs.Levels.{level_at, with_ends, joined, with_most, or_empty, ends_in, first_at, IsFirstFrom, FindsLarge, IsEmptyAt, DropsEmpty, LeavesLevel};
ghost use Rattle.hx_levels.specs.Bests.{NoneBetter};
ghost use Rattle.hx_levels.specs.Sizes.{AreSizes};
ghost use Rattle.hx_ranked.specs.Ranked.{IsFree, without};

use crate::level_book::best_bounds::{BestBounds, NO_DISTANCE};
use crate::level_book::level_key::LevelKey;
use crate::level_book::level_store::LevelStore;
use crate::level_book::levels::{
    ends_at, first_from, first_of_level, first_within, is_empty_at, is_retained, most_at,
};
use crate::level_book::link::Link;
use crate::level_book::linked_orders::{Ends, Links};
use hx_ranked::{Entry, RankedBlocks};
use hx_units::NoMemory;
use std::alloc::Global;

// How many distances there are on a side of a stock.
const DISTANCES: u128 = 1 << 32;

/// The levels of all stocks and sides. If no level of a side is near enough, that is known without a search. The most
/// shares of each level's orders are in ranked blocks too, so a walk passes levels of small orders by the block.
#[derive(Drop)]
pub struct Sides {
    levels: LevelStore,
    bests: BestBounds,
    // For each level that has had an order an entry under the number of its key, with the most shares of its orders.
    sizes: RankedBlocks,
    ghost near: { NoneBetter levels bests },
    ghost sized: { AreSizes levels sizes.entries },
}

// The rank of the level with a key among the sizes.
fn size_rank(at: LevelKey) -> u128
    ensures number { result ≡ level_key_number at }
    ensures level_key { level_key_of_number result ≡ at }
{
    u128::from(at.number())
}

// Takes the size of the level with a key out, unless the level has had no shares, and so has no size.
fn drop_size(sizes: &mut RankedBlocks, at: LevelKey, most: u32)
    requires { most ≡ 0 → (r : ℕ) → level_key_of_number r ≡ at → IsFree r sizes.old.entries }
    ensures entries { sizes.new.entries ≡ without (level_key_number at) sizes.old.entries }
    ensures room { sizes.old.has_room ≡ true → sizes.new.has_room ≡ true }
    ensures level_key { level_key_of_number (level_key_number at) ≡ at }
{
    let rank = size_rank(at);
    if most > 0 {
        sizes.remove(rank);
    }
}

// The distance of the level that has a rank among the sizes.
fn distance_in(rank: u128) -> u32
    ensures { result ≡ rank % 4294967296 }
{
    (rank % DISTANCES) as u32
}

impl Sides {
    /// No levels.
    pub fn new(alloc: Global) -> Self
        ensures { (at : LevelKey) → level_at result.levels at ≡ None }
    {
        Sides {
            levels: LevelStore::new(alloc),
            bests: BestBounds::new(alloc),
            sizes: RankedBlocks::new(alloc),
        }
    }

    /// The ends of a queue, none if there is no level.
    pub fn ends_at(&self, at: LevelKey, shown: bool) -> Ends
        ensures { result ≡ ends_in shown (level_at self.now.levels at) }
    {
        ends_at(&self.levels, at, shown)
    }

    /// The first order of the first level that is not empty, from a level key up to a distance.
    #[inline(always)]
    pub fn first_from(&self, from: LevelKey, limit: u32) -> Option<usize>
        requires single { (a b : LevelKey) → IsEmptyAt self.now.levels a
            → IsEmptyAt self.now.levels b → a ≡ b }
        requires limit { limit < 4294967295 }
        ensures found { IfSome result
            (IsFirstFrom self.now.levels from.locate from.buy from.distance limit) }
        ensures none { IfNone result ((d : ℕ) (s : Bool) → from.distance ≤ d → d ≤ limit
            → first_at self.now.levels from.locate from.buy d s ≡ None) }
    {
        let bound = self.bests.bound(from);
        if limit < bound {
            return None;
        }
        // Mostly the best level is at the bound, and is found there without a search.
        if from.distance() <= bound {
            if let Some(key) = first_of_level(&self.levels, from.at(bound)) {
                return Some(key);
            }
        }
        first_from(&self.levels, from, limit)
    }

    /// The first order of the first level that is not empty, from a level key up to a distance. Levels none of whose
    /// orders has at least `least` shares are passed over, by the block.
    #[inline(always)]
    pub fn first_large(&self, from: LevelKey, limit: u32, least: u32) -> Option<usize>
        requires single { (a b : LevelKey) → IsEmptyAt self.now.levels a
            → IsEmptyAt self.now.levels b → a ≡ b }
        requires limit { limit < 4294967295 }
        ensures { FindsLarge self.now.levels from limit least result }
    {
        // An order has one share at least, so none is passed over: the best is found without a search.
        if least <= 1 {
            return self.first_from(from, limit);
        }
        // Mostly the next level is large enough: then the sizes are not asked.
        let Some((_, level)) = first_within(&self.levels, from, limit) else {
            return None;
        };
        if let Some(key) = level.first_if(least) {
            return Some(key);
        }
        self.first_by_size(from, limit, least)
    }

    // The same, by a search among the sizes.
    fn first_by_size(&self, from: LevelKey, limit: u32, least: u32) -> Option<usize>
        requires single { (a b : LevelKey) → IsEmptyAt self.now.levels a
            → IsEmptyAt self.now.levels b → a ≡ b }
        requires limit { limit < 4294967295 }
        requires some { 0 < least }
        ensures { FindsLarge self.now.levels from limit least result }
    {
        let last = size_rank(from.at(limit));
        let Some(entry) = self
            .sizes
            .first_within(size_rank(from), last, u32::MAX, least)
        else {
            return None;
        };
        self.first_from(from.at(distance_in(entry.rank)), limit)
    }

    /// The key of the next level, from a level key up to a distance, whose bound allows an order of at least `least`
    /// shares.
    pub fn next_claim(&self, from: LevelKey, limit: u32, least: u32) -> Option<LevelKey>
        ensures { IfSome result (λ at. (at.locate ≡ from.locate) × (at.buy ≡ from.buy)) }
    {
        let (first, last) = (size_rank(from), size_rank(from.at(limit)));
        let Some(entry) = self.sizes.first_within(first, last, u32::MAX, least) else {
            return None;
        };
        Some(from.at(distance_in(entry.rank)))
    }

    /// Gives the level with a key another bound on the shares of its orders, if it has one.
    pub fn lower(&mut self, at: LevelKey, most: u32)
        requires { 0 < most }
        ensures room { self.new.sizes.has_room ≡ self.old.sizes.has_room }
        ensures changed { level_at self.new.levels at
            ≡ option_map (with_most most) (level_at self.old.levels at) }
        ensures others { (q : LevelKey) → (q ≡ at → ⊥)
            → level_at self.new.levels q ≡ level_at self.old.levels q }
    {
        self.levels.lower(at, most);
        self.sizes.renew(size_rank(at), 1, most);
    }

    /// Makes an empty level, if there is none, and room for the size of one.
    #[inline(always)]
    pub fn make_level(&mut self, at: LevelKey) -> Result<(), NoMemory>
        ensures there { OnOk result (IsSome (level_at self.new.levels at)) }
        ensures made { OnOk result (level_at self.new.levels at
            ≡ or_empty (level_at self.old.levels at)) }
        ensures ends { (s : Bool) → ends_in s (level_at self.new.levels at)
            ≡ ends_in s (level_at self.old.levels at) }
        ensures others { (q : LevelKey) → (q ≡ at → ⊥)
            → level_at self.new.levels q ≡ level_at self.old.levels q }
        ensures err { OnErr result ((q : LevelKey)
            → level_at self.new.levels q ≡ level_at self.old.levels q) }
        ensures room { OnOk result (self.new.sizes.has_room ≡ true) }
        ensures had_room { self.old.sizes.has_room ≡ true → self.new.sizes.has_room ≡ true }
    {
        // The bound is noted before the level is made: if the level is then refused, the stored distance is nearer than
        // it need be.
        self.bests.include(at)?;
        self.sizes.reserve()?;
        self.levels.make_level(at)?;
        Ok(())
    }

    /// Puts the key of an order with `shares` shares last in a queue of a level that is there, and gives the key that
    /// was last.
    #[inline(always)]
    pub fn join_queue(&mut self, at: LevelKey, shown: bool, key: usize, shares: u32) -> Link
        requires level { IsSome (level_at self.old.levels at) }
        requires small { key + 1 < 2 ^ 64 }
        requires room { self.old.sizes.has_room ≡ true }
        ensures last { result ≡ (ends_in shown (level_at self.old.levels at)).last }
        ensures changed { level_at self.new.levels at
            ≡ option_map
            (joined shown (ends_with key (ends_in shown (level_at self.old.levels at))) shares)
            (level_at self.old.levels at) }
        ensures others { (q : LevelKey) → (q ≡ at → ⊥)
            → level_at self.new.levels q ≡ level_at self.old.levels q }
    {
        let (last, most) = self.levels.join_queue(at, shown, key, shares);
        if shares <= most {
            return last;
        }
        let rank = size_rank(at);
        if most > 0 {
            self.sizes.renew(rank, 1, shares);
            return last;
        }
        self.sizes.insert(Entry {
            rank,
            key: 0,
            least: 1,
            shares,
        });
        last
    }

    // Looks for the best level of the key's stock and side, if the level with this key was the best before it went out.
    #[inline(always)]
    fn find_best(&mut self, at: LevelKey)
        ensures levels { self.new.levels ≡ self.old.levels }
        ensures sizes { self.new.sizes ≡ self.old.sizes }
    {
        if self.bests.is_at_bound(at) {
            let best = match first_within(&self.levels, at.at(0), NO_DISTANCE) {
                Some((distance, _)) => distance,
                None => NO_DISTANCE,
            };
            self.bests.renew(at, best);
        }
    }

    /// Takes the level out if it is empty, unless it is the one to retain.
    #[inline(always)]
    pub fn drop_empty(&mut self, at: LevelKey, retained: Option<LevelKey>)
        ensures dropped { DropsEmpty self.old.levels self.new.levels at retained }
        ensures room { self.old.sizes.has_room ≡ true → self.new.sizes.has_room ≡ true }
    {
        if is_retained(at, retained) {
            return;
        }
        if is_empty_at(&self.levels, at) {
            let most = most_at(&self.levels, at);
            self.levels.remove(at);
            drop_size(&mut self.sizes, at, most);
            self.find_best(at);
        }
    }

    // Takes the level out if it is empty, unless it is the one to retain. A queue of it has these ends: if there is an
    // order in the queue the level is not looked for.
    fn drop_if_empty(&mut self, at: LevelKey, retained: Option<LevelKey>, shown: bool, ends: Ends)
        requires { ends ≡ ends_in shown (level_at self.old.levels at) }
        ensures dropped { DropsEmpty self.old.levels self.new.levels at retained }
        ensures room { self.old.sizes.has_room ≡ true → self.new.sizes.has_room ≡ true }
    {
        if ends.first.is_some() {
            return;
        }
        self.drop_empty(at, retained);
    }

    /// Takes the order of these links out of its queue, and its level out if that leaves it empty, unless it is the one
    /// to retain. An order between two others is no end of its queue, and its level is not looked for.
    #[inline(always)]
    pub fn leave_level(
        &mut self,
        at: LevelKey,
        shown: bool,
        links: Links,
        retained: Option<LevelKey>,
    )
        requires { IsSome (ends_in shown (level_at self.old.levels at)).first }
        ensures left { LeavesLevel self.old.levels self.new.levels at shown links retained }
        ensures room { self.old.sizes.has_room ≡ true → self.new.sizes.has_room ≡ true }
    {
        if links.is_inside() {
            return;
        }
        let left = self.levels.leave_queue(at, shown, links);
        self.drop_if_empty(at, retained, shown, left);
    }
}
