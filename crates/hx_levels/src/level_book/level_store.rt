//! The levels of a book, each found by its level key.
ghost use Rattle.std.specs.Prelude.{◌≡◌, ◌+◌, ◌==◌, ◌<◌, ◌^◌, ◌⊎◌, ℕ, Option, Some, None, IsSome, OnOk, OnErr, IfOk, IfSome, IfNone, Bool, false};
ghost use Rattle.std.specs.Option.{option_map, option_copied, unwrap_or};
ghost use Rattle.std.specs.BTreeMap.{get as map_get, Updates};
ghost use Rattle.std.specs.BTreeMap.Range.{IsInRange, IsLeBy};
ghost use Rattle.std.specs.declared.ops.Bound.TheVariants.{Unbounded};
ghost use Rattle.std.specs.Vec.{vec_len};
ghost use Rattle.slab.specs.Slab.{get, ContainsKey};
ghost use Rattle.hx_levels.specs.OrderLinks.{ends_with, ends_without};
ghost use Rattle.hx_levels.specs.LevelKeys.{LevelKey, level_key_cmp};
ghost use Rattle.hx_levels.specs.Levels.{slot_of, level_in, level_at, on_level, with_ends, joined, with_most, or_empty, ends_in};

use crate::level_book::level_key::LevelKey;
use crate::level_book::levels::Level;
use crate::level_book::link::Link;
use crate::level_book::linked_orders::{Ends, Links};
use hx_units::NoMemory;
use slab::Slab;
use std::alloc::Global;
use std::collections::BTreeMap;
use std::marker::Model;
use std::ops::Bound;

// How many hints there are.
const HINTS: usize = 4096;

/// A level, and its level key.
#[derive(Clone, Copy)]
pub struct Tier {
    pub at: LevelKey,
    pub level: Level,
}

/// The levels of all stocks and sides. A level that was found before is found again by a hint, without a search.
#[derive(Drop)]
pub struct LevelStore {
    slots: BTreeMap<LevelKey, usize>,
    slab: Slab<Tier>,
    // For each of 4,096 parts of the level keys the slot of one that was looked for. The level in that slot has its
    // level key, so a hint may be of another level key, or lead to nothing: it is then not followed.
    hints: Vec<usize>,
}

impl Model for LevelStore {
    ghost use Rattle.hx_levels.specs.Levels.{LevelStore, AreInSlots};

    ghost Value = { LevelStore };

    ghost view = { λ t. record { slots = t.slots.entries; slab = t.slab } };

    ghost invariant = { λ t. AreInSlots (record { slots = t.slots.entries; slab = t.slab }) };
}

impl LevelStore {
    /// No levels.
    pub fn new(alloc: Global) -> Self
        ensures { (at : LevelKey) → level_at result at ≡ None }
    {
        LevelStore {
            slots: BTreeMap::new(alloc),
            slab: Slab::new(alloc),
            hints: Vec::new(alloc),
        }
    }

    // The slot that a hint leads to, if the level with the key is there.
    fn hinted(&self, at: LevelKey) -> Option<usize>
        ensures { IfSome result (λ slot. slot_of self.now at ≡ Some slot) }
    {
        let Some(slot) = self.hints.get(at.hint()) else {
            return None;
        };
        match self.slab.get(*slot) {
            Some(tier) if tier.at == at => Some(*slot),
            _ => None,
        }
    }

    // The slot of the level with a key, if there is one.
    fn find(&self, at: LevelKey) -> Option<usize>
        ensures { result ≡ slot_of self.now at }
    {
        match self.hinted(at) {
            Some(slot) => Some(slot),
            None => self.slots.get(&at).copied(),
        }
    }

    // The same, with a hint for the next time.
    #[inline(always)]
    fn look(&mut self, at: LevelKey) -> Option<usize>
        ensures slot { result ≡ slot_of self.old at }
        ensures same { self.new ≡ self.old }
    {
        if let Some(slot) = self.hinted(at) {
            return Some(slot);
        }
        let Some(found) = self.slots.get(&at) else {
            return None;
        };
        let slot = *found;
        note(&mut self.hints, at, slot);
        Some(slot)
    }

    /// The level with a key, if there is one.
    pub fn level(&self, at: LevelKey) -> Option<&Level>
        ensures { option_copied result ≡ level_at self.now at }
    {
        let Some(slot) = self.find(at) else {
            return None;
        };
        match self.slab.get(slot) {
            Some(tier) => Some(&tier.level),
            None => None,
        }
    }

    /// Puts the key of an order with `shares` shares last in a queue of a level that is there. It gives the key that
    /// was last, and the most shares of the level before.
    #[inline(always)]
    pub fn join_queue(&mut self, at: LevelKey, shown: bool, key: usize, shares: u32) -> (Link, u32)
        requires level { IsSome (level_at self.old at) }
        requires small { key + 1 < 2 ^ 64 }
        ensures last { result.0 ≡ (ends_in shown (level_at self.old at)).last }
        ensures most { IfSome (level_at self.old at) (λ level. result.1 ≡ level.most) }
        ensures changed { level_at self.new at
            ≡ option_map
            (joined shown (ends_with key (ends_in shown (level_at self.old at))) shares)
            (level_at self.old at) }
        ensures others { (q : LevelKey) → (q ≡ at → ⊥) → level_at self.new q ≡ level_at self.old q }
    {
        let slot = self.look(at).unwrap();
        join_in(&mut self.slab, slot, shown, key, shares)
    }

    /// Takes the order of these links out of a queue of a level that is there, and gives the ends that are left.
    #[inline(always)]
    pub fn leave_queue(&mut self, at: LevelKey, shown: bool, links: Links) -> Ends
        requires { IsSome (level_at self.old at) }
        ensures left { result ≡ ends_without links (ends_in shown (level_at self.old at)) }
        ensures changed { level_at self.new at
            ≡ option_map (with_ends shown result) (level_at self.old at) }
        ensures others { (q : LevelKey) → (q ≡ at → ⊥) → level_at self.new q ≡ level_at self.old q }
    {
        let slot = self.look(at).unwrap();
        leave_in(&mut self.slab, slot, shown, links)
    }

    /// Gives the level with a key, if there is one, another bound on the shares of its orders.
    pub fn lower(&mut self, at: LevelKey, most: u32)
        ensures changed { level_at self.new at
            ≡ option_map (with_most most) (level_at self.old at) }
        ensures others { (q : LevelKey) → (q ≡ at → ⊥) → level_at self.new q ≡ level_at self.old q }
    {
        let Some(slot) = self.look(at) else {
            return;
        };
        lower_in(&mut self.slab, slot, most);
    }

    /// Makes an empty level, if there is none.
    pub fn make_level(&mut self, at: LevelKey) -> Result<(), NoMemory>
        ensures there { OnOk result (IsSome (level_at self.new at)) }
        ensures made { OnOk result (level_at self.new at ≡ or_empty (level_at self.old at)) }
        ensures ends { (s : Bool) → ends_in s (level_at self.new at)
            ≡ ends_in s (level_at self.old at) }
        ensures others { (q : LevelKey) → (q ≡ at → ⊥) → level_at self.new q ≡ level_at self.old q }
        ensures err { OnErr result ((q : LevelKey) → level_at self.new q ≡ level_at self.old q) }
    {
        make_hints(&mut self.hints)?;
        if self.hinted(at).is_some() {
            return Ok(());
        }
        self.slab.reserve(1)?;
        let vacant = self.slab.vacant_key();
        let slot = slot_or(&mut self.slots, at, vacant)?;
        note(&mut self.hints, at, slot);
        if slot == vacant {
            self.slab.insert_reserved(Tier {
                at,
                level: Level::empty(),
            });
            return Ok(());
        }
        Ok(())
    }

    /// Takes the level with a key out, if there is one.
    pub fn remove(&mut self, at: LevelKey)
        ensures gone { level_at self.new at ≡ None }
        ensures others { (q : LevelKey) → (q ≡ at → ⊥) → level_at self.new q ≡ level_at self.old q }
    {
        if let Some(slot) = self.slots.remove(&at) {
            self.slab.remove(slot);
        }
    }

    /// The first level from a bound on, over all stocks and sides.
    pub fn first_level(&self, from: Bound<LevelKey>) -> Option<(LevelKey, Level)>
        ensures found { IfSome result (λ e. (IsInRange level_key_cmp from Unbounded e.0)
            × (level_at self.now e.0 ≡ Some e.1)) }
        ensures least { IfSome result (λ e. (q : LevelKey) → IsInRange level_key_cmp from Unbounded q
            → IsSome (level_at self.now q) → IsLeBy level_key_cmp e.0 q) }
        ensures none { IfNone result ((q : LevelKey) → IsInRange level_key_cmp from Unbounded q
            → level_at self.now q ≡ None) }
    {
        match self.slots.range((from, Bound::Unbounded)).next() {
            Some((level_key, slot)) => Some((*level_key, self.slab[*slot].level)),
            None => None,
        }
    }
}

// The slot of the level with a key; if there is none this slot, which the level then has. One search does for both.
fn slot_or(
    slots: &mut BTreeMap<LevelKey, usize>,
    at: LevelKey,
    slot: usize,
) -> Result<usize, NoMemory>
    ensures slot { IfOk result (λ s. s ≡ unwrap_or (map_get level_key_cmp slots.old at) slot) }
    ensures updates { IfOk result (λ s. Updates level_key_cmp slots.old slots.new at (Some s)) }
    ensures err { OnErr result (slots.new.entries ≡ slots.old.entries) }
{
    Ok(*slots.entry(at)?.or_insert(slot))
}

// Makes the hints, if there are none.
fn make_hints(hints: &mut Vec<usize>) -> Result<(), NoMemory>
    ensures made { OnOk result (vec_len hints.old ≡ 0 → vec_len hints.new ≡ 4096) }
    ensures stay { vec_len hints.old ≡ 0 ⊎ (hints.new.items ≡ hints.old.items) }
{
    if hints.is_empty() {
        hints.resize(HINTS, 0)?;
    }
    Ok(())
}

// Writes the hint for a level key.
fn note(hints: &mut Vec<usize>, at: LevelKey, slot: usize) {
    if let Some(hint) = hints.get_mut(at.hint()) {
        *hint = slot;
    }
}

// Puts the key of an order with `shares` shares last in a queue of the level in a slot. It gives the key that was last,
// and the most shares of the level before.
fn join_in(slab: &mut Slab<Tier>, slot: usize, shown: bool, key: usize, shares: u32) -> (Link, u32)
    requires level { ContainsKey slab.old slot }
    requires small { key + 1 < 2 ^ 64 }
    ensures last { result.0 ≡ (ends_in shown (level_in slab.old (Some slot))).last }
    ensures most { IfSome (get slab.old slot) (λ tier. result.1 ≡ tier.level.most) }
    ensures changed { get slab.new slot ≡ option_map
        (on_level
        (joined shown (ends_with key (ends_in shown (level_in slab.old (Some slot)))) shares))
        (get slab.old slot) }
    ensures others { (k : ℕ) → (k == slot) ≡ false → get slab.new k ≡ get slab.old k }
{
    let level = &mut slab[slot].level;
    let most = level.most;
    level.most = level.most.max(shares);
    if shown {
        let last = level.shown.last;
        level.shown = level.shown.with(key);
        (last, most)
    } else {
        let last = level.hidden.last;
        level.hidden = level.hidden.with(key);
        (last, most)
    }
}

// Takes the order of these links out of a queue of the level in a slot, and gives the ends that are left.
fn leave_in(slab: &mut Slab<Tier>, slot: usize, shown: bool, links: Links) -> Ends
    requires { ContainsKey slab.old slot }
    ensures left { result ≡ ends_without links (ends_in shown (level_in slab.old (Some slot))) }
    ensures changed { get slab.new slot
        ≡ option_map (on_level (with_ends shown result)) (get slab.old slot) }
    ensures others { (k : ℕ) → (k == slot) ≡ false → get slab.new k ≡ get slab.old k }
{
    let level = &mut slab[slot].level;
    if shown {
        level.shown = level.shown.without(links);
        level.shown
    } else {
        level.hidden = level.hidden.without(links);
        level.hidden
    }
}

// Gives the level in a slot another bound on the shares of its orders.
fn lower_in(slab: &mut Slab<Tier>, slot: usize, most: u32)
    requires { ContainsKey slab.old slot }
    ensures changed { get slab.new slot
        ≡ option_map (on_level (with_most most)) (get slab.old slot) }
    ensures others { (k : ℕ) → (k == slot) ≡ false → get slab.new k ≡ get slab.old k }
{
    let level = &mut slab[slot].level;
    if level.most > 0 {
        level.most = most;
    }
}
