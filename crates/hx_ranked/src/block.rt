//! A block of entries.
ghost use Rattle.std.specs.Prelude.{◌≡◌, ◌&&◌, nat_le, ◌+◌, ◌++◌, ◌∷◌, [], ◌<◌, ◌≤◌, length, take, drop, vec_capacity};
ghost use Rattle.std.specs.List.{find};
ghost use Rattle.hx_ranked.specs.Ranked.{Every, IsRising, has_rank, inserted, without, renewed, first_rank, smallest_least, most_shares, first_within_of, is_from};

use crate::entries;
use crate::entry::Entry;
use std::marker::Model;

/// The number of entries that a block can hold.
pub const CAPACITY: usize = 256;

/// A run of entries in the order of their ranks, with three summaries: the rank of the first, the smallest least
/// execution and the most shares. A search passes a block by its summaries, without reading its list. The list has its
/// capacity from the start and never grows.
#[derive(Drop)]
pub struct Block {
    entries: Vec<Entry>,
    first: u128,
    least: u32,
    most: u32,
}

impl Model for Block {
    ghost use Rattle.std.specs.Prelude.{List};
    ghost use Rattle.hx_ranked.specs.declared.entry.Entry.{Entry};
    ghost use Rattle.hx_ranked.specs.Ranked.{IsBlock};

    ghost Value = { List Entry };

    ghost view = { λ b. b.entries.items };

    ghost invariant = { λ b. IsBlock b.entries b.first b.least b.most };
}

impl Block {
    // The block of these entries, its summaries computed from them.
    fn of(entries: Vec<Entry>) -> Block
        requires { 256 ≤ vec_capacity entries }
        ensures { result ≡ entries.items }
    {
        let first = entries::first_rank(&entries);
        let least = entries::smallest_least(&entries);
        let most = entries::most_shares(&entries);
        Block {
            entries,
            first,
            least,
            most,
        }
    }

    /// A block of one entry, in an empty list of a block's capacity.
    pub fn single(mut list: Vec<Entry>, entry: Entry) -> Block
        requires empty { list.items ≡ [] }
        requires capacity { 256 ≤ vec_capacity list }
        ensures { result ≡ entry ∷ [] }
    {
        let _pushed = list.push(entry);
        Block::of(list)
    }

    /// The number of its entries.
    pub fn len(&self) -> usize
        ensures { result ≡ length self.now }
    {
        self.entries.len()
    }

    /// The rank of its first entry, or 0 if it has none.
    pub fn first(&self) -> u128
        ensures { result ≡ first_rank self.now }
    {
        self.first
    }

    /// The entry of a rank, if there is one.
    pub fn get(&self, rank: u128) -> Option<Entry>
        requires { IsRising self.now }
        ensures { result ≡ find (has_rank rank) self.now }
    {
        entries::get(&self.entries, rank)
    }

    // An index before which all entries rank before a rank, to begin a search there.
    fn start_of(&self, from: u128) -> usize
        requires { IsRising self.now }
        ensures inside { result ≤ length self.now }
        ensures passed { Every (λ e. e.rank < from) (take result self.now) }
    {
        if from <= self.first {
            return 0;
        }
        entries::lower_bound(&self.entries, from)
    }

    /// Whether an entry can qualify, by the summaries: if not, no entry can trade `left` shares at most and `minimum` at
    /// least.
    #[inline(always)]
    pub fn may_qualify(&self, left: u32, minimum: u32) -> bool
        ensures { result ≡ (nat_le (smallest_least self.now) left && nat_le minimum (most_shares self.now)) }
    {
        self.least <= left && minimum <= self.most
    }

    /// The first entry from a rank to another that can trade `left` shares at most and `minimum` at least.
    #[inline(never)]
    pub fn first_within(&self, from: u128, last: u128, left: u32, minimum: u32) -> Option<Entry>
        requires { IsRising self.now }
        ensures { result ≡ first_within_of from last left minimum self.now }
    {
        let start = self.start_of(from);
        entries::first_within(&self.entries[start..], from, last, left, minimum)
    }

    /// The first entry that has a rank or a later one.
    pub fn first_from(&self, rank: u128) -> Option<Entry>
        ensures { result ≡ find (is_from rank) self.now }
    {
        entries::first_from(&self.entries, rank)
    }

    /// Inserts an entry at its rank. The block must not be full.
    pub fn insert(&mut self, entry: Entry)
        requires sorted { IsRising self.old }
        requires room { length self.old < 256 }
        ensures { self.new ≡ inserted entry self.old }
    {
        entries::insert(&mut self.entries, entry);
        self.first = entries::first_rank(&self.entries);
        self.least = self.least.min(entry.least);
        self.most = self.most.max(entry.shares);
    }

    /// Removes the entry of a rank, if there is one.
    pub fn remove(&mut self, rank: u128) -> Option<Entry>
        requires { IsRising self.old }
        ensures found { result ≡ find (has_rank rank) self.old }
        ensures rest { self.new ≡ without rank self.old }
    {
        let entry = entries::remove(&mut self.entries, rank)?;
        self.first = entries::first_rank(&self.entries);
        self.least = entries::smallest_after(&self.entries, self.least, entry.least, u32::MAX);
        self.most = entries::most_after(&self.entries, self.most, entry.shares, 0);
        Some(entry)
    }

    /// Gives the entry of a rank another least execution and other shares, if there is one.
    pub fn renew(&mut self, rank: u128, least: u32, shares: u32)
        requires { IsRising self.old }
        ensures { self.new ≡ renewed rank least shares self.old }
    {
        let Some(old) = entries::renew(&mut self.entries, rank, least, shares) else {
            return;
        };
        self.least = entries::smallest_after(&self.entries, self.least, old.least, least);
        self.most = entries::most_after(&self.entries, self.most, old.shares, shares);
    }

    /// Moves the second half of a full block into an empty list of a block's capacity.
    pub fn split(&mut self, mut list: Vec<Entry>) -> Block
        requires full { length self.old ≡ 256 }
        requires empty { list.items ≡ [] }
        requires capacity { 256 ≤ vec_capacity list }
        ensures front { self.new ≡ take 128 self.old }
        ensures back { result ≡ drop 128 self.old }
    {
        let _moved = list.extend_from_slice(&self.entries[CAPACITY / 2..]);
        self.entries.truncate(CAPACITY / 2);
        self.first = entries::first_rank(&self.entries);
        self.least = entries::smallest_least(&self.entries);
        self.most = entries::most_shares(&self.entries);
        Block::of(list)
    }

    /// Appends the entries of another block. The two must hold no more than a block's capacity.
    pub fn append(&mut self, other: &Block)
        requires { length self.old + length other.now ≤ 256 }
        ensures { self.new ≡ self.old ++ other.now }
    {
        let _copied = self.entries.extend_from_slice(&other.entries);
        self.first = entries::first_rank(&self.entries);
        self.least = entries::smallest_least(&self.entries);
        self.most = entries::most_shares(&self.entries);
    }
}
