//! Entries by rank.
ghost use Rattle.std.specs.Prelude.{◌≡◌, [], length, true, OnOk, IsOk};
ghost use Rattle.std.specs.List.{find};
ghost use Rattle.hx_ranked.specs.Ranked.{first_within_of, is_from, inserted, without, renewed, has_rank, IsFree, IsRising};

use crate::block::{Block, CAPACITY};
use crate::blocks;
use crate::entry::Entry;
use hx_units::NoMemory;
use std::alloc::Global;
use std::cell::Cell;
use std::marker::Model;

/// Entries in the order of their ranks, no two of one rank (`entries`), and whether there is room for one more
/// (`has_room`). They stand in blocks of 256 at most, which a search passes in one step each if none of their entries
/// can qualify.
#[derive(Drop)]
pub struct RankedBlocks {
    blocks: Vec<Block>,
    spare: Option<Vec<Entry>>,
    len: usize,
    // How many blocks searches have read for nothing.
    misses: Cell<u64>,
    alloc: Global,
}

impl Model for RankedBlocks {
    ghost use Rattle.hx_ranked.specs.Contents.{Contents, contents_of, AreRanked};

    ghost Value = { Contents };

    ghost view = { λ b. contents_of b.blocks b.spare b.len };

    ghost invariant = { λ b. AreRanked b.blocks b.spare b.len };
}

impl RankedBlocks {
    /// No entries, and no memory yet: call `reserve` before the first `insert`.
    pub fn new(alloc: Global) -> Self
        ensures { result.entries ≡ [] }
    {
        RankedBlocks {
            blocks: Vec::new(alloc),
            spare: None,
            len: 0,
            misses: Cell::new(0),
            alloc,
        }
    }

    /// The number of entries.
    pub fn len(&self) -> usize
        ensures { result ≡ length self.now.entries }
    {
        self.len
    }

    /// The entry of a rank, if there is one.
    pub fn get(&self, rank: u128) -> Option<Entry>
        ensures { result ≡ find (has_rank rank) self.now.entries }
    {
        blocks::get(&self.blocks, rank)
    }

    /// The first entry of the ranks from `from` to `last`, both included, whose least execution is no more than `left`
    /// shares and which has `minimum` shares or more.
    pub fn first_within(&self, from: u128, last: u128, left: u32, minimum: u32) -> Option<Entry>
        ensures exact { result ≡ first_within_of from last left minimum self.now.entries }
        ensures rising { IsRising self.now.entries }
    {
        if self.len == 0 {
            return None;
        }
        blocks::first_within(&self.blocks, &self.misses, from, last, left, minimum)
    }

    /// How many blocks `first_within` has read for nothing, since their summaries did not rule them out. It says what the
    /// searches have cost; contracts promise nothing of it.
    pub fn misses(&self) -> u64 {
        self.misses.get()
    }

    /// The first entry that has a rank or a later one.
    pub fn first_from(&self, rank: u128) -> Option<Entry>
        ensures exact { result ≡ find (is_from rank) self.now.entries }
        ensures rising { IsRising self.now.entries }
    {
        blocks::first_from(&self.blocks, rank)
    }

    /// Makes room for one more entry. It fails with `NoMemory` if memory is refused: the entries are as before then.
    /// It cannot fail if there is room.
    pub fn reserve(&mut self) -> Result<(), NoMemory>
        ensures entries { self.new.entries ≡ self.old.entries }
        ensures room { OnOk result (self.new.has_room ≡ true) }
        ensures retained { self.old.has_room ≡ true → IsOk result }
    {
        if self.len == usize::MAX {
            return Err(NoMemory);
        }
        if self.spare.is_none() {
            self.spare = Some(Vec::with_capacity(self.alloc, CAPACITY)?);
        }
        self.blocks.reserve(1)?;
        Ok(())
    }

    /// Inserts an entry at its rank. There must be room, and no entry of that rank. It cannot fail.
    pub fn insert(&mut self, entry: Entry)
        requires room { self.old.has_room ≡ true }
        requires free { IsFree entry.rank self.old.entries }
        ensures { self.new.entries ≡ inserted entry self.old.entries }
    {
        blocks::insert(&mut self.blocks, &mut self.spare, entry);
        self.len += 1;
    }

    /// Removes the entry of a rank and returns it, if there is one. It needs no memory, and room stays.
    pub fn remove(&mut self, rank: u128) -> Option<Entry>
        ensures found { result ≡ find (has_rank rank) self.old.entries }
        ensures entries { self.new.entries ≡ without rank self.old.entries }
        ensures room { self.old.has_room ≡ true → self.new.has_room ≡ true }
    {
        let entry = blocks::remove(&mut self.blocks, rank);
        if entry.is_some() {
            self.len -= 1;
        }
        entry
    }

    /// Gives the entry of a rank another least execution and other open shares, if there is one. It needs no memory.
    pub fn renew(&mut self, rank: u128, least: u32, shares: u32)
        ensures entries { self.new.entries ≡ renewed rank least shares self.old.entries }
        ensures room { self.new.has_room ≡ self.old.has_room }
    {
        blocks::renew(&mut self.blocks, rank, least, shares);
    }
}
