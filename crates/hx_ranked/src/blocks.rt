//! Blocks of entries, one after another.
ghost use Rattle.std.specs.Prelude.{◌≡◌, ◌+◌, ◌<◌, ◌≤◌, ℕ, None, [], length, take, drop, slice_index_or, slice_set, vec_len, vec_capacity, IsSome};
ghost use Rattle.std.specs.List.{find, insert as list_insert};
ghost use Rattle.hx_ranked.specs.Ranked.{Every, AreBlocks, flat, first_within_of, is_from, inserted, without, renewed, has_rank, IsFree, IsRising, IsSpare, first_rank, IsDense, Mends};

use crate::block::{Block, CAPACITY};
use crate::entry::Entry;
use std::cell::Cell;

// The index of the block to which a rank belongs, by binary search: the entries of the blocks before it rank before the
// rank, those of the blocks after it after the rank.
fn locate(blocks: &[Block], rank: u128) -> usize
    requires some { 0 < length blocks.now }
    requires blocks { AreBlocks blocks.now }
    ensures inside { result < length blocks.now }
    ensures before { Every (λ e. e.rank < rank) (flat (take result blocks.now)) }
    ensures after { Every (λ e. rank < e.rank) (flat (drop (result + 1) blocks.now)) }
{
    let mut low = 0;
    let mut high = blocks.len();
    while high - low > 1 {
        let middle = low + (high - low) / 2;
        if blocks[middle].first() <= rank {
            low = middle;
        } else {
            high = middle;
        }
    }
    low
}

// The index of the first block that may have an entry from a rank on.
fn start_of(blocks: &[Block], from: u128) -> usize
    requires { AreBlocks blocks.now }
    ensures inside { result ≤ length blocks.now }
    ensures passed { (last left minimum : ℕ)
        → first_within_of from last left minimum (flat (take result blocks.now)) ≡ None }
{
    if blocks.is_empty() {
        return 0;
    }
    locate(blocks, from)
}

/// The first entry from a rank to another that can trade `left` shares at most and `minimum` at least. Each block that is
/// read for nothing, since its summaries do not rule it out, counts as a miss.
pub fn first_within(
    blocks: &[Block],
    misses: &Cell<u64>,
    from: u128,
    last: u128,
    left: u32,
    minimum: u32,
) -> Option<Entry>
    requires { AreBlocks blocks.now }
    ensures { result ≡ first_within_of from last left minimum (flat blocks.now) }
{
    for at in start_of(blocks, from)..blocks.len() {
        let block = &blocks[at];
        if last < block.first() {
            return None;
        }
        if !block.may_qualify(left, minimum) {
            continue;
        }
        if let Some(entry) = block.first_within(from, last, left, minimum) {
            return Some(entry);
        }
        misses.set(misses.get().wrapping_add(1));
    }
    None
}

/// The first entry that has a rank or a later one.
pub fn first_from(blocks: &[Block], rank: u128) -> Option<Entry>
    requires { AreBlocks blocks.now }
    ensures { result ≡ find (is_from rank) (flat blocks.now) }
{
    if blocks.is_empty() {
        return None;
    }
    for at in locate(blocks, rank)..blocks.len() {
        let block = &blocks[at];
        if let Some(entry) = block.first_from(rank) {
            return Some(entry);
        }
    }
    None
}

/// The entry of a rank, if there is one.
pub fn get(blocks: &[Block], rank: u128) -> Option<Entry>
    requires { AreBlocks blocks.now }
    ensures { result ≡ find (has_rank rank) (flat blocks.now) }
{
    if blocks.is_empty() {
        return None;
    }
    let at = locate(blocks, rank);
    let block = &blocks[at];
    block.get(rank)
}

// Inserts an entry into the block at an index, to which its rank belongs and which is not full.
fn put(blocks: &mut Vec<Block>, at: usize, entry: Entry)
    requires blocks { AreBlocks blocks.old.items }
    requires inside { at < length blocks.old.items }
    requires before { Every (λ e. e.rank < entry.rank) (flat (take at blocks.old.items)) }
    requires after { Every (λ e. entry.rank < e.rank) (flat (drop (at + 1) blocks.old.items)) }
    requires room { length (slice_index_or blocks.old.items at []) < 256 }
    requires free { IsFree entry.rank (flat blocks.old.items) }
    ensures entries { flat blocks.new.items ≡ inserted entry (flat blocks.old.items) }
    ensures blocks { AreBlocks blocks.new.items }
    ensures dense { IsDense blocks.old.items → IsDense blocks.new.items }
{
    let block = &mut blocks[at];
    block.insert(entry);
}

// Splits the full block at an index into two, and returns the rank of the second's first entry.
fn halve(blocks: &mut Vec<Block>, at: usize, list: Vec<Entry>) -> u128
    requires inside { at < vec_len blocks.old }
    requires full { length (slice_index_or blocks.old.items at []) ≡ 256 }
    requires empty { list.items ≡ [] }
    requires capacity { 256 ≤ vec_capacity list }
    requires room { vec_len blocks.old < vec_capacity blocks.old }
    ensures blocks { let block = slice_index_or blocks.old.items at [] in blocks.new.items
        ≡ list_insert (slice_set blocks.old.items at (take 128 block)) (at + 1) (drop 128 block) }
    ensures first { let block = slice_index_or blocks.old.items at [] in
        result ≡ first_rank (drop 128 block) }
{
    let block = &mut blocks[at];
    let back = block.split(list);
    let first = back.first();
    let _put = blocks.insert(at + 1, back);
    first
}

/// Inserts an entry at its rank. If its block is full, half of that moves into the spare list, which becomes a block.
pub fn insert(blocks: &mut Vec<Block>, spare: &mut Option<Vec<Entry>>, entry: Entry)
    requires blocks { AreBlocks blocks.old.items }
    requires spare { IsSpare spare.old }
    requires list { IsSome spare.old }
    requires room { vec_len blocks.old < vec_capacity blocks.old }
    requires free { IsFree entry.rank (flat blocks.old.items) }
    ensures entries { flat blocks.new.items ≡ inserted entry (flat blocks.old.items) }
    ensures blocks { AreBlocks blocks.new.items }
    ensures spare { IsSpare spare.new }
    ensures dense { IsDense blocks.old.items → IsDense blocks.new.items }
{
    if blocks.is_empty() {
        let list = spare.take().unwrap();
        let _pushed = blocks.push(Block::single(list, entry));
        return;
    }
    let at = locate(blocks, entry.rank);
    if blocks[at].len() < CAPACITY {
        put(blocks, at, entry);
        return;
    }
    let list = spare.take().unwrap();
    if entry.rank < halve(blocks, at, list) {
        put(blocks, at, entry);
    } else {
        put(blocks, at + 1, entry);
    }
}

// Removes the entry of a rank from the block at an index, if it is there.
fn remove_entry(blocks: &mut Vec<Block>, at: usize, rank: u128) -> Option<Entry>
    requires inside { at < length blocks.old.items }
    requires sorted { IsRising (slice_index_or blocks.old.items at []) }
    ensures found { result ≡ find (has_rank rank) (slice_index_or blocks.old.items at []) }
    ensures blocks { blocks.new.items
        ≡ slice_set blocks.old.items at (without rank (slice_index_or blocks.old.items at [])) }
    ensures len { vec_len blocks.new ≡ vec_len blocks.old }
    ensures capacity { vec_capacity blocks.new ≡ vec_capacity blocks.old }
{
    let block = &mut blocks[at];
    block.remove(rank)
}

// Removes the entry of a rank from the block at an index, if it is there, and the block if it is empty then.
fn remove_and_prune(blocks: &mut Vec<Block>, at: usize, rank: u128) -> Option<Entry>
    requires blocks { AreBlocks blocks.old.items }
    requires inside { at < length blocks.old.items }
    requires before { Every (λ e. e.rank < rank) (flat (take at blocks.old.items)) }
    requires after { Every (λ e. rank < e.rank) (flat (drop (at + 1) blocks.old.items)) }
    ensures found { result ≡ find (has_rank rank) (flat blocks.old.items) }
    ensures entries { flat blocks.new.items ≡ without rank (flat blocks.old.items) }
    ensures blocks { AreBlocks blocks.new.items }
    ensures len { vec_len blocks.new ≤ vec_len blocks.old }
    ensures capacity { vec_capacity blocks.new ≡ vec_capacity blocks.old }
    ensures front { take at blocks.new.items ≡ take at blocks.old.items }
    ensures rest { IsDense blocks.old.items → IsDense (drop (at + 1) blocks.new.items) }
{
    let entry = remove_entry(blocks, at, rank);
    if blocks[at].len() == 0 {
        let _empty = blocks.remove(at);
    }
    entry
}

// Joins the block at an index with the next, if the two hold no more than half a block's capacity.
fn join_next(blocks: &mut Vec<Block>, at: usize)
    requires { AreBlocks blocks.old.items }
    ensures entries { flat blocks.new.items ≡ flat blocks.old.items }
    ensures blocks { AreBlocks blocks.new.items }
    ensures len { vec_len blocks.new ≤ vec_len blocks.old }
    ensures capacity { vec_capacity blocks.new ≡ vec_capacity blocks.old }
    ensures dense { Mends at blocks.old.items blocks.new.items }
{
    let len = blocks.len();
    if at >= len || len - at < 2 {
        return;
    }
    let (held, more) = (blocks[at].len(), blocks[at + 1].len());
    if held > CAPACITY / 2 || more > CAPACITY / 2 - held {
        return;
    }
    let next = blocks.remove(at + 1);
    let block = &mut blocks[at];
    block.append(&next);
}

/// Removes the entry of a rank, if there is one, and joins neighbours that have become small.
pub fn remove(blocks: &mut Vec<Block>, rank: u128) -> Option<Entry>
    requires { AreBlocks blocks.old.items }
    ensures found { result ≡ find (has_rank rank) (flat blocks.old.items) }
    ensures entries { flat blocks.new.items ≡ without rank (flat blocks.old.items) }
    ensures blocks { AreBlocks blocks.new.items }
    ensures len { vec_len blocks.new ≤ vec_len blocks.old }
    ensures capacity { vec_capacity blocks.new ≡ vec_capacity blocks.old }
    ensures dense { IsDense blocks.old.items → IsDense blocks.new.items }
{
    if blocks.is_empty() {
        return None;
    }
    let at = locate(blocks, rank);
    let entry = remove_and_prune(blocks, at, rank);
    join_next(blocks, at);
    if at > 0 {
        join_next(blocks, at - 1);
    }
    entry
}

/// Gives the entry of a rank another least execution and other shares, if there is one.
pub fn renew(blocks: &mut Vec<Block>, rank: u128, least: u32, shares: u32)
    requires { AreBlocks blocks.old.items }
    ensures entries { flat blocks.new.items ≡ renewed rank least shares (flat blocks.old.items) }
    ensures blocks { AreBlocks blocks.new.items }
    ensures len { vec_len blocks.new ≡ vec_len blocks.old }
    ensures capacity { vec_capacity blocks.new ≡ vec_capacity blocks.old }
    ensures dense { IsDense blocks.old.items → IsDense blocks.new.items }
{
    if blocks.is_empty() {
        return;
    }
    let at = locate(blocks, rank);
    let block = &mut blocks[at];
    block.renew(rank, least, shares);
}
