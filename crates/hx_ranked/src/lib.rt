//! An ordered index in blocks: entries in the order of their ranks. Each block knows the smallest least execution and the
//! most shares of its entries, so a search for the next entry that can trade passes most blocks in one step each.
#![tactic(auto)]

mod block;
mod blocks;
mod entries;
mod entry;
mod ranked;

pub use entry::Entry;
pub use ranked::RankedBlocks;
