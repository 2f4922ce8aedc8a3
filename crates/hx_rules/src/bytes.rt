//! The bytes of messages, each message's in one block of memory.
ghost use Rattle.std.specs.Prelude.{◌≡◌, ◌<◌, [], length, true, IfOk, IfErr, IfSome, IfNone};
ghost use Rattle.std.specs.Arc.{arc_value};
ghost use Rattle.hx_rules.specs.Blocks.{most_in_block};

use arrayvec::ArrayVec;
use hx_units::NoMemory;
use std::alloc::Global;
use std::marker::Model;
use std::sync::Arc;

// The most bytes that lie in one block. An Enter Order of OUCH 4.2, the longest message of a member, has 49.
const MOST: usize = 52;

// The block that holds the bytes, with the count of its owners.
#[derive(Drop)]
enum Block {
    // There are none.
    Empty,
    // In the block itself.
    Short(Arc<ArrayVec<u8, 52>>),
    // More than those, with one more indirection.
    Long(Arc<Vec<u8>>),
}

/// The bytes of a message, as they came. Contracts see the list of them. Copies share it: a day stores the bytes of an
/// event once, in however many lists the event is.
#[derive(Drop)]
pub struct Bytes {
    block: Block,
}

impl Model for Bytes {
    ghost use Rattle.std.specs.Prelude.{ℕ, List};
    ghost use Rattle.hx_rules.specs.Blocks.{bytes_of};

    ghost Value = { List ℕ };

    ghost view = { λ b. bytes_of b.block };
}

impl Bytes {
    /// No bytes.
    pub fn none() -> Bytes
        ensures { result ≡ [] }
    {
        Bytes {
            block: Block::Empty,
        }
    }

    /// These bytes. `NoMemory` if there is no room for them: none take no memory.
    pub fn of(alloc: Global, items: &[u8]) -> Result<Bytes, NoMemory>
        ensures bytes { IfOk result (λ bytes. bytes ≡ items.now) }
        ensures memory { IfErr result (λ _. 0 < length items.now) }
    {
        if items.is_empty() {
            return Ok(Bytes::none());
        }
        let block = match short_of(items) {
            Some(short) => Block::Short(Arc::new(alloc, short)?),
            None => Block::Long(Arc::new(alloc, Vec::from_slice(alloc, items)?)?),
        };
        Ok(Bytes { block })
    }

    /// These bytes instead of others, which take no more memory if they fit in the memory of those and nobody shares
    /// it.
    pub fn replaced_by(self, alloc: Global, items: &[u8]) -> Result<Bytes, NoMemory>
        ensures bytes { IfOk result (λ bytes. bytes ≡ items.now) }
        ensures memory { IfErr result (λ _. 0 < length items.now) }
    {
        match self.block {
            Block::Short(mut short) => {
                if write_short(&mut short, items) {
                    return Ok(Bytes {
                        block: Block::Short(short),
                    });
                }
            }
            Block::Long(mut long) => {
                if write_long(&mut long, items) {
                    return Ok(Bytes {
                        block: Block::Long(long),
                    });
                }
            }
            Block::Empty => {}
        }
        Bytes::of(alloc, items)
    }

    /// The bytes, as a slice.
    pub fn as_slice(&self) -> &[u8]
        ensures { result.now ≡ self.now }
    {
        match &self.block {
            Block::Empty => &[],
            Block::Short(short) => short.as_slice(),
            Block::Long(long) => long.as_slice(),
        }
    }

    /// The same bytes, shared. None take no memory.
    pub(crate) fn share(&self) -> Result<Bytes, NoMemory>
        ensures equal { IfOk result (λ bytes. bytes ≡ self.now) }
        ensures memory { IfErr result (λ _. 0 < length self.now) }
    {
        let block = match &self.block {
            Block::Short(short) if !short.is_empty() => Block::Short(Arc::try_clone(short)?),
            Block::Long(long) if !long.is_empty() => Block::Long(Arc::try_clone(long)?),
            _ => Block::Empty,
        };
        Ok(Bytes { block })
    }
}

// Bytes that are in one block, if they are not too many.
fn short_of(items: &[u8]) -> Option<ArrayVec<u8, 52>>
    ensures some { IfSome result (λ short. short.items ≡ items.now) }
    ensures none { IfNone result (most_in_block < length items.now) }
{
    let mut short = ArrayVec::new();
    match short.try_extend_from_slice(items) {
        Ok(()) => Some(short),
        Err(_) => None,
    }
}

// Writes bytes into a block over those there, if nobody shares it and they are not too many, and returns whether it
// did. If not, the block's bytes are of no use.
fn write_short(short: &mut Arc<ArrayVec<u8, 52>>, items: &[u8]) -> bool
    ensures { result ≡ true → (arc_value short.new).items ≡ items.now }
{
    let Some(index) = Arc::get_mut(short) else {
        return false;
    };
    index.clear();
    index.try_extend_from_slice(items).is_ok()
}

// The same of a longer block. Bytes that are few go into no such block.
fn write_long(long: &mut Arc<Vec<u8>>, items: &[u8]) -> bool
    ensures { result ≡ true → (arc_value long.new).items ≡ items.now }
{
    if items.len() <= MOST {
        return false;
    }
    let Some(index) = Arc::get_mut(long) else {
        return false;
    };
    index.clear();
    index.extend_from_slice(items).is_ok()
}
