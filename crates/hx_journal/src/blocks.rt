//! Whether a file's blocks are as they were written.
ghost use Rattle.std.specs.Prelude.{ℕ, IfErr};
ghost use Rattle.hx_journal.specs.Openings.{IsOpenCause, IsOtherDay};

use crate::OpenError;
use crate::mark::{ends_whole_block, spell_mark};
use crate::sum::crc32;
use std::alloc::Global;

/// Checks that the blocks of a file, after its first line, are as they were written, and that no
/// whole block stands after them. Returns the sum of the last block. The error names the first byte
/// of the first block that is not as it was written, or of what stands after them all.
pub fn check(alloc: Global, first: &[u8], blocks: &[u8], after: &[u8]) -> Result<u32, OpenError>
    ensures cause { (before now : ℕ) → IfErr result (λ e. IsOpenCause before now e) }
    ensures day { IfErr result (λ e. IsOtherDay e → ⊥) }
{
    let offset = first.len() + 1;
    let sum = match follow(alloc, blocks, offset, crc32(0, first)) {
        Ok(sum) => sum,
        Err(error) => return Err(error),
    };
    if whole_blocks(after) > 0 {
        let at = offset.saturating_add(blocks.len());
        return Err(OpenError::Damaged { at });
    }
    Ok(sum)
}

// Follows the chain of blocks in a text that stands at an offset of a file, after a line with this
// sum, and returns the sum of the last block. The error names the first byte of the first block
// that is not as it was written.
fn follow(alloc: Global, text: &[u8], offset: usize, sum: u32) -> Result<u32, OpenError>
    ensures cause { (before now : ℕ) → IfErr result (λ e. IsOpenCause before now e) }
    ensures day { IfErr result (λ e. IsOtherDay e → ⊥) }
{
    let mut chain = Chain {
        start: 0,
        first: 1,
        sum,
    };
    let mut mark = Vec::new(alloc);
    let mut start = 0;
    let mut records = 0u64;
    for (i, b) in text.iter().enumerate() {
        if *b != b'\n' {
            continue;
        }
        let line = text.get(start..i).unwrap_or(&[]);
        if line.starts_with(b"#") {
            let lines = text.get(chain.start..start).unwrap_or(&[]);
            let sum = spell_mark(&mut mark, chain.first, lines, chain.sum)?;
            if mark.as_slice() != line {
                let at = offset.saturating_add(chain.start);
                return Err(OpenError::Damaged { at });
            }
            chain = Chain {
                start: i + 1,
                first: chain.first.saturating_add(records),
                sum,
            };
            records = 0;
        } else {
            records = records.saturating_add(1);
        }
        start = i + 1;
    }
    Ok(chain.sum)
}

// How far a chain of blocks was followed: where the next block starts, the number of its first
// record in the day, and the sum of the block before.
#[derive(Drop)]
struct Chain {
    start: usize,
    first: u64,
    sum: u32,
}

/// How many whole blocks end in a text, each one by its own sum.
pub fn whole_blocks(text: &[u8]) -> usize {
    let mut blocks = 0usize;
    let mut start = 0;
    for (i, b) in text.iter().enumerate() {
        if *b == b'\n' {
            let front = text.get(..start).unwrap_or(&[]);
            let line = text.get(start..i).unwrap_or(&[]);
            if ends_whole_block(front, line) {
                blocks = blocks.saturating_add(1);
            }
            start = i + 1;
        }
    }
    blocks
}
