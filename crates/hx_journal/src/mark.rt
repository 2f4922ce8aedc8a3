//! The lines that end a block: `#OFFSET SIZE PREVIOUS SUM`, four numbers in decimal.
ghost use Rattle.std.specs.Prelude.{◌≡◌, length, true, IfOk, OnOk};
ghost use Rattle.hx_journal.specs.Lines.{IsLine};
ghost use Rattle.hx_journal.specs.Records.{is_mark};
ghost use Rattle.hx_journal.specs.Marks.{mark_of};

use crate::sum::crc32;
use hx_units::{read_number, split_once};
use itoa::Buffer;
use std::alloc::AllocError;

/// Spells the line that ends a block, over what the vector has, and returns the block's sum: that
/// of its lines and of the line itself up to the sum. `first_number` is the number of the block's
/// first record in the day, and `previous` the sum of the block before.
pub fn spell_mark(
    mark: &mut Vec<u8>,
    first_number: u64,
    lines: &[u8],
    previous: u32,
) -> Result<u32, AllocError>
    ensures spelled { IfOk result (λ sum.
        mark.new.items ≡ mark_of first_number (length lines.now) previous sum) }
    ensures is_line { OnOk result (IsLine mark.new.items) }
    ensures is_mark { OnOk result (is_mark mark.new.items ≡ true) }
{
    let mut buffer = Buffer::new();
    mark.clear();
    mark.push(b'#')?;
    mark.extend_from_slice(buffer.format(first_number).as_bytes())?;
    mark.push(b' ')?;
    mark.extend_from_slice(buffer.format(lines.len()).as_bytes())?;
    mark.push(b' ')?;
    mark.extend_from_slice(buffer.format(previous).as_bytes())?;
    mark.push(b' ')?;
    let sum = crc32(crc32(0, lines), mark);
    mark.extend_from_slice(buffer.format(sum).as_bytes())?;
    Ok(sum)
}

/// Whether a line ends a block whose own sum is right, of the text in front of it.
pub fn ends_whole_block(front: &[u8], line: &[u8]) -> bool {
    match read_mark(line) {
        Some((size, sum, signed)) => match front.len().checked_sub(size) {
            Some(from) => crc32(crc32(0, &front[from..]), signed) as u64 == sum,
            None => false,
        },
        None => false,
    }
}

// Of a mark: the size of its block, its sum, and what of the line the sum is of.
fn read_mark(line: &[u8]) -> Option<(usize, u64, &[u8])> {
    let numbers = line.strip_prefix(b"#")?;
    let (_first_number, numbers) = split_once(numbers, b' ')?;
    let (size, numbers) = split_once(numbers, b' ')?;
    let (_previous, sum) = split_once(numbers, b' ')?;
    let signed = line.get(..line.len() - sum.len())?;
    Some((read_number(size)? as usize, read_number(sum)?, signed))
}
