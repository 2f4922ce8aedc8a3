//! Bytes in hexadecimal: two lower case digits for each. Sixteen bytes go at once, by vectors, from the last ones on;
//! those that are left over go once more with those after them, or one by one if all are fewer.
ghost use Rattle.std.specs.Prelude.{◌≡◌, ◌≢◌, ◌≤◌, ◌<◌, ◌+◌, ◌*◌, ◌/◌, ◌%◌, ◌++◌, [], ℕ, List, true, false, length, drop, IfSome, IfNone, IfOk, slice_index};
ghost use Rattle.hx_tape_lines.specs.Digits.{AreWritten, AreRead};
ghost use Rattle.hex.specs.Hex.{encode_lower, lower_digits, IsBytes};

use crate::vectors::{block_bytes, block_digits};
use hx_units::fields::array_at;
use std::alloc::AllocError;

/// Writes the digits of some bytes so that they end at `end`, and returns where they start.
pub fn write_bytes(bytes: &[u8], text: &mut [u8], end: usize) -> usize
    requires { (2 * length bytes.now ≤ end) × (end ≤ length text.old) }
    ensures start { result + 2 * length bytes.now ≡ end }
    ensures written { drop result text.new ≡ encode_lower bytes.now ++ drop end text.old }
{
    let start = end - 2 * bytes.len();
    if bytes.len() < 16 {
        write_blocks::<1, 2>(bytes, text, start);
        return start;
    }
    if write_blocks::<16, 32>(bytes, text, start) > 0 {
        // Some of the first sixteen are left: their digits are written once more with those of the others.
        write_block::<16, 32>(bytes, text, start, 0);
    }
    start
}

// Writes the digits of whole blocks of the bytes, the last ones first, and returns how many bytes are left in front. The
// digits of them all would start at `start`.
fn write_blocks<const N: usize, const M: usize>(
    bytes: &[u8],
    text: &mut [u8],
    start: usize,
) -> usize
    requires block { (0 < N) × (N ≤ 16) × (M ≡ 2 * N) }
    requires room { start + 2 * length bytes.now ≤ length text.old }
    ensures few { (result < N) × (result ≤ length bytes.now) }
    ensures written { AreWritten bytes.now result start text.new
        (drop (start + 2 * length bytes.now) text.old) }
{
    let mut left = bytes.len();
    while left >= N {
        left -= N;
        write_block::<N, M>(bytes, text, start, left);
    }
    left
}

// Writes the digits of the block that begins at an index of the bytes, if those after it are written.
fn write_block<const N: usize, const M: usize>(
    bytes: &[u8],
    text: &mut [u8],
    start: usize,
    index: usize,
)
    requires block { (N ≤ 16) × (M ≡ 2 * N) }
    requires within { index + N ≤ length bytes.now }
    requires room { start + 2 * length bytes.now ≤ length text.old }
    ensures { (later : List ℕ) → AreWritten bytes.now (index + N) start text.old later
        → AreWritten bytes.now index start text.new later }
{
    let at = start + 2 * index;
    text[at..at + M].copy_from_slice(&digits_of::<N, M>(array_at(bytes, index)));
}

// The digits of a block of at most sixteen bytes, which are those in front of sixteen.
fn digits_of<const N: usize, const M: usize>(bytes: [u8; N]) -> [u8; M]
    requires { (N ≤ 16) × (M ≡ 2 * N) }
    ensures { result ≡ encode_lower bytes.entry }
{
    let mut block = [0; 16];
    block[..N].copy_from_slice(&bytes);
    array_at(&block_digits(block), 0)
}

/// Reads the bytes of a text of such digits into a buffer, over its former content, and returns whether it is one.
pub fn read_bytes(room: &mut Vec<u8>, text: &[u8]) -> Result<bool, AllocError>
    ensures yes { IfOk result (λ found. found ≡ true
        → (text.now ≡ encode_lower room.new.items) × IsBytes room.new.items) }
    ensures no { IfOk result (λ found. found ≡ false
        → (bytes : List ℕ) → IsBytes bytes → text.now ≢ encode_lower bytes) }
{
    if text.len() % 2 > 0 {
        return Ok(false);
    }
    room.resize(text.len() / 2, 0)?;
    Ok(read_all(text, room))
}

// Reads the bytes of the digits, the last ones first, and returns whether all are digits.
fn read_all(text: &[u8], bytes: &mut [u8]) -> bool
    requires { length text.now ≡ 2 * length bytes.old }
    ensures yes { result ≡ true → (text.now ≡ encode_lower bytes.new) × IsBytes bytes.new }
    ensures no { result ≡ false → (others : List ℕ) → IsBytes others
        → text.now ≢ encode_lower others }
{
    if bytes.len() < 16 {
        return read_into(text, bytes);
    }
    let mut left = bytes.len();
    while left >= 16 {
        left -= 16;
        if !read_block(text, bytes, left) {
            return false;
        }
    }
    if left == 0 {
        return true;
    }
    // Some of the first sixteen are left: they are read with those after them, which are read once more.
    read_block(text, bytes, 0)
}

// Reads the sixteen bytes that begin at an index, if those after them are read, and returns whether their digits are
// digits.
fn read_block(text: &[u8], bytes: &mut [u8], index: usize) -> bool
    requires size { length text.now ≡ 2 * length bytes.old }
    requires within { index + 16 ≤ length bytes.old }
    ensures yes { result ≡ true → AreRead text.now (index + 16) bytes.old
        → AreRead text.now index bytes.new }
    ensures no { result ≡ false → (others : List ℕ) → IsBytes others
        → text.now ≢ encode_lower others }
{
    let Some(block) = block_bytes(array_at(text, 2 * index)) else {
        return false;
    };
    bytes[index..index + 16].copy_from_slice(&block);
    true
}

// Reads the bytes of the digits, and returns whether all are digits. It reads to the end in any case.
fn read_into(text: &[u8], bytes: &mut [u8]) -> bool
    requires { length text.now ≡ 2 * length bytes.old }
    ensures all { result ≡ true → text.now ≡ encode_lower bytes.new }
    ensures none { result ≡ false → (others : List ℕ) → IsBytes others
        → text.now ≢ encode_lower others }
    ensures are_bytes { IsBytes bytes.new }
{
    let mut are_digits = true;
    for i in 0..bytes.len() {
        let high = value_of(text[2 * i]);
        let low = value_of(text[2 * i + 1]);
        are_digits &= (high < 16) & (low < 16);
        bytes[i] = high.wrapping_mul(16).wrapping_add(low);
    }
    are_digits
}

// The value of a digit, and 16 of what is none.
fn value_of(code: u8) -> u8
    ensures digit { result < 16 → code ≡ slice_index lower_digits result }
    ensures none { 16 ≤ result → (d : ℕ) → d < 16 → code ≢ slice_index lower_digits d }
{
    match code {
        b'0'..=b'9' => code - b'0',
        b'a'..=b'f' => code - b'a' + 10,
        _ => 16,
    }
}
