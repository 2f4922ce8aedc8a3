//! Sixteen bytes at once.
ghost use Rattle.std.specs.Prelude.{◌≡◌, ◌++◌, ◌/◌, ◌%◌, ◌<◌, ◌≢◌, ℕ, List, ◌↔◌, map, slice_index, IsTrue, IfSome, IfNone};
ghost use Rattle.hx_tape_lines.specs.Digits.{value_of, AreValues, joined};
ghost use Rattle.hex.specs.Hex.{encode_lower, lower_digits, IsBytes};

use std::simd::prelude::*;

// The digits, by their values.
const DIGITS: [u8; 16] = *b"0123456789abcdef";

// The first digit of each byte.
fn high_digits(bytes: u8x16) -> u8x16
    ensures { result ≡ map (λ b. slice_index lower_digits (b / 16)) bytes }
{
    u8x16::from_array(DIGITS).swizzle_dyn_within::<16>(bytes >> u8x16::splat(4))
}

// The second digit of each byte.
fn low_digits(bytes: u8x16) -> u8x16
    ensures { result ≡ map (λ b. slice_index lower_digits (b % 16)) bytes }
{
    u8x16::from_array(DIGITS).swizzle_dyn_within::<16>(bytes & u8x16::splat(15))
}

// The digits of sixteen bytes: of the first eight, and of the last eight.
fn digits(bytes: u8x16) -> (u8x16, u8x16)
    ensures { result.0 ++ result.1 ≡ encode_lower bytes }
{
    high_digits(bytes).interleave(low_digits(bytes))
}

/// The digits of sixteen bytes.
pub fn block_digits(block: [u8; 16]) -> [u8; 32]
    ensures { result ≡ encode_lower block }
{
    let (front, back) = digits(u8x16::from_array(block));
    let mut digits = [0; 32];
    digits[..16].copy_from_slice(&front.to_array());
    digits[16..].copy_from_slice(&back.to_array());
    digits
}

// The value of each digit, and 16 of what is none.
fn values(codes: u8x16) -> u8x16
    ensures { result ≡ map value_of codes }
{
    let numbers = codes - u8x16::splat(b'0');
    let letters = codes - u8x16::splat(b'a');
    let of_letters = letters
        .simd_lt(u8x16::splat(6))
        .select(letters + u8x16::splat(10), u8x16::splat(16));
    numbers
        .simd_lt(u8x16::splat(10))
        .select(numbers, of_letters)
}

// Whether all are values of digits.
fn are_values(values: u8x16) -> bool
    ensures { IsTrue result ↔ AreValues values }
{
    !values.simd_ge(u8x16::splat(16)).any()
}

// The bytes of values, two for each.
fn joined(front: u8x16, back: u8x16) -> u8x16
    ensures { result ≡ joined (front ++ back) }
{
    let (high, low) = front.deinterleave(back);
    high * u8x16::splat(16) + low
}

/// The bytes of thirty-two digits, or none if one of them is no digit.
pub fn block_bytes(digits: [u8; 32]) -> Option<[u8; 16]>
    ensures some { IfSome result (λ bytes. (digits ≡ encode_lower bytes) × IsBytes bytes) }
    ensures none { IfNone result ((others : List ℕ) → IsBytes others
        → digits ≢ encode_lower others) }
{
    let front = values(u8x16::from_slice(&digits[..16]));
    let back = values(u8x16::from_slice(&digits[16..]));
    if !are_values(front) || !are_values(back) {
        return None;
    }
    Some(joined(front, back).to_array())
}
