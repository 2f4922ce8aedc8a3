//! Numbers in decimal.
ghost use Rattle.std.specs.Prelude.{◌≡◌, ◌≢◌, ◌≤◌, ◌<◌, ◌^◌, ◌++◌, ◌∷◌, ℕ, List, OnOk, OnErr, IfSome, IfNone, true, false, length, get_or, slice_index, take};
ghost use Rattle.std.specs.Fmt.{decimal};
ghost use Rattle.std.specs.Char.{is_ascii_digit};
ghost use Rattle.std.specs.Str.Parse.{digits_value, AllDigits};
ghost use Rattle.hx_units.specs.Letters.{space};

use hx_units::fields::array_at;
use itoa::Buffer;
use std::alloc::AllocError;

/// Appends the digits of a number, or none of them.
pub fn write_number(text: &mut Vec<u8>, number: u64) -> Result<(), AllocError>
    ensures ok { OnOk result (text.new.items ≡ text.old.items ++ decimal number) }
    ensures err { OnErr result (text.new.items ≡ text.old.items) }
{
    let mut buffer = Buffer::new();
    text.extend_from_slice(buffer.format(number).as_bytes())
}

/// How many digits a number has.
#[tactic(auto, using(crate::proofs::DigitCounts::more, crate::proofs::Lines::decimal_fits))]
pub fn digit_count(number: u64) -> usize
    ensures { result ≡ length (decimal number) }
{
    let mut left = number;
    let mut count = 0;
    while left >= 10_000 {
        left /= 10_000;
        count += 4;
    }
    count + few_digits(left)
}

// The same of a number of four digits at most.
#[tactic(auto, using(crate::proofs::DigitCounts::one, crate::proofs::DigitCounts::two, crate::proofs::DigitCounts::three, crate::proofs::DigitCounts::four))]
fn few_digits(number: u64) -> usize
    requires { number < 10_000 }
    ensures { result ≡ length (decimal number) }
{
    if number < 100 {
        return if number < 10 { 1 } else { 2 };
    }
    if number < 1000 { 3 } else { 4 }
}

// The most digits of a number that is read.
const MOST_DIGITS: usize = 14;

/// The number in front of the first space, and what follows the space; or none if no number of at most 14 digits is
/// there, the first of them no 0 if there are more.
#[inline(always)]
pub fn split_number(text: &[u8]) -> Option<(u64, &[u8])>
    ensures some { IfSome result (λ p. (p.0 < 10 ^ 14)
        × (text.now ≡ decimal p.0 ++ space ∷ p.1.now)) }
    ensures none { IfNone result ((n : ℕ) (rest : List ℕ) → n < 10 ^ 14
        → text.now ≢ decimal n ++ space ∷ rest) }
{
    // One digit takes no loop, and no call.
    if let [digit @ b'0'..=b'9', b' ', ..] = text {
        return whole(text, 1, u64::from(*digit - b'0'));
    }
    split_from(text, 0, 0)
}

/// The same, sooner if the number has eight digits or more, and soonest if it has fourteen.
pub fn split_long_number(text: &[u8]) -> Option<(u64, &[u8])>
    ensures some { IfSome result (λ p. (p.0 < 10 ^ 14)
        × (text.now ≡ decimal p.0 ++ space ∷ p.1.now)) }
    ensures none { IfNone result ((n : ℕ) (rest : List ℕ) → n < 10 ^ 14
        → text.now ≢ decimal n ++ space ∷ rest) }
{
    if let Some(number) = fourteen_digits(text) {
        return whole(text, MOST_DIGITS, number);
    }
    match first_eight(text) {
        Some(number) => split_from(text, 8, number),
        None => split_number(text),
    }
}

// The same, if the digits before the index `start` are read and write this number.
fn split_from(text: &[u8], start: usize, front: u64) -> Option<(u64, &[u8])>
    requires start { start ≤ 8 }
    requires digits { AllDigits 10 (take start text.now) }
    requires value { front ≡ digits_value 10 (take start text.now) }
    ensures some { IfSome result (λ p. (p.0 < 10 ^ 14)
        × (text.now ≡ decimal p.0 ++ space ∷ p.1.now)) }
    ensures none { IfNone result ((n : ℕ) (rest : List ℕ) → n < 10 ^ 14
        → text.now ≢ decimal n ++ space ∷ rest) }
{
    let mut number = front;
    for at in start..MOST_DIGITS + 1 {
        let byte = *text.get(at)?;
        if !byte.is_ascii_digit() {
            return whole(text, at, number);
        }
        number = number * 10 + u64::from(byte - b'0');
    }
    None
}

// The number that the first fourteen bytes write, if they are digits and a space follows them, as at a time of the day.
// They are read as two words of eight, which share two digits.
fn fourteen_digits(text: &[u8]) -> Option<u64>
    ensures space { IfSome result (λ _. (14 < length text.now)
        × (slice_index text.now 14 ≡ space)) }
    ensures number { IfSome result (λ n. (n ≡ digits_value 10 (take 14 text.now))
        × AllDigits 10 (take 14 text.now)) }
{
    if *text.get(MOST_DIGITS)? != b' ' {
        return None;
    }
    let front = eight_digits(array_at(text, 0))?;
    let back = eight_digits(array_at(text, 6))?;
    Some(front * 1_000_000 + back % 1_000_000)
}

// The number that the first eight bytes write, if they are digits. It is not inlined: in its caller it would share its
// word with `fourteen_digits`, and the compiler would then test that word byte by byte.
#[inline(never)]
fn first_eight(text: &[u8]) -> Option<u64>
    ensures { IfSome result (λ n. (n ≡ digits_value 10 (take 8 text.now))
        × AllDigits 10 (take 8 text.now)) }
{
    if text.len() < 8 {
        return None;
    }
    eight_digits(array_at(text, 0))
}

// The number that eight digits write, if all are digits. They are the bytes of one word, the first digit its lowest
// byte: each two of them are joined at once, and then twice two pairs.
fn eight_digits(block: [u8; 8]) -> Option<u64>
    ensures { IfSome result (λ n. (n ≡ digits_value 10 block) × AllDigits 10 block) }
{
    if !are_digits(block) {
        return None;
    }
    let values = u64::from_le_bytes(block) - 0x3030_3030_3030_3030;
    let pairs = values * 10 + values / 0x100;
    let front = pairs % 0x100 * 100 + pairs / 0x1_0000 % 0x100;
    let back = pairs / 0x1_0000_0000 % 0x100 * 100 + pairs / 0x1_0000_0000_0000 % 0x100;
    Some(front * 10_000 + back)
}

// Whether all are digits. It looks at all of them in any case.
fn are_digits(block: [u8; 8]) -> bool
    ensures { result ≡ true → (i : ℕ) → i < 8
        → (48 ≤ slice_index block i) × (slice_index block i ≤ 57) }
{
    let mut are_digits = true;
    for i in 0..8 {
        are_digits &= (b'0' <= block[i]) & (block[i] <= b'9');
    }
    are_digits
}

// The number that the digits before the index `at` write, if a space is there, and what follows the space.
fn whole(text: &[u8], at: usize, number: u64) -> Option<(u64, &[u8])>
    requires here { (at < length text.now) × (at ≤ 14) }
    requires digits { AllDigits 10 (take at text.now) }
    requires value { number ≡ digits_value 10 (take at text.now) }
    requires ends { is_ascii_digit (get_or text.now at 0) ≡ false }
    ensures some { IfSome result (λ p. (p.0 < 10 ^ 14)
        × (text.now ≡ decimal p.0 ++ space ∷ p.1.now)) }
    ensures none { IfNone result ((n : ℕ) (rest : List ℕ) → n < 10 ^ 14
        → text.now ≢ decimal n ++ space ∷ rest) }
{
    if text[at] != b' ' || at == 0 {
        return None;
    }
    if text[0] == b'0' && at > 1 {
        return None;
    }
    Some((number, &text[at + 1..]))
}
