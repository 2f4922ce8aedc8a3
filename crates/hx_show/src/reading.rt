//! The words of a line: numbers in decimal, and bytes in hexadecimal.
ghost use Rattle.std.specs.Prelude.{◌≡◌, Some, None, IfSome, IfNone, IfOk, List, ℕ};
ghost use Rattle.std.specs.List.{list_all};
ghost use Rattle.hx_show.specs.Lines.{cut, number_of, is_digit, bytes_of};

use hex::FromHexError;
use hx_units::{NoMemory, read_number, split_once};
use std::alloc::Global;

// The most digits of a message: those of 1,023 bytes.
const MOST_DIGITS: usize = 2046;

/// What comes before the first space, and after it.
pub fn cut(text: &[u8]) -> Option<(&[u8], &[u8])>
    ensures some { IfSome result (λ p. cut 32 text.now ≡ Some (p.0.now, p.1.now)) }
    ensures none { IfNone result (cut 32 text.now ≡ None) }
{
    split_once(text, b' ')
}

/// The number below 10^14 that a text is in decimal, without noughts in front.
pub fn number_of(text: &[u8]) -> Option<u64>
    ensures { result ≡ number_of text.now }
{
    read_number(text)
}

// Whether all are hexadecimal digits in lower case.
fn are_digits(text: &[u8]) -> bool
    ensures { result ≡ list_all is_digit text.now }
{
    text.iter().all(|b| matches!(b, b'0'..=b'9' | b'a'..=b'f'))
}

/// The 1 to 1,023 bytes that a text is in lower case hexadecimal. It takes memory.
pub fn bytes_of(alloc: Global, digits: &[u8]) -> Result<Option<Vec<u8>>, NoMemory>
    ensures some { IfOk result (λ o. IfSome o (λ v. bytes_of digits.now ≡ Some v.items)) }
    ensures none { IfOk result (λ o. IfNone o (bytes_of digits.now ≡ None)) }
{
    if digits.is_empty() {
        return Ok(None);
    }
    if digits.len() > MOST_DIGITS {
        return Ok(None);
    }
    if !are_digits(digits) {
        return Ok(None);
    }
    match hex::decode(alloc, digits) {
        Ok(bytes) => Ok(Some(bytes)),
        Err(FromHexError::OutOfMemory) => Err(NoMemory),
        Err(
            FromHexError::InvalidHexCharacter { .. }
            | FromHexError::OddLength
            | FromHexError::InvalidStringLength,
        ) => Ok(None),
    }
}
