//! The digest of a setup, as a journal's first line has it.
ghost use Rattle.std.specs.Prelude.{◌≡◌};

use sha2::{Digest, Sha256};
use std::alloc::{AllocError, Global};

// The digits of hexadecimal.
const DIGITS: &[u8; 16] = b"0123456789abcdef";

/// The SHA-256 of the text of a setup, in hexadecimal; `standard` for the standard setup, which has no text.
pub fn digest_of(alloc: Global, setup: Option<&[u8]>) -> Result<Vec<u8>, AllocError> {
    let Some(text) = setup else {
        return Vec::from_slice(alloc, b"standard");
    };
    let mut word = Vec::new(alloc);
    for byte in Sha256::digest(text) {
        word.push(DIGITS[usize::from(byte >> 4)])?;
        word.push(DIGITS[usize::from(byte & 15)])?;
    }
    Ok(word)
}
