//! A message as six words: its length, its bytes and zeros, eight bytes a word, the most significant first.
ghost use Rattle.std.specs.Prelude.{◌≡◌, ℕ, ◌+◌, ◌*◌, ◌<◌, ◌≤◌, List, length, slice_index};
ghost use Rattle.hx_blog.specs.Packed.{longest, IsMessage, padded, packed, word_at};

use arrayvec::ArrayVec;
use hx_units::fields::array_at;

// The 48 bytes that stand for a message.
fn padded(message: &[u8]) -> [u8; 48]
    requires { length message.now ≤ longest }
    ensures { result ≡ padded message.now }
{
    let mut bytes = [0; 48];
    bytes[0] = message.len() as u8;
    bytes[1..1 + message.len()].copy_from_slice(message);
    bytes
}

// The word of the eight bytes from byte k on.
fn word_at(bytes: &[u8; 48], k: usize) -> u64
    requires { k ≤ 40 }
    ensures { result ≡ word_at bytes.now k }
{
    u64::from_be_bytes(array_at(bytes, k))
}

/// The six words that stand for a message.
pub(crate) fn pack(message: &[u8]) -> [u64; 6]
    requires { length message.now ≤ longest }
    ensures words { result ≡ packed message.now }
    ensures message { IsMessage message.now }
{
    let bytes = padded(message);
    [
        word_at(&bytes, 0),
        word_at(&bytes, 8),
        word_at(&bytes, 16),
        word_at(&bytes, 24),
        word_at(&bytes, 32),
        word_at(&bytes, 40),
    ]
}

// Byte k of the 48 that the words hold.
fn byte_of(words: &[u64; 6], k: usize) -> u8
    requires { k < 48 }
    ensures { (m : List ℕ) → IsMessage m → words.now ≡ packed m
        → result ≡ slice_index (padded m) k }
{
    words[k / 8].to_be_bytes()[k % 8]
}

/// The message for which the words stand.
pub(crate) fn unpack(words: &[u64; 6]) -> ArrayVec<u8, 44>
    ensures { (m : List ℕ) → IsMessage m → words.now ≡ packed m → result.items ≡ m }
{
    let mut message = ArrayVec::new();
    let length = byte_of(words, 0).min(44);
    for i in 0..length {
        message.push(byte_of(words, i as usize + 1));
    }
    message
}
