//! The messages of a packet (MoldUDP64 1.00, Message Block).
ghost use Rattle.std.specs.Prelude.{◌≡◌, ◌≤◌, ◌<◌, List, ℕ, true, length, drop, IfSome, IfNone};
ghost use Rattle.std.specs.Iterator.{YieldsFirstBy, item_count};
ghost use Rattle.hx_units.specs.Fields.{number_at, text_at};
ghost use Rattle.hx_mold.specs.Counting.{block_len, is_whole, messages_in};

use hx_units::fields::u16_at;
use std::marker::Model;

// The first block's message, and what follows the block.
fn split_block(bytes: &[u8]) -> Option<(&[u8], &[u8])>
    ensures some { IfSome result (λ p. (block_len bytes.now ≤ length bytes.now)
        × (p.0.now ≡ text_at 2 (number_at 0 2 bytes.now) bytes.now)
        × (p.1.now ≡ drop (block_len bytes.now) bytes.now)) }
    ensures none { IfNone result (length bytes.now < block_len bytes.now) }
{
    if bytes.len() < 2 {
        return None;
    }
    let end = u16_at(bytes, 0) as usize + 2;
    if bytes.len() < end {
        return None;
    }
    Some((&bytes[2..end], &bytes[end..]))
}

// Whether the bytes are `count` blocks and nothing else.
pub(crate) fn are_blocks(count: u16, bytes: &[u8]) -> bool
    ensures { result ≡ is_whole count bytes.now }
{
    let mut left = count;
    let mut rest = bytes;
    while left > 0 {
        let Some((_, others)) = split_block(rest) else {
            return false;
        };
        rest = others;
        left -= 1;
    }
    rest.is_empty()
}

/// The messages of a packet in order, each as a part of the packet (MoldUDP64 1.00, Message Block). Contracts
/// see it as the list of the messages that are left.
#[derive(Drop)]
pub struct Blocks<'a> {
    left: u16,
    bytes: &'a [u8],
}

impl<'a> Model for Blocks<'a> {
    ghost Value = { List (List ℕ) };

    ghost view = { λ b. messages_in b.left b.bytes.now };

    ghost invariant = { λ b. is_whole b.left b.bytes.now ≡ true };
}

impl<'a> Blocks<'a> {
    pub(crate) fn new(left: u16, bytes: &'a [u8]) -> Self
        requires { is_whole left bytes.now ≡ true }
        ensures { result ≡ messages_in left bytes.now }
    {
        Blocks { left, bytes }
    }
}

impl<'a> Iterator for Blocks<'a> {
    type Item = &'a [u8];

    ghost next_gives = { YieldsFirstBy (λ m. m.now) (λ messages. messages) };

    ghost remaining = { item_count (λ messages. messages) };

    fn next(&mut self) -> Option<&'a [u8]> {
        if self.left == 0 {
            return None;
        }
        let (message, others) = split_block(self.bytes)?;
        self.left -= 1;
        self.bytes = others;
        Some(message)
    }
}
