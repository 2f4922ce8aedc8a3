//! Names in two words.
ghost use Rattle.std.specs.Prelude.{◌≡◌};
ghost use Rattle.std.specs.Cmp.{partial_equiv_from_equiv};
ghost use Rattle.std.specs.Cmp.Rules.{comparing, hashing};
ghost use Rattle.std.proofs.Common.{rules};
ghost use Rattle.hx_tokens.specs.Rows.{name_of, is_name};
ghost use Rattle.hx_tokens.specs.Packed.{hashed_of};

use crate::name::Name;
use hx_units::{MemberNo, Token};
use std::hash::{Hash, Hasher};
use std::marker::Model;

/// A name in two words, so that two names are compared in two steps: in the low one the token's fifth and sixth letter,
/// above these its first four, and above them the member's number; in the high one the token's last eight letters.
#[derive(Clone, Copy)]
pub(crate) struct PackedName {
    low: u64,
    high: u64,
}

impl Model for PackedName {
    ghost use Rattle.std.specs.Prelude.{◌<◌, ◌/◌, ◌^◌};
    ghost use Rattle.hx_units.specs.Ranges.{IsMember};
    ghost use Rattle.hx_tokens.specs.declared.name.Name.{Name};
    ghost use Rattle.hx_tokens.specs.Packed.{low_of, high_of, name_of_words, low_of-words, high_of-words};

    ghost Value = { Name };

    ghost view = { λ p. name_of_words p.low p.high };

    ghost invariant = { λ p. (p.low < 2 ^ 64) × (p.high < 2 ^ 64)
        × IsMember (p.low / 2 ^ 16 / 2 ^ 32) };

    ghost inverse = { λ name. record { low = low_of name; high = high_of name } };

    ghost inverse_ok = { λ p h i. record {
      low = low_of-words p.low p.high h.0 i;
      high = high_of-words p.low p.high h.1 i;
    } };
}

impl PartialEq for PackedName {
    ghost eq = { is_name };

    ghost laws = { partial_equiv_from_equiv (Prim.search (comparing, rules)) };

    #[inline(always)]
    fn eq(&self, other: &PackedName) -> bool {
        self.low == other.low && self.high == other.high
    }
}

impl Eq for PackedName {
    ghost laws = { Prim.search (comparing, rules) };
}

impl Hash for PackedName {
    ghost hash_input = { hashed_of };

    ghost respects_eq = { Prim.search (hashing, rules) };

    #[inline(always)]
    fn hash<H: Hasher>(&self, state: &mut H) {
        let rest = self.high & ALL_BUT_LAST;
        let last = self.high / 0x1_0000_0000_0000;
        state.write_u128(u128::from(rest) * (1 << 64) + u128::from(self.low));
        state.write_u8((last % 16 * 16 + last / 256 % 16) as u8);
    }
}

// All but the digits of the last two of eight letters.
const ALL_BUT_LAST: u64 = 0xf0f0_ffff_ffff_ffff;

// The positions of digits in a word of letters, and then of numbers of two digits, and of four.
const DIGITS: u64 = 0x0f0f_0f0f_0f0f_0f0f;

const TWOS: u64 = 0x00ff_00ff_00ff_00ff;

const FOURS: u64 = 0x0000_ffff_0000_ffff;

impl PackedName {
    /// A member's token in two words. Its letters are read four, two and eight at once.
    #[inline(always)]
    pub(crate) fn of(member: MemberNo, token: &Token) -> PackedName
        ensures { result ≡ name_of member token.now }
    {
        let t = &token.0;
        let first = u32::from_le_bytes([t[0], t[1], t[2], t[3]]);
        let next = u16::from_le_bytes([t[4], t[5]]);
        let last = u64::from_le_bytes([t[6], t[7], t[8], t[9], t[10], t[11], t[12], t[13]]);
        let front = u64::from(member.get()) * 0x1_0000_0000 + u64::from(first);
        PackedName {
            low: front * 0x1_0000 + u64::from(next),
            high: last,
        }
    }

    /// The number of its member.
    #[inline(always)]
    pub(crate) fn member(self) -> usize
        ensures { result ≡ self.member }
    {
        (self.low / 0x1_0000 / 0x1_0000_0000) as usize
    }

    /// The number that its token's last eight letters spell, if they are digits. Of any letter the lower four bits are
    /// taken for a digit. Digits become numbers of two digits each, these numbers of four, and these the number. The
    /// result is unspecified.
    #[inline(always)]
    pub(crate) fn number(self) -> u64 {
        let digits = self.high & DIGITS;
        let twos = digits.wrapping_mul(10).wrapping_add(digits / 0x100) & TWOS;
        let fours = twos.wrapping_mul(100).wrapping_add(twos / 0x1_0000) & FOURS;
        fours
            .wrapping_mul(10_000)
            .wrapping_add(fours / 0x1_0000_0000)
            % 0x1_0000_0000
    }

    /// The name in its usual form.
    pub(crate) fn name(self) -> Name
        ensures { result ≡ self }
    {
        let front = self.low / 0x1_0000;
        let t = ((front % 0x1_0000_0000) as u32).to_le_bytes();
        let u = ((self.low % 0x1_0000) as u16).to_le_bytes();
        let v = self.high.to_le_bytes();
        Name {
            member: MemberNo::of((front / 0x1_0000_0000) as u16).unwrap(),
            token: Token([
                t[0], t[1], t[2], t[3], u[0], u[1], v[0], v[1], v[2], v[3], v[4], v[5], v[6], v[7],
            ]),
        }
    }
}
