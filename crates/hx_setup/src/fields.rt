//! The fields of a line of a setup's text.
ghost use Rattle.std.specs.Prelude.{◌≡◌, ◌≢◌, ℕ, ◌^◌, ◌<◌, ◌+◌, ◌-◌, ◌≤◌, ◌&&◌, ◌++◌, ◌∷◌, [], List, length, replicate, nat_le, IfSome, IfNone, IsSomeAnd, MatchOption, true};
ghost use Rattle.std.specs.List.{All, list_all};
ghost use Rattle.std.specs.Char.{is_ascii_alphanumeric};
ghost use Rattle.std.specs.Fmt.{decimal};
ghost use Rattle.hex.specs.Hex.{encode_lower, IsBytes};
ghost use Rattle.hx_units.specs.Ranges.{IsMember};
ghost use Rattle.hx_units.specs.Spaces.{without_back};
ghost use Rattle.hx_setup.specs.Setups.{is_filled, is_visible, is_capital_or_digit};

use hex::FromHex;
use hx_units::{MemberNo, read_number};

/// The text after this front.
pub(crate) fn later<'a>(text: &'a [u8], front: &[u8]) -> Option<&'a [u8]>
    ensures some { IfSome result (λ rest. text.now ≡ front.now ++ rest.now) }
    ensures none { IfNone result ((rest : List ℕ) → text.now ≢ front.now ++ rest) }
{
    text.strip_prefix(front)
}

/// A number in decimal, without leading zeros.
pub(crate) fn number(text: &[u8]) -> Option<u32>
    ensures some { IfSome result (λ n. (n < 2 ^ 32) × (text.now ≡ decimal n)) }
    ensures none { IfNone result ((n : ℕ) → n < 2 ^ 32 → text.now ≢ decimal n) }
{
    u32::try_from(read_number(text)?).ok()
}

/// The number of a member.
pub(crate) fn member_number(text: &[u8]) -> Option<MemberNo>
    ensures some { IfSome result (λ n. IsMember n × (text.now ≡ decimal n)) }
    ensures none { IfNone result ((n : ℕ) → IsMember n → text.now ≢ decimal n) }
{
    let number = u16::try_from(number(text)?).ok()?;
    MemberNo::of(number)
}

/// A limit: a number above 0.
pub(crate) fn limit(text: &[u8]) -> Option<u32>
    ensures some { IfSome result (λ n. (0 < n) × (n < 2 ^ 32) × (text.now ≡ decimal n)) }
    ensures none { IfNone result ((n : ℕ) → 0 < n → n < 2 ^ 32 → text.now ≢ decimal n) }
{
    let limit = number(text)?;
    if limit == 0 {
        return None;
    }
    Some(limit)
}

fn are_letters_or_digits(text: &[u8]) -> bool
    ensures { result ≡ list_all is_ascii_alphanumeric text.now }
{
    text.iter().all(|b| b.is_ascii_alphanumeric())
}

fn are_capitals_or_digits(text: &[u8]) -> bool
    ensures { result ≡ list_all is_capital_or_digit text.now }
{
    text.iter().all(|b| matches!(b, b'0'..=b'9' | b'A'..=b'Z'))
}

fn are_visible(text: &[u8]) -> bool
    ensures { result ≡ list_all is_visible text.now }
{
    text.iter().all(|b| matches!(b, 0x21..=0x7e))
}

// The bytes, if there are `N` of them.
fn exactly<const N: usize>(text: &[u8]) -> Option<[u8; N]>
    ensures { MatchOption result (length text.now ≢ N)
        (λ bytes. (length bytes ≡ N) × (bytes ≡ text.now)) }
{
    text.try_into().ok()
}

// The bytes, filled with spaces on the right, if they are not too many.
fn filled<const N: usize>(text: &[u8]) -> Option<[u8; N]>
    ensures { MatchOption result (N < length text.now)
        (λ bytes. (length bytes ≡ N) × (bytes ≡ text.now ++ replicate (N - length text.now) 32)) }
{
    if text.len() > N {
        return None;
    }
    let mut bytes = [b' '; N];
    bytes[..text.len()].copy_from_slice(text);
    Some(bytes)
}

/// The session: 10 letters or digits.
pub(crate) fn session(text: &[u8]) -> Option<[u8; 10]>
    ensures some { IfSome result (λ bytes. (length bytes ≡ 10)
        × (list_all is_ascii_alphanumeric bytes ≡ true) × (bytes ≡ text.now)) }
    ensures none { IfNone result
        (length text.now ≡ 10 → list_all is_ascii_alphanumeric text.now ≢ true) }
{
    if !are_letters_or_digits(text) {
        return None;
    }
    exactly(text)
}

/// A firm: 4 capital letters or digits.
pub(crate) fn firm(text: &[u8]) -> Option<[u8; 4]>
    ensures some { IfSome result (λ bytes. (length bytes ≡ 4)
        × (list_all is_capital_or_digit bytes ≡ true) × (bytes ≡ text.now)) }
    ensures none { IfNone result
        (length text.now ≡ 4 → list_all is_capital_or_digit text.now ≢ true) }
{
    if !are_capitals_or_digits(text) {
        return None;
    }
    exactly(text)
}

/// A stock's name: 1 to 8 visible characters, which are filled with spaces.
pub(crate) fn name(text: &[u8]) -> Option<[u8; 8]>
    ensures some { IfSome result (λ bytes. (length bytes ≡ 8) × (is_filled is_visible bytes ≡ true)
        × (text.now ≡ without_back bytes)) }
    ensures none { IfNone result ((bytes : List ℕ) → length bytes ≡ 8
        → is_filled is_visible bytes ≡ true → text.now ≢ without_back bytes) }
{
    if text.is_empty() || !are_visible(text) {
        return None;
    }
    filled(text)
}

/// A user or a password: letters or digits, which are filled with spaces.
pub(crate) fn login_name<const N: usize>(text: &[u8]) -> Option<[u8; N]>
    ensures some { IfSome result (λ bytes. (length bytes ≡ N)
        × (is_filled is_ascii_alphanumeric bytes ≡ true) × (text.now ≡ without_back bytes)) }
    ensures none { IfNone result ((bytes : List ℕ) → length bytes ≡ N
        → is_filled is_ascii_alphanumeric bytes ≡ true → text.now ≢ without_back bytes) }
{
    if text.is_empty() || !are_letters_or_digits(text) {
        return None;
    }
    filled(text)
}

/// A stock's tail: 20 bytes in lower-case hexadecimal.
pub(crate) fn tail(text: &[u8]) -> Option<[u8; 20]>
    ensures some { IfSome result (λ bytes. (length bytes ≡ 20) × IsBytes bytes
        × (text.now ≡ encode_lower bytes)) }
    ensures none { IfNone result ((bytes : List ℕ) → length bytes ≡ 20 → IsBytes bytes
        → text.now ≢ encode_lower bytes) }
{
    let tail = <[u8; 20]>::from_hex(text).ok()?;
    let mut spelled = [0; 40];
    hex::encode_to_slice(tail, &mut spelled).unwrap();
    if spelled.as_slice() != text {
        return None;
    }
    Some(tail)
}
