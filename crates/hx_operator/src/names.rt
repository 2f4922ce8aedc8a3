//! The names and numbers that a word may be.
ghost use Rattle.std.specs.Prelude.{◌≡◌, ◌≤◌, length};
ghost use Rattle.std.specs.List.{list_all};
ghost use Rattle.hx_members.specs.Setups.{is_visible, is_capital_or_digit};
ghost use Rattle.hx_operator.specs.Names.{filled, is_short, symbol_of, reason_of, code_of, number_of, member_of};

use hx_units::{MemberNo, Symbol, read_number};

fn are_visible(text: &[u8]) -> bool
    ensures { result ≡ list_all is_visible text.now }
{
    text.iter().all(|b| matches!(b, 0x21..=0x7e))
}

fn are_capitals_or_digits(text: &[u8]) -> bool
    ensures { result ≡ list_all is_capital_or_digit text.now }
{
    text.iter().all(|b| matches!(b, b'0'..=b'9' | b'A'..=b'Z'))
}

// Whether a text has 1 to n characters.
fn is_short(text: &[u8], most: usize) -> bool
    ensures { result ≡ is_short most text.now }
{
    !text.is_empty() && text.len() <= most
}

// The text, filled with spaces on the right.
fn filled<const N: usize>(text: &[u8]) -> [u8; N]
    requires { length text.now ≤ N }
    ensures { result ≡ filled N text.now }
{
    let mut bytes = [b' '; N];
    bytes[..text.len()].copy_from_slice(text);
    bytes
}

/// A stock's name.
pub(crate) fn symbol_of(word: &[u8]) -> Option<Symbol>
    ensures { result ≡ symbol_of word.now }
{
    if is_short(word, 8) && are_visible(word) {
        return Some(Symbol(filled(word)));
    }
    None
}

/// A reason to halt a stock.
pub(crate) fn reason_of(word: &[u8]) -> Option<[u8; 4]>
    ensures { result ≡ reason_of word.now }
{
    if is_short(word, 4) && are_capitals_or_digits(word) {
        return Some(filled(word));
    }
    None
}

/// A code of the hours.
pub(crate) fn code_of(word: &[u8]) -> Option<u8>
    ensures { result ≡ code_of word.now }
{
    match word {
        [code] if matches!(*code, b'O' | b'S' | b'Q' | b'M' | b'E' | b'C') => Some(*code),
        _ => None,
    }
}

/// A number in decimal.
pub(crate) fn number_of(word: &[u8]) -> Option<u64>
    ensures { result ≡ number_of word.now }
{
    read_number(word)
}

/// The number of a member.
pub(crate) fn member_of(word: &[u8]) -> Option<MemberNo>
    ensures { result ≡ member_of word.now }
{
    let number = u16::try_from(number_of(word)?).ok()?;
    MemberNo::of(number)
}
