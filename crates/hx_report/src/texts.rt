//! Lines of a text, and by what a text is known again.
ghost use Rattle.std.specs.Prelude.{◌≡◌, ◌≢◌, ◌<◌, [], true, false, length, IfSome, IfNone};
ghost use Rattle.hx_report.specs.Looks.{seen_lines, seen_text};
ghost use Rattle.hx_report.specs.Sums.{IsSumOf, Compares};
ghost use Rattle.hx_report.specs.Comparing.{FirstLine, NextLine};

use crate::looks::Sieve;
use hx_units::split_once;
use sha2::{Digest, Sha256};

/// By what anybody can know a text again.
#[derive(Clone, Copy, Debug, PartialEq, Eq, Drop)]
pub struct TextSum {
    /// How many lines it has.
    pub lines: u64,
    /// The SHA-256 of its bytes (FIPS 180-4).
    pub digest: [u8; 32],
}

/// Whether somebody gets the same of two texts, and by what anybody can know both again.
#[derive(Clone, Copy, Debug, PartialEq, Eq, Drop)]
pub struct Comparison {
    /// Whether the lines that the reader gets of both are one text.
    pub same: bool,
    /// The lines that the reader gets of the day's text.
    pub day: TextSum,
    /// The lines that the reader gets of the other text.
    pub struck: TextSum,
}

/// The first line of a text, with its line feed if it has one, and what follows it; none of an empty text.
pub(crate) fn split_line(text: &[u8]) -> Option<(&[u8], &[u8])>
    ensures some { IfSome result (λ p. FirstLine text.now p.0.now p.1.now) }
    ensures shorter { IfSome result (λ p. length p.1.now < length text.now) }
    ensures none { IfNone result (text.now ≡ []) }
{
    if text.is_empty() {
        return None;
    }
    match split_once(text, b'\n') {
        Some((line, others)) => Some((&text[..line.len() + 1], others)),
        None => Some((text, &[])),
    }
}

// The first line of a text that somebody gets, and what follows it.
fn next_line<'a>(sieve: &Sieve, text: &'a [u8]) -> Option<(&'a [u8], &'a [u8])>
    ensures some { IfSome result (λ p. NextLine sieve.now text.now p.0.now p.1.now) }
    ensures shorter { IfSome result (λ p. length p.1.now < length text.now) }
    ensures none { IfNone result (seen_lines sieve.now text.now ≡ []) }
{
    let mut rest = text;
    while let Some((line, others)) = split_line(rest) {
        if sieve.has(line) {
            return Some((line, others));
        }
        rest = others;
    }
    None
}

// Whether somebody gets one text of both.
fn are_same(sieve: &Sieve, day: &[u8], struck: &[u8]) -> bool
    ensures same { result ≡ true
        → seen_lines sieve.now struck.now ≡ seen_lines sieve.now day.now }
    ensures differs { result ≡ false
        → seen_text sieve.now struck.now ≢ seen_text sieve.now day.now }
{
    let (mut ahead, mut rest) = (day, struck);
    while let Some((line, others)) = next_line(sieve, rest) {
        let Some((theirs, after)) = next_line(sieve, ahead) else {
            return false;
        };
        if theirs != line {
            return false;
        }
        (ahead, rest) = (after, others);
    }
    next_line(sieve, ahead).is_none()
}

// How many lines of a text somebody gets, and their digest.
fn sum_of(sieve: &Sieve, text: &[u8]) -> TextSum
    ensures { IsSumOf sieve.now text.now result }
{
    let mut hasher = Sha256::new();
    let mut lines: u64 = 0;
    let mut rest = text;
    while let Some((line, others)) = next_line(sieve, rest) {
        hasher.update(line);
        lines = lines.saturating_add(1);
        rest = others;
    }
    TextSum {
        lines,
        digest: hasher.finalize(),
    }
}

/// Compares the lines that one reader gets of a day's text with those of another.
pub fn compare(sieve: &Sieve, day: &[u8], struck: &[u8]) -> Comparison
    ensures { Compares sieve.now day.now struck.now result }
{
    let sum = sum_of(sieve, struck);
    if are_same(sieve, day, struck) {
        return Comparison {
            same: true,
            day: sum,
            struck: sum,
        };
    }
    Comparison {
        same: false,
        day: sum_of(sieve, day),
        struck: sum,
    }
}
