//! The first line of a journal: which day it is of.
ghost use Rattle.std.specs.Prelude.{◌≡◌, ◌≢◌, ◌↔◌, ◌++◌, true, ℕ, List, codes, IsTrue, IfOk, IfSome, IfNone, IsErrOf};
ghost use Rattle.hx_journal.specs.Lines.{IsLine};
ghost use Rattle.hx_journal.specs.Records.{is_mark};
ghost use Rattle.hx_journal.specs.Heads.{IsWord, IsHeadOf, head_of};
ghost use Rattle.hx_journal.specs.declared.head.HeadError.TheVariants.{Memory};

use hx_units::split_once;
use std::alloc::{AllocError, Global};
use std::marker::Model;

const TAG: &[u8] = b"#hx1 ";

/// Why there is no such head.
#[derive(Clone, Copy, Debug, PartialEq, Eq, Drop)]
pub enum HeadError {
    Memory,
    /// A part has a space, or a byte that is not printed.
    NoWord,
}

impl From<AllocError> for HeadError {
    ghost from_gives = { λ _ e. e ≡ Memory };

    fn from(_error: AllocError) -> Self {
        HeadError::Memory
    }
}

/// A part of a head.
#[derive(Clone, Copy, Debug, PartialEq, Eq, Drop)]
pub enum HeadPart {
    Session,
    Day,
    Setup,
}

/// The first line of a journal, `#hx1 SESSION DAY SETUP`: the session's name, the day, and a digest
/// of the setup's text.
#[derive(Drop)]
pub struct Head {
    line: Vec<u8>,
}

impl Model for Head {
    ghost use Rattle.std.specs.Prelude.{◌≡◌, ℕ, List, true};
    ghost use Rattle.hx_journal.specs.Lines.{IsLine};
    ghost use Rattle.hx_journal.specs.Records.{is_mark};

    ghost Value = { List ℕ };

    ghost view = { λ h. h.line.items };

    ghost invariant = { λ h. IsLine h.line.items × (is_mark h.line.items ≡ true) };
}

impl Head {
    /// The head of a day. The three parts are words: printed bytes, without a space.
    pub fn new(alloc: Global, session: &[u8], day: &[u8], setup: &[u8]) -> Result<Head, HeadError>
        ensures line { IfOk result (λ head. head ≡ head_of session.now day.now setup.now) }
        ensures words { IsErrOf result HeadError.NoWord
            → IsWord session.now × IsWord day.now × IsWord setup.now → ⊥ }
    {
        if !is_word(session) || !is_word(day) || !is_word(setup) {
            return Err(HeadError::NoWord);
        }
        let mut line = Vec::from_slice(alloc, TAG)?;
        line.extend_from_slice(session)?;
        line.extend_from_slice(b" ")?;
        line.extend_from_slice(day)?;
        line.extend_from_slice(b" ")?;
        line.extend_from_slice(setup)?;
        Ok(Head { line })
    }

    /// The line, without its line feed.
    pub fn line(&self) -> &[u8]
        ensures line { result.now ≡ self.now }
        ensures is_line { IsLine self.now }
        ensures mark { is_mark self.now ≡ true }
    {
        &self.line
    }

    /// The first part by which another line differs, or none if it is no head, or the same one.
    pub(crate) fn other_part(&self, found: &[u8]) -> Option<HeadPart> {
        let (session, day, setup) = parts(&self.line)?;
        let (found_session, found_day, found_setup) = parts(found)?;
        if found_session != session {
            return Some(HeadPart::Session);
        }
        if found_day != day {
            return Some(HeadPart::Day);
        }
        if found_setup != setup {
            return Some(HeadPart::Setup);
        }
        None
    }

    /// Whether a text may be what a crash left of this line: each byte is the line's own or zero.
    pub(crate) fn may_be_torn_to(&self, text: &[u8]) -> bool {
        for (i, b) in text.iter().enumerate() {
            if *b != 0 && *b != self.byte_at(i) {
                return false;
            }
        }
        true
    }

    // The byte of the line with its line feed, and zero after it.
    fn byte_at(&self, i: usize) -> u8 {
        match self.line.get(i) {
            Some(b) => *b,
            None if i == self.line.len() => b'\n',
            None => 0,
        }
    }
}

/// What stands after the tag of a line, up to a space, up to the next one, and after that.
pub(crate) fn parts(line: &[u8]) -> Option<(&[u8], &[u8], &[u8])>
    ensures some { IfSome result (λ p. IsHeadOf line.now p.0.now p.1.now p.2.now) }
    ensures none { IfNone result ((session day setup : List ℕ)
        → IsWord session → IsWord day → IsWord setup → line.now ≢ head_of session day setup) }
{
    let (session, rest) = split_once(after_tag(line)?, b' ')?;
    let (day, setup) = split_once(rest, b' ')?;
    Some((session, day, setup))
}

// What stands after the tag of a line.
fn after_tag(line: &[u8]) -> Option<&[u8]>
    ensures some { IfSome result (λ rest. line.now ≡ codes "#hx1 " ++ rest.now) }
    ensures none { IfNone result ((rest : List ℕ) → line.now ≢ codes "#hx1 " ++ rest) }
{
    line.strip_prefix(TAG)
}

/// Whether all bytes are printed, and no space.
pub(crate) fn is_word(word: &[u8]) -> bool
    ensures { IsTrue result ↔ IsWord word.now }
{
    for b in word {
        if *b <= b' ' || *b > b'~' {
            return false;
        }
    }
    true
}

/// Whether a text may be what a crash left of the first line of some day: each byte is zero or one
/// of such a line, and those after its line feed are zero.
pub(crate) fn may_be_torn_head(text: &[u8]) -> bool {
    let (line, after) = split_once(text, b'\n').unwrap_or((text, &[]));
    are_zeros(after) && may_be_torn_line(line)
}

fn are_zeros(bytes: &[u8]) -> bool {
    bytes.iter().all(|b| *b == 0)
}

fn may_be_torn_line(line: &[u8]) -> bool {
    for (i, b) in line.iter().enumerate() {
        if *b != 0 && !may_stand_at(i, *b) {
            return false;
        }
    }
    true
}

// Whether some first line has this byte there.
fn may_stand_at(i: usize, byte: u8) -> bool {
    match TAG.get(i) {
        Some(b) => byte == *b,
        None => byte >= b' ' && byte <= b'~',
    }
}
