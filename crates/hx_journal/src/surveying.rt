//! How far a journal goes, and what stands after it, by the bytes of its file alone.
ghost use Rattle.std.specs.Prelude.{◌≡◌, ◌≢◌, ◌-◌, ◌≤◌, ℕ, suc, [], ◌∷◌, length, take, slice_index, IfOk, IfSome, IfNone};
ghost use mathlib.Core.List.{IsPrefix};
ghost use Rattle.hx_journal.specs.Lines.{text_of, lines_of};
ghost use Rattle.hx_journal.specs.Records.{sealed, recovered};
ghost use Rattle.hx_journal.specs.Heads.{head_of, HasNoHead};
ghost use Rattle.hx_journal.specs.Surveys.{before_damage, marks_of, StandsAfter};

use crate::OpenError;
use crate::blocks::{check, whole_blocks};
use crate::head::may_be_torn_head;
use crate::head_parts::{HeadParts, read_head};
use crate::measure::measure;
use crate::tape::tape_of;
use hx_units::split_once;
use std::alloc::{AllocError, Global};

/// How far a journal goes: its whole blocks up to the first that is damaged, or all of them, and what stands after
/// these.
#[derive(Debug, Drop)]
pub struct Survey<'a> {
    /// What the first line says; none if it is not there yet, or another line.
    pub head: Option<HeadParts<'a>>,
    /// The records of the blocks, as a tape.
    pub tape: Vec<u8>,
    /// How many records these are.
    pub records: usize,
    /// How many blocks there are.
    pub blocks: usize,
    /// The byte where the last block ends; without a block, the first line.
    pub end: usize,
    /// How many bytes stand after that, up to the last that is not zero: what a crash left of blocks that were never
    /// published, or all that is damaged.
    pub torn: usize,
    /// How many zeros stand after these, up to the end of the file.
    pub zeros: usize,
    /// How many blocks that are whole by themselves stand after `end`: none if nothing is damaged.
    pub whole_after: usize,
    /// The byte from which on the file is not as the journal wrote it: `end`, or none.
    pub damage: Option<usize>,
}

/// Reports how far a journal goes, by the bytes of its file. It finds damage if `FileJournal::open` does; of the first
/// line it asks only that it is one of some day.
pub fn survey_of(alloc: Global, text: &[u8]) -> Result<Survey<'_>, AllocError>
    ensures end { IfOk result (λ s. take s.end text.now
        ≡ text_of (sealed (lines_of (before_damage text.now s.damage)))) }
    ensures head { IfOk result (λ s. IfSome s.head (λ h.
        IsPrefix (head_of h.session.now h.day.now h.setup.now ∷ [])
        (sealed (lines_of (before_damage text.now s.damage))))) }
    ensures no_head { IfOk result (λ s. IfNone s.head
        (HasNoHead (sealed (lines_of (before_damage text.now s.damage))))) }
    ensures tape { IfOk result (λ s.
        s.tape.items ≡ text_of (recovered (before_damage text.now s.damage))) }
    ensures records { IfOk result (λ s.
        s.records ≡ length (recovered (before_damage text.now s.damage))) }
    ensures blocks { IfOk result (λ s. s.blocks
        ≡ length (marks_of (sealed (lines_of (before_damage text.now s.damage)))) - 1) }
    ensures after { IfOk result (λ s. StandsAfter text.now s.end s.torn s.zeros) }
    ensures damage { IfOk result (λ s. IfSome s.damage (λ at. at ≡ s.end)) }
{
    let damaged = first_damage(alloc, text)?;
    let (end, lines, damage) = extent(text, damaged);
    let front = &text[..end];
    let after = &text[end..];
    let (tape, records) = tape_of(alloc, front)?;
    let torn = torn_bytes(after);
    Ok(Survey {
        head: first_head(front),
        tape,
        records,
        blocks: (lines - records).saturating_sub(1),
        end,
        torn,
        zeros: after.len() - torn,
        whole_after: whole_blocks(after),
        damage,
    })
}

// The first byte of what is not as a journal wrote it, or none if a crash may have left the text.
fn first_damage(alloc: Global, text: &[u8]) -> Result<Option<usize>, AllocError> {
    let (end, _lines) = measure(text);
    let Some((first, rest)) = split_once(&text[..end], b'\n') else {
        return Ok(if may_be_torn_head(text) {
            None
        } else {
            Some(0)
        });
    };
    if read_head(first).is_none() {
        return Ok(Some(0));
    }
    match check(alloc, first, rest, &text[end..]) {
        Ok(_sum) => Ok(None),
        Err(OpenError::Damaged { at }) => Ok(Some(at)),
        Err(_) => Err(AllocError),
    }
}

// The end of the whole blocks in front of a damage, their number of lines, and the damage, if `damaged` has one.
fn extent(text: &[u8], damaged: Option<usize>) -> (usize, usize, Option<usize>)
    ensures inside { result.0 ≤ length text.now }
    ensures front { take result.0 text.now
        ≡ text_of (sealed (lines_of (before_damage text.now result.2))) }
    ensures count { result.1 ≡ length (sealed (lines_of (before_damage text.now result.2))) }
    ensures damage { IfSome result.2 (λ at. at ≡ result.0) }
{
    let Some(at) = damaged else {
        let (end, lines) = measure(text);
        return (end, lines, None);
    };
    let (end, lines) = measure(&text[..at.min(text.len())]);
    (end, lines, Some(end))
}

// What the first of these lines says.
fn first_head(front: &[u8]) -> Option<HeadParts<'_>>
    requires { front.now ≡ text_of (lines_of front.now) }
    ensures some { IfSome result (λ h.
        IsPrefix (head_of h.session.now h.day.now h.setup.now ∷ []) (lines_of front.now)) }
    ensures none { IfNone result (HasNoHead (lines_of front.now)) }
{
    let (first, _rest) = split_once(front, b'\n')?;
    read_head(first)
}

// How many bytes there are up to the last that is not zero.
fn torn_bytes(after: &[u8]) -> usize
    ensures inside { result ≤ length after.now }
    ensures last { (i : ℕ) → suc i ≡ result → slice_index after.now i ≢ 0 }
    ensures rest { (i : ℕ) → result ≤ i → slice_index after.now i ≡ 0 }
{
    let mut torn = 0;
    for (i, b) in after.iter().enumerate() {
        if *b != 0 {
            torn = i + 1;
        }
    }
    torn
}
