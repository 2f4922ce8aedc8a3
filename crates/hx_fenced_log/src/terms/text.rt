//! The text of a record: `#NUMBER TERM WRITER INDEX`, and then its lines, each with a line feed after it.
ghost use Rattle.std.specs.Prelude.{◌≡◌, ◌≢◌, ◌<◌, ◌^◌, ◌∷◌, ◌++◌, ℕ, List, IfOk, IfErr, IfSome, IfNone};
ghost use Rattle.std.specs.Fmt.{decimal};
ghost use Rattle.hx_units.specs.Letters.{space};
ghost use Rattle.hx_fenced_log.specs.Records.{Record, IsHead};
ghost use Rattle.hx_fenced_log.specs.Lines.{IsOfLog};
ghost use Rattle.hx_fenced_log.specs.declared.terms.text.TextError.TheVariants.{NoMemory};
ghost use Rattle.hx_fenced_log.specs.Texts.{mark, head_line, spelled, IsTextFault, IsReadAs};

use crate::{Head, LogRecord, RecordError};
use hx_units::{NoMemory, read_number, split_once};
use itoa::Buffer;
use std::alloc::{AllocError, Global};

/// Why a text is no record.
#[derive(Clone, Copy, Debug, PartialEq, Eq, Drop)]
pub enum TextError {
    /// It has no line feed.
    NoLine,
    /// Its first line is not `#NUMBER TERM WRITER INDEX`, four numbers from 1 to 99,999,999,999,999 in decimal.
    Head,
    /// What stands after the first line are not the lines of such a record.
    Lines(RecordError),
    /// A growth was refused: the text may be a record.
    NoMemory,
}

impl From<AllocError> for TextError {
    ghost from_gives = { λ _ e. e ≡ NoMemory };

    fn from(_error: AllocError) -> TextError {
        TextError::NoMemory
    }
}

impl LogRecord {
    /// The text of the record.
    pub fn spelled(&self, alloc: Global) -> Result<Vec<u8>, NoMemory>
        ensures { IfOk result (λ text. text.items ≡ spelled self.now) }
    {
        let mut text = head_line(alloc, &self.head())?;
        text.push(b'\n')?;
        text.extend_from_slice(self.text())?;
        Ok(text)
    }
}

// The first line of a record, without its line feed.
fn head_line(alloc: Global, head: &Head) -> Result<Vec<u8>, NoMemory>
    ensures { IfOk result (λ line. line.items ≡ head_line head.now) }
{
    let mut buffer = Buffer::new();
    let mut line = Vec::new(alloc);
    line.push(b'#')?;
    line.extend_from_slice(buffer.format(head.number).as_bytes())?;
    line.push(b' ')?;
    line.extend_from_slice(buffer.format(head.term).as_bytes())?;
    line.push(b' ')?;
    line.extend_from_slice(buffer.format(head.writer).as_bytes())?;
    line.push(b' ')?;
    line.extend_from_slice(buffer.format(head.index).as_bytes())?;
    Ok(line)
}

/// The record that a text spells.
///
/// Errors: the first thing that is wrong, from the front on; `NoMemory` only of a text whose first line is right.
pub fn read_record(alloc: Global, text: &[u8]) -> Result<LogRecord, TextError>
    ensures ok { IfOk result (λ r. IsOfLog r × (text.now ≡ spelled r)) }
    ensures fault { IfErr result (IsTextFault text.now) }
    ensures only { (r : Record) → IsOfLog r → text.now ≡ spelled r → IsReadAs result r }
{
    read(alloc, text)
}

// The record, or what is wrong.
fn read(alloc: Global, text: &[u8]) -> Result<LogRecord, TextError>
    ensures ok { IfOk result (λ r. IsOfLog r × (text.now ≡ spelled r)) }
    ensures fault { IfErr result (IsTextFault text.now) }
{
    let Some((line, lines)) = split_once(text, b'\n') else {
        return Err(TextError::NoLine);
    };
    let Some(head) = read_head(line) else {
        return Err(TextError::Head);
    };
    match LogRecord::new(head, Vec::from_slice(alloc, lines)?) {
        Ok(found) => Ok(found),
        Err(error) => Err(TextError::Lines(error)),
    }
}

// The head that a line spells, or none if it spells none.
fn read_head(line: &[u8]) -> Option<Head>
    ensures some { IfSome result (λ h. IsHead h × (line.now ≡ head_line h)) }
    ensures none { IfNone result ((h : Head) → IsHead h → line.now ≢ head_line h) }
{
    let (number, rest) = read_word(after_mark(line)?)?;
    let (term, rest) = read_word(rest)?;
    let (writer, rest) = read_word(rest)?;
    let head = Head {
        number,
        term,
        writer,
        index: read_number(rest)?,
    };
    if head.is_of_log() { Some(head) } else { None }
}

// What stands after the mark of a line.
fn after_mark(line: &[u8]) -> Option<&[u8]>
    ensures some { IfSome result (λ rest. line.now ≡ mark ∷ rest.now) }
    ensures none { IfNone result ((rest : List ℕ) → line.now ≢ mark ∷ rest) }
{
    let (first, rest) = line.split_first()?;
    if *first == b'#' { Some(rest) } else { None }
}

// The number in front of the first space, and what stands after it.
fn read_word(text: &[u8]) -> Option<(u64, &[u8])>
    ensures some { IfSome result (λ p.
        (p.0 < 10 ^ 14) × (text.now ≡ decimal p.0 ++ (space ∷ p.1.now))) }
    ensures none { IfNone result ((n : ℕ) (rest : List ℕ)
        → n < 10 ^ 14 → text.now ≢ decimal n ++ (space ∷ rest)) }
{
    let (digits, rest) = split_once(text, b' ')?;
    Some((read_number(digits)?, rest))
}
