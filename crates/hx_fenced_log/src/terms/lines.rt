//! The lines of records.
ghost use Rattle.std.specs.Prelude.{◌≡◌, ◌↔◌, IsTrue, IfOk, IfErr};
ghost use Rattle.hx_units.specs.Cuts.{Lacks};
ghost use Rattle.hx_journal.specs.Records.{IsRecord, is_mark};
ghost use Rattle.hx_fenced_log.specs.Lines.{AreTheLines, IsLineFault};

use crate::RecordError;
use hx_units::split_once;

// How many lines a text has.
pub(crate) fn count_lines(text: &[u8]) -> Result<u64, RecordError>
    ensures ok { IfOk result (λ count. AreTheLines text.now count) }
    ensures err { IfErr result (IsLineFault text.now) }
{
    let _size = text.len();
    let mut count = 0u64;
    let mut rest = text;
    while let Some((line, others)) = split_once(rest, b'\n') {
        count += 1;
        if !is_line(line) {
            return Err(RecordError::Line { number: count });
        }
        rest = others;
    }
    if !rest.is_empty() {
        return Err(RecordError::Unended);
    }
    Ok(count)
}

// Whether what stands in front of a line feed is a line of a tape.
fn is_line(line: &[u8]) -> bool
    requires { Lacks 10 line.now }
    ensures { IsTrue result ↔ IsRecord line.now }
{
    if is_mark(line) {
        return false;
    }
    match split_once(line, 0) {
        Some(_) => false,
        None => true,
    }
}

// Whether a line begins as one of the log's own.
pub(crate) fn is_mark(line: &[u8]) -> bool
    ensures { result ≡ is_mark line.now }
{
    match line.first() {
        Some(b) => *b == b'#',
        None => false,
    }
}
