//! The records of a journal as a tape.
ghost use Rattle.std.specs.Prelude.{◌≡◌, ◌++◌, [], ◌∷◌, length, IfOk};
ghost use Rattle.hx_journal.specs.Lines.{text_of, lines_of};
ghost use Rattle.hx_journal.specs.Records.{is_mark, records_of};

use crate::line_file::push_line;
use hx_units::split_once;
use std::alloc::{AllocError, Global};

/// The text of the records among lines, without the marks, and how many records there are.
pub fn tape_of(alloc: Global, text: &[u8]) -> Result<(Vec<u8>, usize), AllocError>
    requires { text.now ≡ text_of (lines_of text.now) }
    ensures tape { IfOk result (λ r. r.0.items ≡ text_of (records_of (lines_of text.now))) }
    ensures count { IfOk result (λ r. r.1 ≡ length (records_of (lines_of text.now))) }
{
    let mut tape = Vec::with_capacity(alloc, text.len())?;
    let mut count = 0;
    let mut rest = text;
    while let Some((line, after)) = split_once(rest, b'\n') {
        count += copy_record(&mut tape, line)?;
        rest = after;
    }
    Ok((tape, count))
}

// Adds a line if it is a record, and returns how many records were added.
fn copy_record(tape: &mut Vec<u8>, line: &[u8]) -> Result<usize, AllocError>
    ensures added { IfOk result (λ n.
        tape.new.items ≡ tape.old.items ++ text_of (records_of (line.now ∷ []))) }
    ensures count { IfOk result (λ n. n ≡ length (records_of (line.now ∷ []))) }
{
    if is_mark(line) {
        return Ok(0);
    }
    push_line(tape, line)?;
    Ok(1)
}

// Whether a line is the journal's own.
fn is_mark(line: &[u8]) -> bool
    ensures { result ≡ is_mark line.now }
{
    match line.first() {
        Some(b) => *b == b'#',
        None => false,
    }
}
