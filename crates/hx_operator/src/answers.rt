//! The answer to a command, as it goes over the socket.
ghost use Rattle.std.specs.Prelude.{◌≡◌, ◌≢◌, ◌++◌, ◌∷◌, [], ℕ, List, Bool, OnOk, IfSome, IfNone};
ghost use Rattle.hx_units.specs.Letters.{line_feed};
ghost use Rattle.hx_operator.specs.Answers.{IsFirstLine, AreAnswer, ended};

use hx_units::split_once;
use std::alloc::AllocError;

/// An answer that came whole.
#[derive(Clone, Copy, Debug)]
pub struct Answer<'a> {
    /// Whether the command was carried out.
    pub is_ok: bool,
    /// Its lines, the first of them `ok`, or `no: ` and why.
    pub text: &'a [u8],
}

/// Ends an answer: its last line, if it has no line feed yet, and an empty line. It takes memory.
pub fn end_answer(answer: &mut Vec<u8>) -> Result<(), AllocError>
    ensures { OnOk result (answer.new.items ≡ ended answer.old.items) }
{
    if !answer.ends_with(b"\n") {
        answer.push(b'\n')?;
    }
    answer.push(b'\n')?;
    Ok(())
}

// Whether the first line of an answer says that the command was carried out.
fn is_ok(line: &[u8]) -> Option<bool>
    ensures some { IfSome result (λ is_ok. IsFirstLine is_ok line.now) }
    ensures none { IfNone result ((is_ok : Bool) → IsFirstLine is_ok line.now → ⊥) }
{
    if line == b"ok".as_slice() {
        return Some(true);
    }
    let _why = line.strip_prefix(b"no: ")?;
    Some(false)
}

// What stands in front of the line feed at the end.
fn before_line_feed(text: &[u8]) -> Option<&[u8]>
    ensures some { IfSome result (λ front. text.now ≡ front.now ++ line_feed ∷ []) }
    ensures none { IfNone result ((front : List ℕ) → text.now ≢ front ++ line_feed ∷ []) }
{
    match text {
        [front @ .., b'\n'] => Some(front),
        _ => None,
    }
}

/// The answer of these bytes, if they are one from its first line to its end.
pub fn read_answer(bytes: &[u8]) -> Option<Answer<'_>>
    ensures some { IfSome result (λ answer. AreAnswer bytes.now answer.is_ok answer.text.now) }
    ensures none { IfNone result
        ((is_ok : Bool) (text : List ℕ) → AreAnswer bytes.now is_ok text → ⊥) }
{
    let text = before_line_feed(bytes)?;
    let _lines = before_line_feed(text)?;
    let (first, _more) = split_once(text, b'\n')?;
    let is_ok = is_ok(first)?;
    Some(Answer { is_ok, text })
}
