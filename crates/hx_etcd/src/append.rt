//! What the answer to an append says.
ghost use Rattle.std.specs.Prelude.{◌≡◌, IfOk, IfErr, OnOk, option_map};
ghost use Rattle.json.specs.Value.{value_view};
ghost use Rattle.hx_etcd.specs.Answers.{first_range, Says, IsSayingFault, HasKey, IsKeyFault, IsAppended, IsAppendFault};

use crate::keys::key;
use crate::reported::{Answer, AnswerError, Field, bytes_in, is_reported, read_document};
use json::{Scratch, Value};
use std::alloc::Global;

/// What became of an append.
#[derive(Drop)]
pub enum Appended {
    /// The record is made, and stands.
    Stands,
    /// Its key was taken: there stands this text.
    Taken(Vec<u8>),
    /// It is not made, and its key has none: the record before it is not there, or in front of the first one the log
    /// was trimmed.
    NoneBefore,
}

/// What the answer to an append says, of the record of this number.
///
/// Errors: the first thing that is wrong. After one the append may stand: the key is to be read.
pub fn read_append_answer(
    alloc: Global,
    number: u64,
    answer: &Answer,
) -> Result<Appended, AnswerError>
    ensures ok { IfOk result (IsAppended number answer.now) }
    ensures err { IfErr result (IsAppendFault number answer.now) }
{
    let mut scratch = Scratch::new(alloc);
    let document = read_document(alloc, answer, &mut scratch)?;
    Ok(read_appended(alloc, number, &document)?)
}

// What a transaction's answer says.
fn read_appended(alloc: Global, number: u64, document: &Value<'_>) -> Result<Appended, AnswerError>
    ensures ok { IfOk result (Says number (value_view document.now)) }
    ensures err { IfErr result (IsSayingFault number (value_view document.now)) }
{
    if is_reported(document, "succeeded") {
        return Ok(Appended::Stands);
    }
    let Some(range) = first_range(document) else {
        return Err(AnswerError::NoField(Field::Pairs));
    };
    let Some(pairs) = range.get("kvs") else {
        return Ok(Appended::NoneBefore);
    };
    let Some(pair) = pairs.at(0) else {
        return Err(AnswerError::NoField(Field::Pairs));
    };
    check_key(alloc, number, pair)?;
    Ok(Appended::Taken(bytes_in(alloc, pair, Field::Value)?))
}

// What was found by the first request of a transaction.
fn first_range<'v, 'a>(document: &'v Value<'a>) -> Option<&'v Value<'a>>
    ensures { option_map (λ v. value_view v.now) result ≡ first_range (value_view document.now) }
{
    document.get("responses")?.at(0)?.get("response_range")
}

// Whether a pair has the key of this number.
pub(crate) fn check_key(alloc: Global, number: u64, pair: &Value<'_>) -> Result<(), AnswerError>
    ensures ok { OnOk result (HasKey number (value_view pair.now)) }
    ensures err { IfErr result (IsKeyFault number (value_view pair.now)) }
{
    let found = bytes_in(alloc, pair, Field::Key)?;
    let Ok(due) = key(alloc, number) else {
        return Err(AnswerError::NoMemory);
    };
    if found.as_slice() == due.as_slice() {
        Ok(())
    } else {
        Err(AnswerError::NoKey { number })
    }
}
