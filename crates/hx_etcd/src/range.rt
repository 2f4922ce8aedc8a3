//! What the answer to a question for records says.
ghost use Rattle.std.specs.Prelude.{◌≡◌, IfOk, IfErr, Some, None, MatchOption, map};
ghost use Rattle.json.specs.Find.{as_array};
ghost use Rattle.json.specs.Value.{value_view, items_view};
ghost use Rattle.hx_etcd.specs.Answers.{IsRecordAt, IsPairFault, AreRecords, IsListFault, HoldsRecords, IsHoldingFault, IsRange, IsRangeFault};

use crate::append::check_key;
use crate::reported::{Answer, AnswerError, Field, bytes_in, read_document};
use hx_fenced_log::{LogRecord, TextError, read_record};
use json::{Scratch, Value};
use std::alloc::Global;

/// The records that an answer holds: the first has this number, each other the next one, and each stands under the key
/// of its number. None if the log ends before.
///
/// Errors: the first thing that is wrong, of the answer, then pair by pair.
pub fn read_range_answer(
    alloc: Global,
    from: u64,
    answer: &Answer,
) -> Result<Vec<LogRecord>, AnswerError>
    ensures ok { IfOk result (λ records. IsRange from answer.now records.items) }
    ensures err { IfErr result (IsRangeFault from answer.now) }
{
    let mut scratch = Scratch::new(alloc);
    let document = read_document(alloc, answer, &mut scratch)?;
    Ok(read_range(alloc, from, &document)?)
}

// The records that an answer's value holds.
fn read_range(alloc: Global, from: u64, document: &Value<'_>) -> Result<Vec<LogRecord>, AnswerError>
    ensures ok { IfOk result (λ records. HoldsRecords from (value_view document.now) records.items) }
    ensures err { IfErr result (IsHoldingFault from (value_view document.now)) }
{
    let Some(_header) = document.get("header") else {
        return Err(AnswerError::NoField(Field::Header));
    };
    let member = match document.get("kvs") {
        Some(member) => member,
        None => return Ok(Vec::new(alloc)),
    };
    let Some(pairs) = items_of(member) else {
        return Err(AnswerError::NoField(Field::Pairs));
    };
    let records = read_pairs(alloc, from, pairs)?;
    Ok(records)
}

// The items of an array; none if the value is no array.
fn items_of<'v, 'a>(value: &'v Value<'a>) -> Option<&'v [Value<'a>]>
    ensures { MatchOption result (as_array (value_view value.now) ≡ None)
        (λ items. as_array (value_view value.now) ≡ Some (items_view items.now)) }
{
    if let Value::Array(items) = value {
        Some(items)
    } else {
        None
    }
}

// The records of pairs, the first of this number.
fn read_pairs(alloc: Global, from: u64, pairs: &[Value<'_>]) -> Result<Vec<LogRecord>, AnswerError>
    ensures ok { IfOk result (λ records. AreRecords from (map value_view pairs.now) records.items) }
    ensures err { IfErr result (IsListFault from (map value_view pairs.now)) }
{
    let mut records = Vec::new(alloc);
    let mut number = from;
    for pair in pairs {
        let record = read_pair(alloc, number, pair)?;
        records.push(record)?;
        number += 1;
    }
    Ok(records)
}

// The record of a pair, which has this number.
fn read_pair(alloc: Global, number: u64, pair: &Value<'_>) -> Result<LogRecord, AnswerError>
    ensures ok { IfOk result (IsRecordAt number (value_view pair.now)) }
    ensures err { IfErr result (IsPairFault number (value_view pair.now)) }
{
    check_key(alloc, number, pair)?;
    let text = bytes_in(alloc, pair, Field::Value)?;
    let record = match read_record(alloc, &text) {
        Ok(record) => record,
        Err(TextError::NoMemory) => return Err(AnswerError::NoMemory),
        Err(error) => return Err(AnswerError::NoRecord { number, error }),
    };
    if record.head().number == number {
        Ok(record)
    } else {
        Err(AnswerError::OtherNumber { number })
    }
}
