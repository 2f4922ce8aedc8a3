//! The trimming of a log: what is asked for, and what the answers say.
ghost use Rattle.std.specs.Prelude.{◌≡◌, IfOk, IfErr, IfSome, IfNone, OnOk, codes};
ghost use Rattle.json.specs.Print.{print};
ghost use Rattle.json.specs.Tree.{json_tokens};
ghost use Rattle.json.specs.Value.{value_view};
ghost use Rattle.hx_etcd.specs.Documents.{trimming_of, compacting_of, trim_text, compact_text};
ghost use Rattle.hx_etcd.specs.Requests.{request_text};
ghost use Rattle.hx_etcd.specs.Trims.{HasRevision, HasNoRevision, Says, IsSayingFault, IsTrimmed, IsTrimFault, IsCompacted, IsCompactFault};

use crate::documents::{TRIM_KEY, encoded, encoded_key};
use crate::parts::Part::{Array, EndArray, EndObject, Key, Object, Text};
use crate::parts::text_of;
use crate::reported::{Answer, AnswerError, Field, is_reported, read_document, text_in};
use crate::requests::request;
use hx_units::{NoMemory, read_number};
use itoa::Buffer;
use json::{Scratch, Value};
use std::alloc::Global;

/// What became of a trim.
#[derive(Clone, Copy, Debug, PartialEq, Eq, Drop)]
pub enum Trimmed {
    /// The records in front of the one that was named are deleted, and the mark stands.
    Done {
        /// The etcd's revision since then. A compaction up to it frees what they took.
        revision: u64,
    },
    /// The record that was named is not there: nothing is deleted.
    NotThere,
}

// The transaction that deletes the keys up to one that is there, and puts a value under another one.
fn trimming<'a>(
    alloc: Global,
    first: &'a str,
    end: &'a str,
    mark: &'a str,
    value: &'a str,
) -> Result<Vec<u8>, NoMemory>
    ensures { IfOk result (λ text. text.items
        ≡ print (json_tokens (trimming_of first.now end.now mark.now value.now))) }
{
    text_of(
        alloc,
        &[
            Object,
            Key("compare"),
            Array,
            Object,
            Key("key"),
            Text(end),
            Key("target"),
            Text("VERSION"),
            Key("result"),
            Text("GREATER"),
            Key("version"),
            Text("0"),
            EndObject,
            EndArray,
            Key("success"),
            Array,
            Object,
            Key("requestDeleteRange"),
            Object,
            Key("key"),
            Text(first),
            Key("range_end"),
            Text(end),
            EndObject,
            EndObject,
            Object,
            Key("requestPut"),
            Object,
            Key("key"),
            Text(mark),
            Key("value"),
            Text(value),
            EndObject,
            EndObject,
            EndArray,
            EndObject,
        ],
    )
}

// The text that trims the log in front of the record of this number.
fn trim_body(alloc: Global, number: u64) -> Result<Vec<u8>, NoMemory>
    ensures { IfOk result (λ body. body.items ≡ trim_text number) }
{
    let mut buffer = Buffer::new();
    let first = encoded_key(alloc, 1)?;
    let end = encoded_key(alloc, number)?;
    let mark = encoded(alloc, TRIM_KEY)?;
    let value = encoded(alloc, buffer.format(number).as_bytes())?;
    trimming(
        alloc,
        first.as_str(),
        end.as_str(),
        mark.as_str(),
        value.as_str(),
    )
}

/// The request that trims the log: if the record of this number stands, all in front of it are deleted, and it stays.
/// From then on a mark stands under `hz`. `read_trim_answer` reads the answer.
pub fn trim_request(alloc: Global, number: u64) -> Result<Vec<u8>, NoMemory>
    ensures { IfOk result (λ text.
        text.items ≡ request_text (codes "/v3/kv/txn") (trim_text number)) }
{
    let body = trim_body(alloc, number)?;
    request(alloc, b"/v3/kv/txn", &body)
}

// That a revision is compacted.
fn compacting<'a>(alloc: Global, revision: &'a str) -> Result<Vec<u8>, NoMemory>
    ensures { IfOk result (λ text.
        text.items ≡ print (json_tokens (compacting_of revision.now))) }
{
    text_of(alloc, &[Object, Key("revision"), Text(revision), EndObject])
}

// The text that gives up what is older than a revision.
fn compact_body(alloc: Global, revision: u64) -> Result<Vec<u8>, NoMemory>
    ensures { IfOk result (λ body. body.items ≡ compact_text revision) }
{
    let mut buffer = Buffer::new();
    compacting(alloc, buffer.format(revision))
}

/// The request that frees what was deleted before this revision. `read_compaction_answer` reads the answer.
pub fn compaction_request(alloc: Global, revision: u64) -> Result<Vec<u8>, NoMemory>
    ensures { IfOk result (λ text.
        text.items ≡ request_text (codes "/v3/kv/compaction") (compact_text revision)) }
{
    let body = compact_body(alloc, revision)?;
    request(alloc, b"/v3/kv/compaction", &body)
}

/// What the answer to a trim says.
///
/// Errors: the first thing that is wrong. After one the log may be trimmed.
pub fn read_trim_answer(alloc: Global, answer: &Answer) -> Result<Trimmed, AnswerError>
    ensures ok { IfOk result (IsTrimmed answer.now) }
    ensures err { IfErr result (IsTrimFault answer.now) }
{
    let mut scratch = Scratch::new(alloc);
    let document = read_document(alloc, answer, &mut scratch)?;
    Ok(read_trimmed(&document)?)
}

// What the value of an answer to a trim says.
fn read_trimmed(document: &Value<'_>) -> Result<Trimmed, AnswerError>
    ensures ok { IfOk result (Says (value_view document.now)) }
    ensures err { IfErr result (IsSayingFault (value_view document.now)) }
{
    let Some(header) = document.get("header") else {
        return Err(AnswerError::NoField(Field::Header));
    };
    if !is_reported(document, "succeeded") {
        return Ok(Trimmed::NotThere);
    }
    match revision_in(header) {
        Some(revision) => Ok(Trimmed::Done { revision }),
        None => Err(AnswerError::NoField(Field::Revision)),
    }
}

// The revision that a header has.
fn revision_in(header: &Value<'_>) -> Option<u64>
    ensures some { IfSome result (HasRevision (value_view header.now)) }
    ensures none { IfNone result (HasNoRevision (value_view header.now)) }
{
    let text = text_in(header, Field::Revision.name())?;
    read_number(text.as_bytes())
}

/// The answer to a compaction says that it is made.
///
/// Errors: the first thing that is wrong.
pub fn read_compaction_answer(alloc: Global, answer: &Answer) -> Result<(), AnswerError>
    ensures ok { OnOk result (IsCompacted answer.now) }
    ensures err { IfErr result (IsCompactFault answer.now) }
{
    let mut scratch = Scratch::new(alloc);
    let document = read_document(alloc, answer, &mut scratch)?;
    match document.get("header") {
        Some(_) => Ok(()),
        None => Err(AnswerError::NoField(Field::Header)),
    }
}
