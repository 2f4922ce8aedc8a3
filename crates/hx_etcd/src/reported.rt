//! Answers, and what may be wrong with them.
ghost use Rattle.std.specs.Prelude.{◌≡◌, IfOk, IfErr, option_map};
ghost use Rattle.json.specs.Value.{value_view};
ghost use Rattle.hx_etcd.specs.Answers.{HasDocument, IsDocumentFault, name_of, text_in, flag_in, IsBytesIn, IsBytesFault, is_reported};
ghost use Rattle.hx_etcd.specs.declared.reported.AnswerError.TheVariants.{NoMemory};

use base64::DecodeAllocError;
use base64::engine::general_purpose::STANDARD;
use hx_fenced_log::TextError;
use json::{Error, Scratch, Value};
use std::alloc::{AllocError, AllocFailed, Global};

/// What a request was answered: HTTP's status, and the text of the body.
#[derive(Drop)]
pub struct Answer {
    /// The status; 200 if etcd did what was asked.
    pub status: u16,
    /// The body.
    pub body: Vec<u8>,
}

/// A member of an answer.
#[derive(Clone, Copy, Debug, PartialEq, Eq, Drop)]
pub enum Field {
    /// `header`, which each answer has.
    Header,
    /// `kvs`, the pairs of keys and values that were found, or the first of them.
    Pairs,
    /// `key` of a pair.
    Key,
    /// `value` of a pair.
    Value,
    /// `revision` of a header.
    Revision,
}

/// Why an answer reports nothing.
#[derive(Clone, Copy, Debug, PartialEq, Eq, Drop)]
pub enum AnswerError {
    /// Its status is not 200, but this.
    Status(u16),
    /// Its body is no JSON text.
    NoJson,
    /// A member is not there, or of another type.
    NoField(Field),
    /// A member's text is not base64.
    NotBase64(Field),
    /// A pair has another key than that of the record of this number, which is due there.
    NoKey {
        /// The record's number.
        number: u64,
    },
    /// Under the key of this number is no record.
    NoRecord {
        /// The key's number.
        number: u64,
        /// What is wrong with the value.
        error: TextError,
    },
    /// The record under the key of this number has another number.
    OtherNumber {
        /// The key's number.
        number: u64,
    },
    /// A growth was refused: the answer may be good.
    NoMemory,
}

impl From<AllocError> for AnswerError {
    ghost from_gives = { λ _ e. e ≡ NoMemory };

    fn from(_error: AllocError) -> AnswerError {
        AnswerError::NoMemory
    }
}

impl<T: Drop> From<AllocFailed<T>> for AnswerError {
    ghost from_gives = { λ _ e. e ≡ NoMemory };

    fn from(_error: AllocFailed<T>) -> AnswerError {
        AnswerError::NoMemory
    }
}

impl Field {
    // The name of a pair's member.
    pub(crate) fn name(self) -> &'static str
        ensures { result.now ≡ name_of self }
    {
        match self {
            Field::Header => "header",
            Field::Pairs => "kvs",
            Field::Key => "key",
            Field::Value => "value",
            Field::Revision => "revision",
        }
    }
}

// The JSON value of an answer's body.
pub(crate) fn read_document<'a>(
    alloc: Global,
    answer: &'a Answer,
    scratch: &'a mut Scratch,
) -> Result<Value<'a>, AnswerError>
    ensures ok { IfOk result (λ v. HasDocument answer.now (value_view v)) }
    ensures err { IfErr result (IsDocumentFault answer.now) }
{
    if answer.status != 200 {
        return Err(AnswerError::Status(answer.status));
    }
    match Value::from_slice(alloc, &answer.body, scratch) {
        Ok(value) => Ok(value),
        Err(Error::OutOfMemory) => Err(AnswerError::NoMemory),
        Err(_) => Err(AnswerError::NoJson),
    }
}

// Whether a member is there and `true`. etcd leaves it out if it is not.
pub(crate) fn is_reported(value: &Value<'_>, name: &str) -> bool
    ensures { result ≡ is_reported name.now (value_view value.now) }
{
    match flag_in(value, name) {
        Some(flag) => flag,
        None => false,
    }
}

// The member of this name, if it is a flag.
fn flag_in(value: &Value<'_>, name: &str) -> Option<bool>
    ensures { result ≡ flag_in name.now (value_view value.now) }
{
    match value.get(name) {
        Some(member) => member.as_bool(),
        None => None,
    }
}

// The member of this name, if it is a text.
pub(crate) fn text_in<'a>(value: &Value<'a>, name: &str) -> Option<&'a str>
    ensures { option_map (λ s. s.now) result ≡ text_in name.now (value_view value.now) }
{
    match value.get(name) {
        Some(member) => member.as_str(),
        None => None,
    }
}

// The bytes that a member of a pair has in base64.
#[tactic(auto, unfolding(crate::specs::Answers::bytes_of))]
pub(crate) fn bytes_in(
    alloc: Global,
    pair: &Value<'_>,
    field: Field,
) -> Result<Vec<u8>, AnswerError>
    ensures ok { IfOk result (λ v. IsBytesIn field (value_view pair.now) v.items) }
    ensures err { IfErr result (IsBytesFault field (value_view pair.now)) }
{
    let Some(text) = text_in(pair, field.name()) else {
        return Err(AnswerError::NoField(field));
    };
    match STANDARD.decode(alloc, text.as_bytes()) {
        Ok(bytes) => Ok(bytes),
        Err(DecodeAllocError::OutOfMemory) => Err(AnswerError::NoMemory),
        Err(DecodeAllocError::DecodeError(_)) => Err(AnswerError::NotBase64(field)),
    }
}
