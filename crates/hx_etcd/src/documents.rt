//! The JSON texts of requests.
ghost use Rattle.std.specs.Prelude.{◌≡◌, IfOk};
ghost use Rattle.std.specs.String.{string_bytes};
ghost use Rattle.json.specs.Print.{print};
ghost use Rattle.json.specs.Tree.{json_tokens};
ghost use Rattle.hx_etcd.specs.Documents.{base64_of, transaction_of, before_key, before_said, question_of, putting_of, finding_of, append_text, range_text, heartbeat_text, heartbeat_question_text};
ghost use Rattle.hx_etcd.specs.Keys.{key_of, keys_end, heartbeat_key};

use crate::keys::{heartbeat_key, key};
use crate::parts::Part::{Array, EndArray, EndObject, Key, Object, Text};
use crate::parts::text_of;
use base64::engine::general_purpose::STANDARD;
use hx_fenced_log::LogRecord;
use hx_units::NoMemory;
use itoa::Buffer;
use std::alloc::Global;

// The first key after those of records: "0" is the byte after "/".
const KEYS_END: &[u8; 3] = b"hx0";

// The key that stands once the log was trimmed.
pub(crate) const TRIM_KEY: &[u8; 2] = b"hz";

// Bytes as JSON has them.
#[tactic(auto, unfolding(crate::specs::Documents::base64_of))]
pub(crate) fn encoded(alloc: Global, bytes: &[u8]) -> Result<String, NoMemory>
    ensures { IfOk result (λ text. string_bytes text ≡ base64_of bytes.now) }
{
    Ok(STANDARD.encode(alloc, bytes)?)
}

// The key of a number as JSON has it.
pub(crate) fn encoded_key(alloc: Global, number: u64) -> Result<String, NoMemory>
    ensures { IfOk result (λ text. string_bytes text ≡ base64_of (key_of number)) }
{
    let key = key(alloc, number)?;
    encoded(alloc, &key)
}

// What a compare says of a key: that it is not there, or that it is.
const ABSENT: &str = "EQUAL";

const PRESENT: &str = "GREATER";

// The transaction that puts a value if its key is not there and this holds of another one, and else reads the key.
fn transaction<'a>(
    alloc: Global,
    key: &'a str,
    value: &'a str,
    said: &'a str,
    other: &'a str,
) -> Result<Vec<u8>, NoMemory>
    ensures { IfOk result (λ text. text.items
        ≡ print (json_tokens (transaction_of key.now value.now said.now other.now))) }
{
    text_of(
        alloc,
        &[
            Object,
            Key("compare"),
            Array,
            Object,
            Key("key"),
            Text(key),
            Key("target"),
            Text("VERSION"),
            Key("result"),
            Text("EQUAL"),
            Key("version"),
            Text("0"),
            EndObject,
            Object,
            Key("key"),
            Text(other),
            Key("target"),
            Text("VERSION"),
            Key("result"),
            Text(said),
            Key("version"),
            Text("0"),
            EndObject,
            EndArray,
            Key("success"),
            Array,
            Object,
            Key("requestPut"),
            Object,
            Key("key"),
            Text(key),
            Key("value"),
            Text(value),
            EndObject,
            EndObject,
            EndArray,
            Key("failure"),
            Array,
            Object,
            Key("requestRange"),
            Object,
            Key("key"),
            Text(key),
            EndObject,
            EndObject,
            EndArray,
            EndObject,
        ],
    )
}

// The question for what stands from one key up to another.
fn question<'a>(
    alloc: Global,
    key: &'a str,
    end: &'a str,
    most: &'a str,
) -> Result<Vec<u8>, NoMemory>
    ensures { IfOk result (λ text.
        text.items ≡ print (json_tokens (question_of key.now end.now most.now))) }
{
    text_of(
        alloc,
        &[
            Object,
            Key("key"),
            Text(key),
            Key("range_end"),
            Text(end),
            Key("limit"),
            Text(most),
            EndObject,
        ],
    )
}

// The key of which something holds if a record of this number is the next one.
fn encoded_before(alloc: Global, number: u64) -> Result<String, NoMemory>
    ensures { IfOk result (λ text. string_bytes text ≡ base64_of (before_key number)) }
{
    if number > 1 {
        encoded_key(alloc, number - 1)
    } else {
        encoded(alloc, TRIM_KEY)
    }
}

// What holds of that key.
fn said_before(number: u64) -> &'static str
    ensures { result.now ≡ before_said number }
{
    if number > 1 { PRESENT } else { ABSENT }
}

// The transaction that makes a record if it is the next one and its key is not there, and else reads what is there.
pub(crate) fn append_body(alloc: Global, appended: &LogRecord) -> Result<Vec<u8>, NoMemory>
    ensures { IfOk result (λ body. body.items ≡ append_text appended.now) }
{
    let number = appended.head().number;
    let key = encoded_key(alloc, number)?;
    let spelled = appended.spelled(alloc)?;
    let value = encoded(alloc, &spelled)?;
    let before = encoded_before(alloc, number)?;
    transaction(
        alloc,
        key.as_str(),
        value.as_str(),
        said_before(number),
        before.as_str(),
    )
}

// The question for the records from a number on, at most `most`.
pub(crate) fn range_body(alloc: Global, from: u64, most: u64) -> Result<Vec<u8>, NoMemory>
    ensures { IfOk result (λ body. body.items ≡ range_text from most) }
{
    let mut buffer = Buffer::new();
    let key = encoded_key(alloc, from)?;
    let end = encoded(alloc, KEYS_END)?;
    question(alloc, key.as_str(), end.as_str(), buffer.format(most))
}

// The text that puts a value under a key.
pub(crate) fn putting<'a>(alloc: Global, key: &'a str, value: &'a str) -> Result<Vec<u8>, NoMemory>
    ensures { IfOk result (λ text.
        text.items ≡ print (json_tokens (putting_of key.now value.now))) }
{
    text_of(
        alloc,
        &[
            Object,
            Key("key"),
            Text(key),
            Key("value"),
            Text(value),
            EndObject,
        ],
    )
}

// The question for what stands under a key.
pub(crate) fn finding<'a>(alloc: Global, key: &'a str) -> Result<Vec<u8>, NoMemory>
    ensures { IfOk result (λ text.
        text.items ≡ print (json_tokens (finding_of key.now))) }
{
    text_of(alloc, &[Object, Key("key"), Text(key), EndObject])
}

// The key of a writer's heartbeat as JSON has it.
fn encoded_heartbeat_key(alloc: Global, writer: u64) -> Result<String, NoMemory>
    ensures { IfOk result (λ text. string_bytes text ≡ base64_of (heartbeat_key writer)) }
{
    let key = heartbeat_key(alloc, writer)?;
    encoded(alloc, &key)
}

// The text that writes a writer's heartbeat.
pub(crate) fn heartbeat_body(
    alloc: Global,
    writer: u64,
    heartbeat: &[u8],
) -> Result<Vec<u8>, NoMemory>
    ensures { IfOk result (λ body. body.items ≡ heartbeat_text writer heartbeat.now) }
{
    let key = encoded_heartbeat_key(alloc, writer)?;
    let value = encoded(alloc, heartbeat)?;
    putting(alloc, key.as_str(), value.as_str())
}

// The question for it.
pub(crate) fn heartbeat_question_body(alloc: Global, writer: u64) -> Result<Vec<u8>, NoMemory>
    ensures { IfOk result (λ body. body.items ≡ heartbeat_question_text writer) }
{
    let key = encoded_heartbeat_key(alloc, writer)?;
    finding(alloc, key.as_str())
}
