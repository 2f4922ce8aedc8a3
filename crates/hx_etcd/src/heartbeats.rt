//! The heartbeats of a log's writers.
ghost use Rattle.std.specs.Prelude.{◌≡◌, IfOk, IfErr, codes, option_map};
ghost use Rattle.json.specs.Value.{value_view};
ghost use Rattle.hx_etcd.specs.Documents.{heartbeat_text, heartbeat_question_text};
ghost use Rattle.hx_etcd.specs.Requests.{request_text};
ghost use Rattle.hx_etcd.specs.Heartbeats.{first_pair, HoldsHeartbeat, IsHoldingFault, IsHeartbeat, IsHeartbeatFault};

use crate::documents::{heartbeat_body, heartbeat_question_body};
use crate::reported::{Answer, AnswerError, Field, bytes_in, read_document};
use crate::requests::request;
use hx_units::NoMemory;
use json::{Scratch, Value};
use std::alloc::Global;

/// The request by which a writer writes its heartbeat: it puts this text under the key `hy/` and the writer's number,
/// over what stands there. Its answer says nothing of use.
pub fn heartbeat_request(alloc: Global, writer: u64, heartbeat: &[u8]) -> Result<Vec<u8>, NoMemory>
    ensures { IfOk result (λ text.
        text.items ≡ request_text (codes "/v3/kv/put") (heartbeat_text writer heartbeat.now)) }
{
    let body = heartbeat_body(alloc, writer, heartbeat)?;
    request(alloc, b"/v3/kv/put", &body)
}

/// The request for a writer's heartbeat. `read_heartbeat_answer` reads the answer.
pub fn heartbeat_question(alloc: Global, writer: u64) -> Result<Vec<u8>, NoMemory>
    ensures { IfOk result (λ text.
        text.items ≡ request_text (codes "/v3/kv/range") (heartbeat_question_text writer)) }
{
    let body = heartbeat_question_body(alloc, writer)?;
    request(alloc, b"/v3/kv/range", &body)
}

/// The heartbeat that an answer holds; none if the writer has written none.
///
/// Errors: the first thing that is wrong.
pub fn read_heartbeat_answer(alloc: Global, answer: &Answer) -> Result<Option<Vec<u8>>, AnswerError>
    ensures ok { IfOk result (IsHeartbeat answer.now) }
    ensures err { IfErr result (IsHeartbeatFault answer.now) }
{
    let mut scratch = Scratch::new(alloc);
    let document = read_document(alloc, answer, &mut scratch)?;
    Ok(read_heartbeat(alloc, &document)?)
}

// The heartbeat that an answer's value holds.
fn read_heartbeat(alloc: Global, document: &Value<'_>) -> Result<Option<Vec<u8>>, AnswerError>
    ensures ok { IfOk result (HoldsHeartbeat (value_view document.now)) }
    ensures err { IfErr result (IsHoldingFault (value_view document.now)) }
{
    if document.get("header").is_none() {
        return Err(AnswerError::NoField(Field::Header));
    }
    let Some(pair) = first_pair(document) else {
        return Ok(None);
    };
    Ok(Some(bytes_in(alloc, pair, Field::Value)?))
}

// The first pair of an answer.
fn first_pair<'v, 'a>(document: &'v Value<'a>) -> Option<&'v Value<'a>>
    ensures { option_map (λ v. value_view v.now) result ≡ first_pair (value_view document.now) }
{
    document.get("kvs")?.at(0)
}
