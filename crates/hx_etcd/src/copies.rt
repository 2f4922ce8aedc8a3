//! How much of a log its copies have.
ghost use Rattle.std.specs.Prelude.{◌≡◌, IfOk, codes};
ghost use Rattle.hx_etcd.specs.Documents.{copy_text, copy_question_text};
ghost use Rattle.hx_etcd.specs.Requests.{request_text};

use crate::documents::{encoded, finding, putting};
use crate::keys::copy_key;
use crate::requests::request;
use hx_units::NoMemory;
use itoa::Buffer;
use std::alloc::Global;

// The text that shows how many records a copy has.
fn copy_body(alloc: Global, copy: u64, count: u64) -> Result<Vec<u8>, NoMemory>
    ensures { IfOk result (λ body. body.items ≡ copy_text copy count) }
{
    let mut buffer = Buffer::new();
    let bytes = copy_key(alloc, copy)?;
    let key = encoded(alloc, &bytes)?;
    let value = encoded(alloc, buffer.format(count).as_bytes())?;
    putting(alloc, key.as_str(), value.as_str())
}

// The question for it.
fn copy_question_body(alloc: Global, copy: u64) -> Result<Vec<u8>, NoMemory>
    ensures { IfOk result (λ body. body.items ≡ copy_question_text copy) }
{
    let bytes = copy_key(alloc, copy)?;
    let key = encoded(alloc, &bytes)?;
    finding(alloc, key.as_str())
}

/// The request by which a copy of the log shows how many records it has: it puts the count, in decimal, under the key
/// `hc/` and the copy's number, over what stands there. Its answer says nothing of use.
pub fn copy_request(alloc: Global, copy: u64, count: u64) -> Result<Vec<u8>, NoMemory>
    ensures { IfOk result (λ text.
        text.items ≡ request_text (codes "/v3/kv/put") (copy_text copy count)) }
{
    let body = copy_body(alloc, copy, count)?;
    request(alloc, b"/v3/kv/put", &body)
}

/// The request for what a copy has shown. `read_heartbeat_answer` reads the answer.
pub fn copy_question(alloc: Global, copy: u64) -> Result<Vec<u8>, NoMemory>
    ensures { IfOk result (λ text.
        text.items ≡ request_text (codes "/v3/kv/range") (copy_question_text copy)) }
{
    let body = copy_question_body(alloc, copy)?;
    request(alloc, b"/v3/kv/range", &body)
}
