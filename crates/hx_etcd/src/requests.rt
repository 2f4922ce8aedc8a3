//! Requests, whole.
ghost use Rattle.std.specs.Prelude.{◌≡◌, IfOk, codes};
ghost use Rattle.hx_etcd.specs.Documents.{append_text, range_text};
ghost use Rattle.hx_etcd.specs.Requests.{request_text};

use crate::documents::{append_body, range_body};
use hx_fenced_log::LogRecord;
use hx_units::NoMemory;
use itoa::Buffer;
use std::alloc::Global;

// What stands in a request between its path and the length of its body.
const HEAD: &[u8] =
    b" HTTP/1.1\r\nHost: etcd\r\nContent-Type: application/json\r\nContent-Length: ";

// A request of this path and this JSON text.
pub(crate) fn request(alloc: Global, path: &[u8], body: &[u8]) -> Result<Vec<u8>, NoMemory>
    ensures { IfOk result (λ text. text.items ≡ request_text path.now body.now) }
{
    let mut buffer = Buffer::new();
    let mut text = Vec::with_capacity(alloc, body.len())?;
    text.extend_from_slice(b"POST ")?;
    text.extend_from_slice(path)?;
    text.extend_from_slice(HEAD)?;
    text.extend_from_slice(buffer.format(body.len()).as_bytes())?;
    text.extend_from_slice(b"\r\n\r\n")?;
    text.extend_from_slice(body)?;
    Ok(text)
}

/// The request that appends a record: it is made only if its key has none and the record before it stands, or for the
/// first one if nothing was trimmed; else the answer reports what its key has. `read_append_answer` reads the answer.
pub fn append_request(alloc: Global, appended: &LogRecord) -> Result<Vec<u8>, NoMemory>
    ensures { IfOk result (λ text.
        text.items ≡ request_text (codes "/v3/kv/txn") (append_text appended.now)) }
{
    let body = append_body(alloc, appended)?;
    request(alloc, b"/v3/kv/txn", &body)
}

/// The request for the records from a number on, in the order of their keys, and at most `most`; if that is 0, all.
/// `read_range_answer` reads the answer.
pub fn range_request(alloc: Global, from: u64, most: u64) -> Result<Vec<u8>, NoMemory>
    ensures { IfOk result (λ text.
        text.items ≡ request_text (codes "/v3/kv/range") (range_text from most)) }
{
    let body = range_body(alloc, from, most)?;
    request(alloc, b"/v3/kv/range", &body)
}
