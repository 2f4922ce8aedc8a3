//! Whether a request comes from a web page of this address, and whether it asks for a WebSocket (RFC 6455, section
//! 4.2.1).
ghost use Rattle.std.specs.Prelude.{◌≡◌, ℕ, List, IfSome, IfNone};
ghost use Rattle.hx_web.specs.Handshakes.{value_of, begins_with, is_local_host, is_local, is_same_origin, asks_upgrade, asks_websocket, Accepts};

use http::header::{
    CONNECTION, HOST, HeaderMap, HeaderName, HeaderValue, ORIGIN, SEC_WEBSOCKET_KEY,
    SEC_WEBSOCKET_VERSION, UPGRADE,
};
use websocket::handshake::server::accept_key;

// The first value of a header; no bytes if it is not there.
fn value_of(headers: &HeaderMap<HeaderValue>, name: HeaderName) -> &[u8]
    ensures { result.now ≡ value_of headers.now name }
{
    match headers.get(name) {
        Some(value) => value.as_bytes(),
        None => &[],
    }
}

fn begins_with(text: &[u8], beginning: &[u8]) -> bool
    ensures { result ≡ begins_with text.now beginning.now }
{
    text.starts_with(beginning)
}

fn is_local_host(host: &[u8]) -> bool
    ensures { result ≡ is_local_host host.now }
{
    host == b"127.0.0.1".as_slice()
        || host == b"localhost".as_slice()
        || begins_with(host, b"127.0.0.1:")
        || begins_with(host, b"localhost:")
}

/// Whether a request is for this machine by a name of its own: a web page from elsewhere whose name leads here as well
/// has another.
pub fn is_local(headers: &HeaderMap<HeaderValue>) -> bool
    ensures { result ≡ is_local headers.now }
{
    is_local_host(value_of(headers, HOST))
}

// Whether a request is from a web page of the same address, or from no web page.
fn is_same_origin(headers: &HeaderMap<HeaderValue>) -> bool
    ensures { result ≡ is_same_origin headers.now }
{
    let origin = value_of(headers, ORIGIN);
    if origin.is_empty() {
        return true;
    }
    match origin.strip_prefix(b"http://") {
        Some(host) => host == value_of(headers, HOST),
        None => false,
    }
}

// Whether a header says what browsers say to ask for another protocol.
fn asks_upgrade(connection: &[u8]) -> bool
    ensures { result ≡ asks_upgrade connection.now }
{
    connection == b"Upgrade".as_slice()
        || connection == b"upgrade".as_slice()
        || connection == b"keep-alive, Upgrade".as_slice()
}

fn asks_websocket(headers: &HeaderMap<HeaderValue>) -> bool
    ensures { result ≡ asks_websocket headers.now }
{
    asks_upgrade(value_of(headers, CONNECTION))
        && value_of(headers, UPGRADE) == b"websocket".as_slice()
        && value_of(headers, SEC_WEBSOCKET_VERSION) == b"13".as_slice()
        && is_same_origin(headers)
}

/// The value of `Sec-WebSocket-Accept`, if the headers ask for a WebSocket of version 13, from a web page of the same
/// address; else none. It takes no memory.
pub fn accepted(headers: &HeaderMap<HeaderValue>) -> Option<[u8; 28]>
    ensures some { IfSome result (Accepts headers.now) }
    ensures none { IfNone result ((key : List ℕ) → ¬ (Accepts headers.now key)) }
{
    if !asks_websocket(headers) {
        return None;
    }
    match accept_key(value_of(headers, SEC_WEBSOCKET_KEY)) {
        Ok(key) => Some(key),
        Err(_) => None,
    }
}
