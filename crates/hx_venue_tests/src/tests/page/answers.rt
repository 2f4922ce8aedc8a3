//! What each request gets, over memory.

use super::news::news_of;
use crate::tests::answered::answered;
use crate::tests::{equal, holds};
use http_server::State;
use hx_market_view::MarketView;
use hx_web::WebService;
use std::process::Abort;
use std::random::RandomSource;

const SAFE: &str = "content-security-policy: default-src 'none'; script-src 'self'; \
    style-src 'self'; connect-src 'self'; img-src data:; base-uri 'none'; form-action 'none'; \
    frame-ancestors 'none'\r\nx-frame-options: DENY\r\nx-content-type-options: nosniff\r\n\
    referrer-policy: no-referrer\r\ncache-control: no-store\r\n";

// The state, and all that the page of a vendor who has heard of one stock answers.
fn answers<R: AllocGlobal + RandomSource + Abort>(
    rt: &R,
    input: &[u8],
    step: usize,
) -> (State, Vec<u8>) {
    let mut market_view = MarketView::new(rt.alloc());
    market_view
        .take(news_of(rt, r#"{"stock":"ABCD"}"#, 7))
        .expect(rt, "memory");
    answered(
        rt,
        &mut WebService::new(rt.alloc(), &market_view),
        input,
        step,
    )
}

// A request gets this answer, however it is cut.
fn is_answered<R: AllocGlobal + RandomSource + Abort>(
    rt: &R,
    request: &[u8],
    wanted: State,
    answer: &str,
) {
    for step in [1, 7, 1000] {
        let (state, output) = answers(rt, request, step);
        equal(rt, state, wanted);
        equal(rt, output.as_slice(), answer.as_bytes());
    }
}

#[test]
fn the_page_is_given(rt: HostRuntime) {
    let cases: [(&[u8], &[u8]); 4] = [
        (
            b"GET / HTTP/1.1\r\nHost: localhost:1\r\n\r\n",
            b"<!doctype html>",
        ),
        (
            b"GET /page.css HTTP/1.1\r\nHost: 127.0.0.1:1\r\n\r\n",
            b":root {",
        ),
        (
            b"GET /page.js HTTP/1.1\r\nHost: localhost\r\n\r\n",
            b"\"use strict\";",
        ),
        (
            b"GET /chart.js HTTP/1.1\r\nHost: 127.0.0.1\r\n\r\n",
            b"\"use strict\";",
        ),
    ];
    for (request, beginning) in cases {
        let (state, output) = answers(&rt, request, 1000);
        equal(&rt, state, State::Open);
        holds(
            &rt,
            output.starts_with(b"HTTP/1.1 200 OK\r\ncontent-type: text/"),
        );
        holds(
            &rt,
            output
                .windows(beginning.len().max(1))
                .any(|part| part == beginning),
        );
        holds(
            &rt,
            output
                .windows(SAFE.len())
                .any(|part| part == SAFE.as_bytes()),
        );
    }
}

#[test]
fn tools_read_the_book(rt: HostRuntime) {
    let alloc = rt.alloc();
    let head = "HTTP/1.1 200 OK\r\ncontent-type: application/json\r\n";
    let book = r#"{"feed":{},"stocks":[{"stock":"ABCD"}]}"#;
    let answer = format!(in alloc; "{head}{SAFE}content-length: 39\r\n\r\n{book}").expect(
        &rt, "memory",
    );
    let request = b"GET /book.json HTTP/1.1\r\nHost: localhost:1\r\n\r\n";
    is_answered(&rt, request, State::Open, answer.as_str());
    let day =
        r#"{"stocks":[{"stock":"ABCD","locate":1,"trades":[{"match":7,"time":7,"price":100000,"shares":10,"broken":false}]}]}"#;
    let answer = format!(in alloc; "{head}{SAFE}content-length: 114\r\n\r\n{day}").expect(
        &rt, "memory",
    );
    let request = b"GET /trades.json HTTP/1.1\r\nHost: localhost:1\r\n\r\n";
    is_answered(&rt, request, State::Open, answer.as_str());
    let chart =
        r#"{"stock":"ABCD","locate":1,"trades":[{"match":7,"time":7,"price":100000,"shares":10,"broken":false}],"quotes":[{"time":7,"bid":99900,"offer":null}]}"#;
    let answer = format!(in alloc; "{head}{SAFE}content-length: 148\r\n\r\n{chart}").expect(
        &rt, "memory",
    );
    let request = b"GET /chart/1.json HTTP/1.1\r\nHost: localhost:1\r\n\r\n";
    is_answered(&rt, request, State::Open, answer.as_str());
}

#[test]
fn nothing_else_is_there(rt: HostRuntime) {
    let alloc = rt.alloc();
    let answer = format!(in alloc;
        "HTTP/1.1 404 Not Found\r\n{SAFE}content-length: 0\r\n\r\n"
    ).expect(&rt, "memory");
    let others: [&[u8]; 4] = [
        b"GET /chart/2.json HTTP/1.1\r\nHost: localhost:1\r\n\r\n",
        b"GET /chart/01.json HTTP/1.1\r\nHost: localhost:1\r\n\r\n",
        b"GET /../etc/passwd HTTP/1.1\r\nHost: localhost:1\r\n\r\n",
        b"GET /Page.js HTTP/1.1\r\nHost: localhost:1\r\n\r\n",
    ];
    for request in others {
        is_answered(&rt, request, State::Open, answer.as_str());
    }
}

#[test]
fn it_is_only_read(rt: HostRuntime) {
    let alloc = rt.alloc();
    let refused = "HTTP/1.1 405 Method Not Allowed\r\nallow: GET\r\n";
    let answer = format!(in alloc; "{refused}{SAFE}content-length: 0\r\n\r\n").expect(
        &rt, "memory",
    );
    let others: [&[u8]; 3] = [
        b"POST / HTTP/1.1\r\nHost: localhost:1\r\nContent-Length: 3\r\n\r\nabc",
        b"DELETE /book.json HTTP/1.1\r\nHost: localhost:1\r\n\r\n",
        b"get / HTTP/1.1\r\nHost: localhost:1\r\n\r\n",
    ];
    for request in others {
        is_answered(&rt, request, State::Open, answer.as_str());
    }
}

#[test]
fn other_names_are_refused(rt: HostRuntime) {
    let alloc = rt.alloc();
    let answer = format!(in alloc;
        "HTTP/1.1 403 Forbidden\r\n{SAFE}content-length: 0\r\n\r\n"
    ).expect(&rt, "memory");
    let others: [&[u8]; 3] = [
        b"GET / HTTP/1.1\r\nHost: example.com\r\n\r\n",
        b"GET /book.json HTTP/1.1\r\nHost: localhost.example.com:80\r\n\r\n",
        b"GET / HTTP/1.1\r\nHost: 127.0.0.10\r\n\r\n",
    ];
    for request in others {
        is_answered(&rt, request, State::Open, answer.as_str());
    }
}

// The example of RFC 6455, section 1.3.
const ASKS: &str = "GET /live HTTP/1.1\r\nHost: localhost:1\r\nUpgrade: websocket\r\n\
    Connection: Upgrade\r\nSec-WebSocket-Key: dGhlIHNhbXBsZSBub25jZQ==\r\n\
    Sec-WebSocket-Version: 13\r\n";

#[test]
fn a_websocket_is_taken(rt: HostRuntime) {
    let alloc = rt.alloc();
    let answer = "HTTP/1.1 101 Switching Protocols\r\nupgrade: websocket\r\n\
        connection: upgrade\r\nsec-websocket-accept: s3pPLMBiTxaQ9kYGzzhZRbK+xOo=\r\n\r\n";
    let request = format!(in alloc; "{ASKS}\r\n").expect(&rt, "memory");
    is_answered(&rt, request.as_bytes(), State::Upgraded, answer);
    let request = format!(in alloc; "{ASKS}Origin: http://localhost:1\r\n\r\n").expect(
        &rt, "memory",
    );
    is_answered(&rt, request.as_bytes(), State::Upgraded, answer);
}

#[test]
fn no_other_websocket_is_taken(rt: HostRuntime) {
    let alloc = rt.alloc();
    let refused = "HTTP/1.1 426 Upgrade Required\r\nupgrade: websocket\r\n\
        connection: upgrade\r\n";
    let answer = format!(in alloc; "{refused}{SAFE}content-length: 0\r\n\r\n").expect(
        &rt, "memory",
    );
    let request = format!(in alloc; "{ASKS}Origin: http://example.com\r\n\r\n").expect(
        &rt, "memory",
    );
    is_answered(&rt, request.as_bytes(), State::Open, answer.as_str());
    let request = format!(in alloc; "{ASKS}Origin: https://localhost:1\r\n\r\n").expect(
        &rt, "memory",
    );
    is_answered(&rt, request.as_bytes(), State::Open, answer.as_str());
    let plain = b"GET /live HTTP/1.1\r\nHost: localhost:1\r\n\r\n";
    is_answered(&rt, plain, State::Open, answer.as_str());
}
