//! What the service answers, over memory.

use super::venue::Model;
use crate::tests::answered::answered;
use crate::tests::{equal, holds};
use http_server::{Reason, Refusal, State};
use hx_metrics::{Health, MetricsService};
use std::process::Abort;
use std::random::RandomSource;

const METRICS: &str = "# HELP hx_events_total Events that are recorded.
# TYPE hx_events_total counter
hx_events_total 3
";

// One request gets this answer, however it is cut, and the connection stays open.
fn is_answered<R: AllocGlobal + RandomSource + Abort>(
    rt: &R,
    health: Health,
    request: &[u8],
    answer: &[u8],
) {
    for step in [1, 7, 1000] {
        let venue = Model::new(health);
        let (state, output) = answered(
            rt,
            &mut MetricsService::new(rt.alloc(), &venue),
            request,
            step,
        );
        equal(rt, state, State::Open);
        equal(rt, output.as_slice(), answer);
    }
}

#[test]
fn figures_are_read(rt: HostRuntime) {
    let head = b"HTTP/1.1 200 OK\r\n\
        content-type: text/plain; version=0.0.4; charset=utf-8\r\ncontent-length: 98\r\n\r\n";
    let mut answer = Vec::from_slice(rt.alloc(), head).expect(&rt, "memory");
    let request = b"HEAD /metrics HTTP/1.1\r\nHost: h\r\n\r\n";
    is_answered(&rt, Health::Ready, request, &answer);
    answer
        .extend_from_slice(METRICS.as_bytes())
        .expect(&rt, "memory");
    let request = b"GET /metrics HTTP/1.1\r\nHost: h\r\n\r\n";
    is_answered(&rt, Health::Ready, request, &answer);
    let request = b"GET /metrics?name=value HTTP/1.1\r\nHost: h\r\n\r\n";
    is_answered(&rt, Health::Stopped, request, &answer);
    let request = b"GET http://h/metrics HTTP/1.1\r\nHost: h\r\n\r\n";
    is_answered(&rt, Health::Stopped, request, &answer);
}

#[test]
fn health_is_reported(rt: HostRuntime) {
    let cases: [(Health, &[u8]); 3] = [
        (
            Health::Ready,
            b"HTTP/1.1 200 OK\r\n\
                content-type: text/plain; charset=utf-8\r\ncontent-length: 3\r\n\r\nok\n",
        ),
        (
            Health::Waiting,
            b"HTTP/1.1 503 Service Unavailable\r\n\
                content-type: text/plain; charset=utf-8\r\ncontent-length: 27\r\n\r\n\
                the journal waits for room\n",
        ),
        (
            Health::Stopped,
            b"HTTP/1.1 503 Service Unavailable\r\n\
                content-type: text/plain; charset=utf-8\r\ncontent-length: 23\r\n\r\n\
                the journal has failed\n",
        ),
    ];
    for (health, answer) in cases {
        let request = b"GET /health HTTP/1.1\r\nHost: h\r\n\r\n";
        is_answered(&rt, health, request, answer);
    }
}

#[test]
fn nothing_else_is_there(rt: HostRuntime) {
    let not_found = b"HTTP/1.1 404 Not Found\r\ncontent-length: 0\r\n\r\n";
    let others: [&[u8]; 4] = [
        b"GET / HTTP/1.1\r\nHost: h\r\n\r\n",
        b"GET /metrics/ HTTP/1.1\r\nHost: h\r\n\r\n",
        b"GET /Health HTTP/1.1\r\nHost: h\r\n\r\n",
        b"DELETE /orders HTTP/1.1\r\nHost: h\r\n\r\n",
    ];
    for request in others {
        is_answered(&rt, Health::Ready, request, not_found);
    }
}

#[test]
fn it_is_only_read(rt: HostRuntime) {
    let not_allowed =
        b"HTTP/1.1 405 Method Not Allowed\r\nallow: GET, HEAD\r\ncontent-length: 0\r\n\r\n";
    let others: [&[u8]; 4] = [
        b"POST /metrics HTTP/1.1\r\nHost: h\r\nContent-Length: 3\r\n\r\nabc",
        b"DELETE /metrics HTTP/1.1\r\nHost: h\r\n\r\n",
        b"get /health HTTP/1.1\r\nHost: h\r\n\r\n",
        b"OPTIONS /health HTTP/1.1\r\nHost: h\r\n\r\n",
    ];
    for request in others {
        is_answered(&rt, Health::Ready, request, not_allowed);
    }
}

#[test]
fn requests_that_come_at_once_are_answered_in_order(rt: HostRuntime) {
    let input = b"GET /health HTTP/1.1\r\nHost: h\r\n\r\n\
        GET /orders HTTP/1.1\r\nHost: h\r\n\r\n\
        GET /health HTTP/1.1\r\nHost: h\r\nConnection: close\r\n\r\n\
        GET /health HTTP/1.1\r\nHost: h\r\n\r\n";
    let output = b"HTTP/1.1 200 OK\r\n\
        content-type: text/plain; charset=utf-8\r\ncontent-length: 3\r\n\r\nok\n\
        HTTP/1.1 404 Not Found\r\ncontent-length: 0\r\n\r\n\
        HTTP/1.1 200 OK\r\n\
        content-type: text/plain; charset=utf-8\r\ncontent-length: 3\r\n\
        connection: close\r\n\r\nok\n";
    for step in [1, 10, 1000] {
        let venue = Model::new(Health::Ready);
        let (state, sent) = answered(
            &rt,
            &mut MetricsService::new(rt.alloc(), &venue),
            input,
            step,
        );
        equal(&rt, state, State::Closing(Reason::Asked));
        equal(&rt, sent.as_slice(), output.as_slice());
    }
}

// What is no request is refused, and nobody is asked of the venue.
#[test]
fn garbage_is_refused(rt: HostRuntime) {
    let venue = Model::new(Health::Ready);
    let mut service = MetricsService::new(rt.alloc(), &venue);
    let (state, output) = answered(&rt, &mut service, b"\0\x01\x02 what?\r\n\r\n", 1000);
    let refused = matches!(
        state,
        State::Closing(Reason::Refused(Refusal::Unreadable(_)))
    );
    holds(&rt, refused && !service.is_read);
    let bad_request = b"HTTP/1.1 400 Bad Request\r\nconnection: close\r\ncontent-length: 0\r\n\r\n";
    equal(&rt, output.as_slice(), bad_request.as_slice());
}
