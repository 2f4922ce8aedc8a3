use super::answer;
use super::texts::{ASK_7, ASK_8, HEARTBEAT_7, HEARTBEAT_HEAD, NO_HEARTBEAT, RANGE_HEAD, SEEN_7};
use crate::tests::equal;
use hx_etcd::{AnswerError, Field, heartbeat_question, heartbeat_request, read_heartbeat_answer};
use std::alloc::Global;
use std::process::Abort;

// A whole request: its head, the length of its body, and the body.
fn whole<R: Abort>(rt: &R, alloc: Global, head: &str, body: &str) -> String {
    let size = body.len();
    format!(in alloc; "{head}{size}\r\n\r\n{body}").expect(rt, "memory")
}

#[test]
fn heartbeats_are_spelled(rt: HostRuntime) {
    let alloc = rt.alloc();
    equal(
        &rt,
        heartbeat_request(alloc, 7, b"12")
            .expect(&rt, "memory")
            .as_slice(),
        whole(&rt, alloc, HEARTBEAT_HEAD, HEARTBEAT_7).as_bytes(),
    );
    for (writer, body) in [(7, ASK_7), (8, ASK_8)] {
        equal(
            &rt,
            heartbeat_question(alloc, writer)
                .expect(&rt, "memory")
                .as_slice(),
            whole(&rt, alloc, RANGE_HEAD, body).as_bytes(),
        );
    }
}

#[test]
fn heartbeats_are_reported(rt: HostRuntime) {
    let alloc = rt.alloc();
    let seen = read_heartbeat_answer(alloc, &answer(&rt, alloc, 200, SEEN_7)).expect(
        &rt,
        "an answer",
    );
    equal(&rt, seen.as_deref(), Some(b"12".as_slice()));
    let none = read_heartbeat_answer(alloc, &answer(&rt, alloc, 200, NO_HEARTBEAT)).expect(
        &rt,
        "an answer",
    );
    equal(&rt, none.as_deref(), None);
}

// An answer, and why it has no heartbeat.
const FAULTS: &[(u16, &str, AnswerError)] = &[
    (503, SEEN_7, AnswerError::Status(503)),
    (200, "", AnswerError::NoJson),
    (200, r#"{"kvs":[]}"#, AnswerError::NoField(Field::Header)),
    (
        200,
        r#"{"header":{},"kvs":[{"key":"aHkvNw=="}]}"#,
        AnswerError::NoField(Field::Value),
    ),
    (
        200,
        r#"{"header":{},"kvs":[{"value":"*"}]}"#,
        AnswerError::NotBase64(Field::Value),
    ),
];

#[test]
fn bad_answers_to_questions_for_heartbeats_are_named(rt: HostRuntime) {
    let alloc = rt.alloc();
    for (status, body, fault) in FAULTS {
        match read_heartbeat_answer(alloc, &answer(&rt, alloc, *status, body)) {
            Ok(_) => panic!(rt; "the answer is bad"),
            Err(error) => equal(&rt, error, *fault),
        }
    }
}
