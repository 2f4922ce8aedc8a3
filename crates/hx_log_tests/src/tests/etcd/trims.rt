use super::answer;
use super::texts::{
    APPEND_HEAD, ASK_COPY_5, COMPACT_6, COMPACT_HEAD, COMPACTED, COPY_5, COPY_SEEN, FROM_2, GONE_1,
    HEARTBEAT_HEAD, NOT_TRIMMED, RANGE_HEAD, TRIM_2, TRIM_9, TRIMMED_2,
};
use crate::tests::{equal, holds};
use hx_etcd::{
    AnswerError, Appended, Field, Trimmed, compaction_request, copy_question, copy_request,
    read_append_answer, read_compaction_answer, read_heartbeat_answer, read_range_answer,
    read_trim_answer, trim_request,
};
use std::alloc::Global;
use std::process::Abort;

// A request is this head, the length of this body, and the body.
fn spelled<R: Abort>(rt: &R, alloc: Global, request: &[u8], head: &str, body: &str) {
    let size = body.len();
    let text = format!(in alloc; "{head}{size}\r\n\r\n{body}").expect(rt, "memory");
    equal(rt, request, text.as_bytes());
}

#[test]
fn trims_are_spelled(rt: HostRuntime) {
    let alloc = rt.alloc();
    for (number, body) in [(2, TRIM_2), (9, TRIM_9)] {
        let request = trim_request(alloc, number).expect(&rt, "memory");
        spelled(&rt, alloc, &request, APPEND_HEAD, body);
    }
    let compaction = compaction_request(alloc, 6).expect(&rt, "memory");
    spelled(&rt, alloc, &compaction, COMPACT_HEAD, COMPACT_6);
    let shown = copy_request(alloc, 5, 2).expect(&rt, "memory");
    spelled(&rt, alloc, &shown, HEARTBEAT_HEAD, COPY_5);
    let question = copy_question(alloc, 5).expect(&rt, "memory");
    spelled(&rt, alloc, &question, RANGE_HEAD, ASK_COPY_5);
}

#[test]
fn trims_are_reported(rt: HostRuntime) {
    let alloc = rt.alloc();
    let done = read_trim_answer(alloc, &answer(&rt, alloc, 200, TRIMMED_2));
    equal(&rt, done, Ok(Trimmed::Done { revision: 6 }));
    let none = read_trim_answer(alloc, &answer(&rt, alloc, 200, NOT_TRIMMED));
    equal(&rt, none, Ok(Trimmed::NotThere));
    let compacted = read_compaction_answer(alloc, &answer(&rt, alloc, 200, COMPACTED));
    equal(&rt, compacted, Ok(()));
    let seen = read_heartbeat_answer(alloc, &answer(&rt, alloc, 200, COPY_SEEN)).expect(
        &rt,
        "an answer",
    );
    equal(&rt, seen.as_deref(), Some(b"2".as_slice()));
}

#[test]
fn what_is_trimmed_is_not_appended_again(rt: HostRuntime) {
    let alloc = rt.alloc();
    let gone = read_append_answer(alloc, 1, &answer(&rt, alloc, 200, GONE_1));
    holds(&rt, matches!(gone, Ok(Appended::NoneBefore)));
    match read_range_answer(alloc, 1, &answer(&rt, alloc, 200, FROM_2)) {
        Ok(_) => panic!(rt; "the first record is not there"),
        Err(error) => equal(&rt, error, AnswerError::NoKey { number: 1 }),
    }
}

// An answer to a trim, and why it reports nothing.
const FAULTS: &[(u16, &str, AnswerError)] = &[
    (503, TRIMMED_2, AnswerError::Status(503)),
    (200, "", AnswerError::NoJson),
    (
        200,
        r#"{"succeeded":true}"#,
        AnswerError::NoField(Field::Header),
    ),
    (
        200,
        r#"{"header":{},"succeeded":true}"#,
        AnswerError::NoField(Field::Revision),
    ),
    (
        200,
        r#"{"header":{"revision":6},"succeeded":true}"#,
        AnswerError::NoField(Field::Revision),
    ),
    (
        200,
        r#"{"header":{"revision":"06"},"succeeded":true}"#,
        AnswerError::NoField(Field::Revision),
    ),
];

#[test]
fn bad_answers_to_trims_are_named(rt: HostRuntime) {
    let alloc = rt.alloc();
    for (status, body, fault) in FAULTS {
        let reported = read_trim_answer(alloc, &answer(&rt, alloc, *status, body));
        equal(&rt, reported, Err(*fault));
    }
    let compacted = read_compaction_answer(alloc, &answer(&rt, alloc, 200, "{}"));
    equal(&rt, compacted, Err(AnswerError::NoField(Field::Header)));
}
