use super::answer;
use super::texts::{BOTH, FIRST, NONE, ONE, RANGE_1, RANGE_3, RANGE_HEAD};
use crate::tests::equal;
use hx_etcd::{Answer, AnswerError, Field, range_request, read_range_answer};
use hx_fenced_log::{RecordError, TextError};
use std::alloc::Global;
use std::process::Abort;

#[test]
fn questions_are_spelled(rt: HostRuntime) {
    let alloc = rt.alloc();
    for (from, most, body) in [(1, 10, RANGE_1), (1, 1, FIRST), (3, 10, RANGE_3)] {
        let size = body.len();
        let request = format!(in alloc; "{RANGE_HEAD}{size}\r\n\r\n{body}").expect(&rt, "memory");
        equal(
            &rt,
            range_request(alloc, from, most)
                .expect(&rt, "memory")
                .as_slice(),
            request.as_bytes(),
        );
    }
}

// An answer, the number that was asked from, and the texts of its records.
const ANSWERS: &[(&str, u64, &[&[u8]])] = &[
    (BOTH, 1, &[b"#1 1 7 1\n", b"#2 1 7 1\none\ntwo\n"]),
    (ONE, 1, &[b"#1 1 7 1\n"]),
    (NONE, 3, &[]),
];

#[test]
fn records_are_reported(rt: HostRuntime) {
    let alloc = rt.alloc();
    for (body, from, texts) in ANSWERS {
        let reported = answer(&rt, alloc, 200, body);
        let records = read_range_answer(alloc, *from, &reported).expect(&rt, "records");
        equal(&rt, records.len(), texts.len());
        for (record, text) in records.iter().zip(texts.iter()) {
            equal(
                &rt,
                record.spelled(alloc).expect(&rt, "memory").as_slice(),
                *text,
            );
        }
    }
}

// An answer to the question for records from the first on, and why it reports none. `aHgvMDAwMDAwMDAwMDAx` is
// hx/000000000001, and `aHgvMDAwMDAwMDAwMDAy` hx/000000000002.
const FAULTS: &[(u16, &str, AnswerError)] = &[
    (404, "Not Found\n", AnswerError::Status(404)),
    (200, "Not Found\n", AnswerError::NoJson),
    (200, "{}", AnswerError::NoField(Field::Header)),
    (
        200,
        r#"{"header":{},"kvs":{}}"#,
        AnswerError::NoField(Field::Pairs),
    ),
    (
        200,
        r#"{"header":{},"kvs":[{}]}"#,
        AnswerError::NoField(Field::Key),
    ),
    (
        200,
        r#"{"header":{},"kvs":[{"key":1}]}"#,
        AnswerError::NoField(Field::Key),
    ),
    (
        200,
        r#"{"header":{},"kvs":[{"key":"aHgw"}]}"#,
        AnswerError::NoKey { number: 1 },
    ),
    // The first is no longer there.
    (
        200,
        r#"{"header":{},"kvs":[{"key":"aHgvMDAwMDAwMDAwMDAy","value":"IzIgMSA3IDEK"}]}"#,
        AnswerError::NoKey { number: 1 },
    ),
    // The first is there twice.
    (
        200,
        r#"{"header":{},"kvs":[{"key":"aHgvMDAwMDAwMDAwMDAx","value":"IzEgMSA3IDEK"},{"key":"aHgvMDAwMDAwMDAwMDAx","value":"IzEgMSA3IDEK"}]}"#,
        AnswerError::NoKey { number: 2 },
    ),
    (
        200,
        r#"{"header":{},"kvs":[{"key":"aHgvMDAwMDAwMDAwMDAx","value":"IzEgMSA3"}]}"#,
        AnswerError::NoRecord {
            number: 1,
            error: TextError::NoLine,
        },
    ),
    // The value is `#1 1 7 1`, and a line that does not end.
    (
        200,
        r#"{"header":{},"kvs":[{"key":"aHgvMDAwMDAwMDAwMDAx","value":"IzEgMSA3IDEKb25l"}]}"#,
        AnswerError::NoRecord {
            number: 1,
            error: TextError::Lines(RecordError::Unended),
        },
    ),
    // The value is `#2 1 7 1`.
    (
        200,
        r#"{"header":{},"kvs":[{"key":"aHgvMDAwMDAwMDAwMDAx","value":"IzIgMSA3IDEK"}]}"#,
        AnswerError::OtherNumber { number: 1 },
    ),
];

fn fault_of(rt: &impl Abort, alloc: Global, answer: &Answer, fault: AnswerError) {
    match read_range_answer(alloc, 1, answer) {
        Ok(_) => panic!(rt; "the answer is bad"),
        Err(error) => equal(rt, error, fault),
    }
}

#[test]
fn bad_answers_to_questions_are_named(rt: HostRuntime) {
    let alloc = rt.alloc();
    for (status, body, fault) in FAULTS {
        fault_of(&rt, alloc, &answer(&rt, alloc, *status, body), *fault);
    }
}
