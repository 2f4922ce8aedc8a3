use super::texts::{APPEND_1, APPEND_2, APPEND_HEAD, RIVAL_1, STANDS_1, STANDS_2, TAKEN_1};
use super::*;
use crate::tests::equal;
use hx_etcd::{AnswerError, Appended, Field, append_request, key};
use hx_fenced_log::read_record;

// A record, and the text that appends it.
const APPENDS: &[(&[u8], &str)] = &[
    (b"#1 1 7 1\n", APPEND_1),
    (b"#1 1 8 1\n", RIVAL_1),
    (b"#2 1 7 1\none\ntwo\n", APPEND_2),
];

#[test]
fn appends_are_spelled(rt: HostRuntime) {
    let alloc = rt.alloc();
    for (text, body) in APPENDS {
        let record = read_record(alloc, text).expect(&rt, "a record");
        let size = body.len();
        let request = format!(in alloc; "{APPEND_HEAD}{size}\r\n\r\n{body}").expect(&rt, "memory");
        equal(
            &rt,
            append_request(alloc, &record)
                .expect(&rt, "memory")
                .as_slice(),
            request.as_bytes(),
        );
    }
}

#[test]
fn keys_have_twelve_digits(rt: HostRuntime) {
    let alloc = rt.alloc();
    equal(
        &rt,
        key(alloc, 1).expect(&rt, "memory").as_slice(),
        b"hx/000000000001".as_slice(),
    );
    equal(
        &rt,
        key(alloc, 999_999_999_999).expect(&rt, "memory").as_slice(),
        b"hx/999999999999".as_slice(),
    );
}

#[test]
fn an_append_stands(rt: HostRuntime) {
    let alloc = rt.alloc();
    for (number, body) in [(1, STANDS_1), (2, STANDS_2)] {
        let answer = answer(&rt, alloc, 200, body);
        match read_append_answer(alloc, number, &answer) {
            Ok(Appended::Stands) => {}
            _ => panic!(rt; "the append is made"),
        }
    }
}

#[test]
fn a_taken_key_tells_what_stands_there(rt: HostRuntime) {
    let alloc = rt.alloc();
    let answer = answer(&rt, alloc, 200, TAKEN_1);
    match read_append_answer(alloc, 1, &answer) {
        Ok(Appended::Taken(text)) => {
            equal(&rt, text.as_slice(), b"#1 1 7 1\n".as_slice());
        }
        _ => panic!(rt; "the key is taken"),
    }
}

// An answer to the append of the first record, and why it reports nothing. `aHgvMDAwMDAwMDAwMDAx` is hx/000000000001.
const FAULTS: &[(u16, &str, AnswerError)] = &[
    (503, STANDS_1, AnswerError::Status(503)),
    (200, "", AnswerError::NoJson),
    (200, r#"{"succeeded":true"#, AnswerError::NoJson),
    (
        200,
        r#"{"succeeded":false}"#,
        AnswerError::NoField(Field::Pairs),
    ),
    (
        200,
        r#"{"succeeded":"true"}"#,
        AnswerError::NoField(Field::Pairs),
    ),
    (
        200,
        r#"{"responses":[]}"#,
        AnswerError::NoField(Field::Pairs),
    ),
    (
        200,
        r#"{"responses":[{"response_range":{"kvs":[]}}]}"#,
        AnswerError::NoField(Field::Pairs),
    ),
    (
        200,
        r#"{"responses":[{"response_range":{"kvs":[{"value":"IzEgMSA3IDEK"}]}}]}"#,
        AnswerError::NoField(Field::Key),
    ),
    (
        200,
        r#"{"responses":[{"response_range":{"kvs":[{"key":"aHgv*"}]}}]}"#,
        AnswerError::NotBase64(Field::Key),
    ),
    (
        200,
        r#"{"responses":[{"response_range":{"kvs":[{"key":"aHgvMDAwMDAwMDAwMDAy"}]}}]}"#,
        AnswerError::NoKey { number: 1 },
    ),
    (
        200,
        r#"{"responses":[{"response_range":{"kvs":[{"key":"aHgvMDAwMDAwMDAwMDAx"}]}}]}"#,
        AnswerError::NoField(Field::Value),
    ),
    (
        200,
        r#"{"responses":[{"response_range":{"kvs":[{"key":"aHgvMDAwMDAwMDAwMDAx","value":"I"}]}}]}"#,
        AnswerError::NotBase64(Field::Value),
    ),
];

fn fault_of(rt: &impl Abort, alloc: Global, answer: &Answer, fault: AnswerError) {
    match read_append_answer(alloc, 1, answer) {
        Ok(_) => panic!(rt; "the answer is bad"),
        Err(error) => equal(rt, error, fault),
    }
}

#[test]
fn bad_answers_to_appends_are_named(rt: HostRuntime) {
    let alloc = rt.alloc();
    for (status, body, fault) in FAULTS {
        fault_of(&rt, alloc, &answer(&rt, alloc, *status, body), *fault);
    }
    let no_text = Answer {
        status: 200,
        body: Vec::from_slice(alloc, b"{\"succeeded\":true,\"\xff\":1}").expect(&rt, "memory"),
    };
    fault_of(&rt, alloc, &no_text, AnswerError::NoJson);
}
