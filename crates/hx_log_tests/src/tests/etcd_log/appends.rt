use super::{Asked, MADE, Turn, new_log, record};
use crate::tests::equal;
use hx_fenced_log::{Log, LogError};

// Under the key of the first record stands `#1 1 7 1`; or `#1 1 8 1`; or `#2 1 7 1`.
const OURS: &str = r#"{"responses":[{"response_range":{"kvs":[
    {"key":"aHgvMDAwMDAwMDAwMDAx","value":"IzEgMSA3IDEK"}]}}]}"#;

const THEIRS: &str = r#"{"responses":[{"response_range":{"kvs":[
    {"key":"aHgvMDAwMDAwMDAwMDAx","value":"IzEgMSA4IDEK"}]}}]}"#;

const SECOND: &str = r#"{"responses":[{"response_range":{"kvs":[
    {"key":"aHgvMDAwMDAwMDAwMDAx","value":"IzIgMSA3IDEK"}]}}]}"#;

// The record is not made, and its key has none.
const GONE: &str = r#"{"responses":[{"response_range":{"header":{}}}]}"#;

// What becomes of the asks; what the append of `#1 1 7 1` gives; which nodes were asked.
const APPENDS: &[(&[Turn], Result<(), LogError>, u64)] = &[
    (&[Turn::Says(MADE)], Ok(()), 1),
    // The answer is lost: the record was made, or not, or another one came first.
    (&[Turn::Loses, Turn::Says(OURS)], Ok(()), 12),
    (&[Turn::Loses, Turn::Says(MADE)], Ok(()), 12),
    (&[Turn::Loses, Turn::Says(THEIRS)], Err(LogError::Taken), 12),
    // A node is gone; another one has no leader, and a third reports nothing.
    (&[Turn::Gone, Turn::Says(MADE)], Ok(()), 12),
    (
        &[
            Turn::Gone,
            Turn::Refuses,
            Turn::Says("{}"),
            Turn::Says(OURS),
        ],
        Ok(()),
        1231,
    ),
    // All are gone, before or after one that may have made it.
    (&[], Err(LogError::Unreachable), 123_123),
    (&[Turn::Loses], Err(LogError::Unknown), 123_123),
    // The log is trimmed, before the append or while its answer is lost.
    (&[Turn::Says(GONE)], Err(LogError::Trimmed { number: 1 }), 1),
    (
        &[Turn::Loses, Turn::Says(GONE)],
        Err(LogError::Trimmed { number: 1 }),
        12,
    ),
    // What stands there is no first record.
    (
        &[Turn::Says(SECOND)],
        Err(LogError::NoRecord { number: 1 }),
        1,
    ),
];

#[test]
fn a_lost_answer_is_asked_for_again(rt: HostRuntime) {
    let alloc = rt.alloc();
    let first = record(&rt, alloc, 1, 7);
    for (turns, result, asked) in APPENDS {
        let nodes = Asked::new();
        let mut log = new_log(alloc, turns, &nodes);
        equal(&rt, log.append(&first), *result);
        equal(&rt, nodes.nodes(), *asked);
    }
}

#[test]
fn the_node_that_answered_is_asked_first(rt: HostRuntime) {
    let alloc = rt.alloc();
    let turns = &[Turn::Gone, Turn::Says(MADE), Turn::Says(MADE)];
    let asked = Asked::new();
    let mut log = new_log(alloc, turns, &asked);
    equal(&rt, log.append(&record(&rt, alloc, 1, 7)), Ok(()));
    equal(&rt, log.append(&record(&rt, alloc, 2, 7)), Ok(()));
    equal(&rt, asked.nodes(), 122);
    equal(&rt, log.len(), 2);

    // Of other numbers nothing is asked.
    equal(
        &rt,
        log.append(&record(&rt, alloc, 2, 7)),
        Err(LogError::Taken),
    );
    equal(
        &rt,
        log.append(&record(&rt, alloc, 4, 7)),
        Err(LogError::Gap),
    );
    equal(&rt, asked.nodes(), 122);
}
