use super::{Asked, MADE, Turn, new_log};
use crate::tests::{equal, holds};
use hx_fenced_log::{Log, LogError, LogWriter};

// The answers with the records `#1 1 7 1` and `#2 1 7 1`; with the second one for the first; with
// none.
const BOTH: &str = r#"{"header":{},"kvs":[
    {"key":"aHgvMDAwMDAwMDAwMDAx","value":"IzEgMSA3IDEK"},
    {"key":"aHgvMDAwMDAwMDAwMDAy","value":"IzIgMSA3IDEK"}]}"#;

const SECOND: &str = r#"{"header":{},"kvs":[
    {"key":"aHgvMDAwMDAwMDAwMDAy","value":"IzIgMSA3IDEK"}]}"#;

const NONE: &str = r#"{"header":{}}"#;

// Under the first key stands the second record; after the first record stands the fourth.
const OTHER: &str = r#"{"header":{},"kvs":[
    {"key":"aHgvMDAwMDAwMDAwMDAx","value":"IzIgMSA3IDEK"}]}"#;

const GAP: &str = r#"{"header":{},"kvs":[
    {"key":"aHgvMDAwMDAwMDAwMDAx","value":"IzEgMSA3IDEK"},
    {"key":"aHgvMDAwMDAwMDAwMDA0","value":"IzQgMSA3IDEK"}]}"#;

const FOURTH: &str = r#"{"header":{},"kvs":[
    {"key":"aHgvMDAwMDAwMDAwMDA0","value":"IzQgMSA3IDEK"}]}"#;

// Under the key of the first record stands `#1 1 8 1`.
const THEIRS: &str = r#"{"responses":[{"response_range":{"kvs":[
    {"key":"aHgvMDAwMDAwMDAwMDAx","value":"IzEgMSA4IDEK"}]}}]}"#;

// What becomes of the asks; how many records the first read gives; which nodes were asked.
const READS: &[(&[Turn], Result<usize, LogError>, u64)] = &[
    (&[Turn::Says(BOTH)], Ok(2), 1),
    (&[Turn::Says(NONE)], Ok(0), 1),
    (&[Turn::Loses, Turn::Gone, Turn::Says(BOTH)], Ok(2), 123),
    (&[], Err(LogError::Unreachable), 123_123),
    (&[Turn::Gone, Turn::Loses], Err(LogError::Unknown), 123_123),
    (
        &[Turn::Says(SECOND)],
        Err(LogError::Trimmed { number: 1 }),
        1,
    ),
    (
        &[Turn::Says(OTHER)],
        Err(LogError::NoRecord { number: 1 }),
        1,
    ),
    (&[Turn::Says(GAP)], Err(LogError::NoRecord { number: 2 }), 1),
];

#[test]
fn records_are_read_from_any_node(rt: HostRuntime) {
    let alloc = rt.alloc();
    for (turns, result, asked) in READS {
        let nodes = Asked::new();
        let mut log = new_log(alloc, turns, &nodes);
        let count = log.read(alloc, 1).map(|found| found.len());
        equal(&rt, count, *result);
        equal(&rt, nodes.nodes(), *asked);
    }
}

#[test]
fn what_is_known_does_not_change(rt: HostRuntime) {
    let alloc = rt.alloc();
    let turns = &[Turn::Says(BOTH), Turn::Says(FOURTH), Turn::Says(NONE)];
    let asked = Asked::new();
    let mut log = new_log(alloc, turns, &asked);
    equal(
        &rt,
        log.read(alloc, 1)
            .expect(&rt, "records that are read")
            .len(),
        2,
    );
    equal(
        &rt,
        log.read(alloc, 2)
            .expect(&rt, "records that are read")
            .len(),
        1,
    );
    equal(&rt, asked.nodes(), 1);

    // The third is asked for, and the fourth is returned.
    let bad = log.read(alloc, 3).map(|found| found.len());
    equal(&rt, bad, Err(LogError::Trimmed { number: 3 }));
    equal(
        &rt,
        log.read(alloc, 3)
            .expect(&rt, "records that are read")
            .len(),
        0,
    );
    let gone = log.read(alloc, 2).map(|found| found.len());
    equal(&rt, gone, Err(LogError::Unreachable));
    equal(&rt, log.len(), 2);
}

#[test]
fn a_writer_goes_on_after_another(rt: HostRuntime) {
    let alloc = rt.alloc();
    let turns = &[Turn::Loses, Turn::Says(THEIRS), Turn::Says(MADE)];
    let asked = Asked::new();
    let mut log = new_log(alloc, turns, &asked);
    let mut writer = LogWriter::new(7);
    holds(&rt, writer.take_over(alloc, &mut log).is_err());

    // What was found there is read without an ask.
    equal(
        &rt,
        writer
            .follow(alloc, &mut log)
            .expect(&rt, "a log that is read")
            .len(),
        0,
    );
    equal(&rt, asked.nodes(), 12);
    holds(&rt, writer.take_over(alloc, &mut log).is_ok());
    holds(&rt, writer.is_active());
    equal(&rt, log.len(), 2);
}
