//! Records of a log: the rule of which count, and their text.

use crate::tests::equal;
use hx_fenced_log::*;
use std::alloc::Global;
use std::process::Abort;

// The lines that count of the log below.
const TAPE: &[u8] = b"one\ntwo\nthree\n";

// The log in which writer 8 took over while two records of writer 7 were on their way, and what a reader makes of
// each record.
const LOG: &[(&[u8], Verdict)] = &[
    (b"#1 1 7 1\n", Verdict::Counts),
    (b"#2 1 7 1\none\ntwo\n", Verdict::Counts),
    (b"#3 2 8 3\n", Verdict::Counts),
    (b"#4 1 7 3\nlate\n", Verdict::EarlierTerm),
    (b"#5 1 7 4\nlater\n", Verdict::EarlierTerm),
    (b"#6 2 9 3\nof a third\n", Verdict::OtherWriter),
    (b"#7 2 8 4\nof another place\n", Verdict::OtherIndex),
    (b"#8 2 8 3\nthree\n", Verdict::Counts),
];

fn record_of<R: Abort>(rt: &R, alloc: Global, text: &[u8]) -> LogRecord {
    read_record(alloc, text).expect(rt, "a record")
}

// What a reader makes of a text that comes next, whose record is spelled as it was.
fn comes<R: Abort>(rt: &R, alloc: Global, reading: &mut Reading, text: &[u8]) -> Verdict {
    let record = record_of(rt, alloc, text);
    let spelled = record.spelled(alloc).expect(rt, "memory");
    equal(rt, spelled.as_slice(), text);
    let is_next = record.head().number == reading.number;
    assert!(rt; is_next);
    reading.read(&record)
}

#[test]
fn a_takeover_passes_over_what_is_late(rt: HostRuntime) {
    let alloc = rt.alloc();
    let mut reading = Reading::start();
    let mut tape = Vec::new(alloc);
    for (text, wanted) in LOG {
        let verdict = comes(&rt, alloc, &mut reading, text);
        equal(&rt, verdict, *wanted);
        if let Verdict::Counts = verdict {
            let record = record_of(&rt, alloc, text);
            tape.extend_from_slice(record.text()).expect(&rt, "memory");
        }
    }
    equal(&rt, tape.as_slice(), TAPE);
    let next = Head {
        number: 9,
        term: 2,
        writer: 8,
        index: 4,
    };
    equal(&rt, reading.next(), Some(next));
    let takeover = Head {
        number: 9,
        term: 3,
        writer: 7,
        index: 4,
    };
    equal(&rt, reading.takeover(7), Some(takeover));
}

#[test]
fn nobody_stands_at_the_start(rt: HostRuntime) {
    let start = Reading::start();
    equal(&rt, start.next(), None);
    equal(&rt, start.takeover(0), None);
    let first = Head {
        number: 1,
        term: 1,
        writer: 7,
        index: 1,
    };
    equal(&rt, start.takeover(7), Some(first));
}

// What is wrong with the texts that follow it.
const FAULTS: &[(&[u8], TextError)] = &[
    (b"", TextError::NoLine),
    (b"#1 1 7 1", TextError::NoLine),
    (b"1 1 7 1\n", TextError::Head),
    (b"#1 1 7\n", TextError::Head),
    (b"#1 1 7 1 \n", TextError::Head),
    (b"#01 1 7 1\n", TextError::Head),
    (b"#1 0 7 1\n", TextError::Head),
    (b"#1 1 7 100000000000000\n", TextError::Head),
    (b"#1 1 7 1\none", TextError::Lines(RecordError::Unended)),
    (
        b"#1 1 7 1\none\n#two\n",
        TextError::Lines(RecordError::Line { number: 2 }),
    ),
    (
        b"#1 1 7 1\no\0ne\n",
        TextError::Lines(RecordError::Line { number: 1 }),
    ),
    (
        b"#1 1 7 99999999999999\none\ntwo\n",
        TextError::Lines(RecordError::Number),
    ),
];

fn fault_of(alloc: Global, text: &[u8]) -> Option<TextError> {
    read_record(alloc, text).err()
}

#[test]
fn bad_texts_are_named(rt: HostRuntime) {
    let alloc = rt.alloc();
    for (text, fault) in FAULTS {
        equal(&rt, fault_of(alloc, text), Some(*fault));
    }
    record_of(&rt, alloc, b"#1 1 7 99999999999999\none\n");
}
