//! Copies of a log: their texts, and what is taken of them.

use crate::tests::equal;
use hx_day_log::{DayLogError, News, copy_on};
use hx_fenced_log::{
    Log, LogError, LogRecord, MemoryLog, RecordsError, TextError, read_record, read_records,
};
use std::alloc::Global;
use std::io;
use std::io::Write;
use std::process::Abort;

// A text; how many records are known to be whole; how many bytes they take.
const TEXTS: &[(&[u8], usize, usize)] = &[
    (b"", 0, 0),
    // The only record may lack lines.
    (b"#1 1 7 1\n", 0, 0),
    (b"#1 1 7 1\none\n", 0, 0),
    // Of the second one, nothing but the mark has to be there.
    (b"#1 1 7 1\n#", 1, 9),
    (b"#1 1 7 1\none\ntwo\n#2 1 7 3", 1, 17),
    (b"#1 1 7 1\none\n#2 1 7 2\n#3 1 7 2\nthr", 2, 22),
    // A mark within a line begins no record.
    (b"#1 1 7 1\no#e\n#2 1 7 2\n", 1, 13),
    // What stands in front of no mark is not read.
    (b"one\ntwo\n", 0, 0),
];

#[test]
fn whole_records_are_taken(rt: HostRuntime) {
    let alloc = rt.alloc();
    for (text, count, len) in TEXTS {
        let found = read_records(alloc, text).expect(&rt, "records");
        equal(&rt, found.records.len(), *count);
        equal(&rt, found.len, *len);
        let mut spelled = Vec::new(alloc);
        for record in &found.records {
            let one = record.spelled(alloc).expect(&rt, "memory");
            spelled.extend_from_slice(&one).expect(&rt, "memory");
        }
        equal(&rt, Some(spelled.as_slice()), text.get(..*len));
    }
}

// A text, the number of records after which it is damaged, and how.
const DAMAGED: &[(&[u8], u64, TextError)] = &[
    (b"one\n#2 1 7 1\n", 0, TextError::Head),
    (b"#1 1 7 1\n#2 0 7 1\n#3 1 7 1\n", 1, TextError::Head),
    (b"\n#1 1 7 1\n#2 1 7 1\n", 0, TextError::Head),
];

#[test]
fn damage_is_named(rt: HostRuntime) {
    let alloc = rt.alloc();
    for (text, index, error) in DAMAGED {
        let fault = RecordsError::Damaged {
            index: *index,
            error: *error,
        };
        equal(&rt, read_records(alloc, text).err(), Some(fault));
    }
}

// The log of these two records.
const RECORDS: &[&[u8]] = &[b"#1 1 7 1\n", b"#2 1 7 1\none\ntwo\n"];

fn log_of<R: Abort>(rt: &R, alloc: Global) -> MemoryLog {
    let mut log = MemoryLog::new(alloc);
    for text in RECORDS {
        let record = read_record(alloc, text).expect(rt, "a record");
        log.append(&record).expect(rt, "a log");
    }
    log
}

#[test]
fn a_copy_has_each_record_once(rt: HostRuntime) {
    let alloc = rt.alloc();
    let mut log = log_of(&rt, alloc);
    let mut copy = Vec::new(alloc);
    let mut next = 1;
    equal(
        &rt,
        copy_on(alloc, &mut log, &mut next, &mut copy),
        Ok(News::Some),
    );
    equal(&rt, next, 3);
    equal(
        &rt,
        copy.as_slice(),
        b"#1 1 7 1\n#2 1 7 1\none\ntwo\n".as_slice(),
    );
    equal(
        &rt,
        copy_on(alloc, &mut log, &mut next, &mut copy),
        Ok(News::None),
    );
    equal(&rt, copy.len(), 26);

    // Another one goes on from the second record.
    let mut other = Vec::new(alloc);
    let mut next = 2;
    equal(
        &rt,
        copy_on(alloc, &mut log, &mut next, &mut other),
        Ok(News::Some),
    );
    equal(&rt, other.as_slice(), b"#2 1 7 1\none\ntwo\n".as_slice());
}

// A log whose reads fail in this way.
#[derive(Drop)]
struct Broken {
    log: MemoryLog,
    error: LogError,
}

impl Log for Broken {
    ghost committed = { λ l. l.log };

    fn append(&mut self, next: &LogRecord) -> Result<(), LogError> {
        self.log.append(next)
    }

    fn read(&mut self, _alloc: Global, _from: u64) -> Result<Vec<LogRecord>, LogError> {
        Err(self.error)
    }
}

// Why a log is not read, and what becomes of the copy.
const FATES: &[(LogError, Result<News, DayLogError>)] = &[
    (LogError::Unknown, Ok(News::Unreachable)),
    (LogError::Unreachable, Ok(News::Unreachable)),
    (
        LogError::Trimmed { number: 2 },
        Err(DayLogError::Trimmed { number: 2 }),
    ),
    (
        LogError::NoRecord { number: 2 },
        Err(DayLogError::Damaged { number: 2 }),
    ),
    (
        LogError::BadCopy { number: 2 },
        Err(DayLogError::BadCopy { number: 2 }),
    ),
    (LogError::NoMemory, Err(DayLogError::NoMemory)),
];

#[test]
fn a_copy_of_a_log_that_fails_stays_as_it_was(rt: HostRuntime) {
    let alloc = rt.alloc();
    for (error, fate) in FATES {
        let mut log = Broken {
            log: MemoryLog::new(alloc),
            error: *error,
        };
        let mut copy = Vec::new(alloc);
        let mut next = 2;
        equal(&rt, copy_on(alloc, &mut log, &mut next, &mut copy), *fate);
        equal(&rt, (next, copy.len()), (2, 0));
    }
}

// A writer that takes nothing.
#[derive(Drop)]
struct Full;

impl Write for Full {
    fn write(&mut self, _buf: &[u8]) -> io::Result<usize> {
        Ok(0)
    }

    fn flush(&mut self) -> io::Result<()> {
        Ok(())
    }
}

#[test]
fn a_copy_without_room_is_no_copy(rt: HostRuntime) {
    let alloc = rt.alloc();
    let mut log = log_of(&rt, alloc);
    let mut next = 1;
    equal(
        &rt,
        copy_on(alloc, &mut log, &mut next, &mut Full),
        Err(DayLogError::Write),
    );
    equal(&rt, next, 1);
}
