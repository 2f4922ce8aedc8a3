use super::{Asked, MADE, Script, Turn, record};
use crate::tests::equal;
use hx_etcd_log::{CopiedLog, PageError, Pages, TextPages, trim_index};
use hx_fenced_log::{Log, LogError};
use std::alloc::Global;
use std::io;
use std::io::Read;
use std::process::Abort;

// The text of a copy, which comes in pieces of `at_once` bytes; while it is cut, no more comes for now.
#[derive(Drop)]
struct Cut {
    text: &'static [u8],
    at: usize,
    end: usize,
    at_once: usize,
}

impl Cut {
    fn of(text: &'static [u8], at_once: usize) -> Cut {
        Cut {
            text,
            at: 0,
            end: text.len(),
            at_once,
        }
    }
}

impl Read for Cut {
    fn read(&mut self, buf: &mut [u8]) -> io::Result<usize> {
        let end = self.end.min(self.text.len());
        let rest = self.text.get(self.at.min(end)..end).unwrap_or(b"");
        let count = self.at_once.min(rest.len()).min(buf.len());
        buf[..count].copy_from_slice(&rest[..count]);
        self.at = self.at.saturating_add(count);
        Ok(count)
    }
}

// A copy of three records, of which the third may lack lines.
const COPY: &[u8] = b"#1 1 7 1\n#2 1 7 1\none\n#3 1 7 2\n";

// How many pages a copy has, and how many records these have in all.
fn count_pages(rt: &impl Abort, alloc: Global, pages: &mut impl Pages, from: u64) -> usize {
    let mut count = 0usize;
    let mut next = from;
    for _ in 0..10 {
        let page = pages.next(alloc, next).expect(rt, "a page");
        for record in &page {
            equal(rt, record.head().number, next);
            next = next.saturating_add(1);
            count = count.saturating_add(1);
        }
    }
    count
}

#[test]
fn whole_records_are_reported_however_they_come(rt: HostRuntime) {
    let alloc = rt.alloc();
    for at_once in [1, 2, 7, 100] {
        let mut pages = TextPages::new(alloc, Cut::of(COPY, at_once));
        equal(&rt, count_pages(&rt, alloc, &mut pages, 1), 2);
        equal(&rt, pages.len(), 22);
        equal(&rt, pages.rest(), b"#3 1 7 2\n".as_slice());
        // Records that are known are passed over.
        let mut pages = TextPages::new(alloc, Cut::of(COPY, at_once));
        equal(&rt, count_pages(&rt, alloc, &mut pages, 2), 1);
    }
}

#[test]
fn a_zero_ends_a_copy(rt: HostRuntime) {
    let alloc = rt.alloc();
    let text = b"#1 1 7 1\n#2 1 7 1\no\0e\n#3 1 7 2\n#4 1 7 2\n";
    let mut pages = TextPages::new(alloc, Cut::of(text, 10));
    equal(&rt, count_pages(&rt, alloc, &mut pages, 1), 1);
    equal(&rt, pages.len(), 9);
    equal(&rt, pages.rest(), b"#2 1 7 1\no".as_slice());
}

#[test]
fn what_is_no_copy_is_refused(rt: HostRuntime) {
    let alloc = rt.alloc();
    let mut pages = TextPages::new(alloc, Cut::of(b"buy\n#1 1 7 1\n", 100));
    let failed = pages.next(alloc, 1).map(|page| page.len());
    equal(&rt, failed, Err(PageError::Failed));
}

// The answers with the third record, and with the second and the third.
const THIRD: &str = r#"{"header":{},"kvs":[
    {"key":"aHgvMDAwMDAwMDAwMDAz","value":"IzMgMSA3IDEK"}]}"#;

fn begun<'a>(
    alloc: Global,
    text: &'static [u8],
    turns: &'static [Turn],
    asked: &'a Asked,
) -> CopiedLog<TextPages<Cut>, Script<'a>> {
    let pages = TextPages::new(alloc, Cut::of(text, 100));
    CopiedLog::new(alloc, pages, Script::of(alloc, turns, asked))
}

#[test]
fn a_copy_is_read_before_nodes_are_asked(rt: HostRuntime) {
    let alloc = rt.alloc();
    let asked = Asked::new();
    let mut log = begun(alloc, COPY, &[Turn::Says(THIRD), Turn::Says(MADE)], &asked);
    let first = log.read(alloc, 1).map(|found| found.len());
    equal(&rt, first, Ok(2));
    equal(&rt, asked.nodes(), 0);
    let third = log.read(alloc, 3).map(|found| found.len());
    equal(&rt, third, Ok(1));
    equal(&rt, asked.nodes(), 1);
    equal(&rt, log.append(&record(&rt, alloc, 4, 7)), Ok(()));
    // Four are known: of other numbers than the fifth nothing is asked.
    let fourth = log.append(&record(&rt, alloc, 4, 7));
    equal(&rt, fourth, Err(LogError::Taken));
    let sixth = log.append(&record(&rt, alloc, 6, 7));
    equal(&rt, sixth, Err(LogError::Gap));
    equal(&rt, asked.nodes(), 11);
}

#[test]
fn a_copy_that_leaves_out_a_record_is_refused(rt: HostRuntime) {
    let alloc = rt.alloc();
    let text = b"#1 1 7 1\n#3 1 7 1\n#4 1 7 1\n";
    let asked = Asked::new();
    let mut log = begun(alloc, text, &[], &asked);
    let bad = log.read(alloc, 1).map(|found| found.len());
    equal(&rt, bad, Err(LogError::BadCopy { number: 2 }));
    equal(&rt, asked.nodes(), 0);
}

#[test]
fn where_no_copy_is_named_nodes_are_asked(rt: HostRuntime) {
    let alloc = rt.alloc();
    let none: Option<TextPages<Cut>> = None;
    let asked = Asked::new();
    let mut log = CopiedLog::new(alloc, none, Script::of(alloc, &[Turn::Says(THIRD)], &asked));
    let gone = log.read(alloc, 1).map(|found| found.len());
    equal(&rt, gone, Err(LogError::Trimmed { number: 1 }));
}

// What copies have shown; how many records stay; the index at which the log is trimmed.
const INDICES: &[(&[Option<u64>], u64, Option<u64>)] = &[
    (&[Some(7)], 1, Some(6)),
    (&[Some(7), Some(5), Some(9)], 1, Some(4)),
    (&[Some(7), Some(5), Some(9)], 3, Some(2)),
    // Nothing stands in front of the first record.
    (&[Some(7), Some(5), Some(9)], 4, None),
    (&[Some(7), Some(5), Some(9)], 9, None),
    (&[Some(7), None, Some(9)], 1, None),
    (&[], 1, None),
];

#[test]
fn the_slowest_copy_says_where_a_log_is_trimmed(rt: HostRuntime) {
    for (counts, stay, index) in INDICES {
        equal(&rt, trim_index(counts, *stay), *index);
    }
}
