//! What the tool says of a journal, and what it cuts off.

use crate::tests::five_records::{DAY, DAY_END, FIRST_END, HEAD_END, SECOND_END, TAPE};
use crate::tests::{equal, holds};
use hx_journal::{
    FileJournal, Head, Journal, MemoryFile, Noted, OpenError, Survey, open_file, survey_of,
};
use hx_journal_tool::*;
use std::alloc::{AllocError, Global};
use std::fmt::Debug;
use std::fs;
use std::io::{self, ErrorKind, Write};
use std::process::Abort;
use std::rt::Files;

// Both are the same when a file was changed at this offset, or the test ends.
fn equal_at<R: Abort, T: PartialEq + Debug + Drop>(rt: &R, index: usize, found: T, wanted: T) {
    assert_eq!(rt; found, wanted, "at {index}");
}

type Opened = Result<(FileJournal<Noted<MemoryFile>>, Vec<u8>), OpenError>;

// Opens a file in memory with these bytes as the journal of the day.
fn opened<R: Abort>(rt: &R, alloc: Global, bytes: &[u8]) -> Opened {
    let head = Head::new(alloc, b"HX00000006", b"20260711", b"9fc2").expect(rt, "a first line");
    let file = MemoryFile::new(alloc, bytes, 99).expect(rt, "memory");
    match FileJournal::open(alloc, Noted::opened(file, bytes), bytes, &head) {
        Ok(found) => Ok(found),
        Err((error, _file)) => Err(error),
    }
}

// The tape of a journal that is opened.
fn tape_of<R: Abort>(rt: &R, alloc: Global, bytes: &[u8]) -> Vec<u8> {
    let (_journal, tape) = opened(rt, alloc, bytes).expect(rt, "a journal");
    tape
}

fn surveyed<'a, R: Abort>(rt: &R, alloc: Global, bytes: &'a [u8]) -> Survey<'a> {
    survey_of(alloc, bytes).expect(rt, "memory")
}

type Answer = Result<Option<Cut>, ToolError>;

fn try_cut(alloc: Global, bytes: &[u8], calls: u64) -> Result<(Answer, Vec<u8>), AllocError> {
    let mut file = Noted::opened(MemoryFile::new(alloc, bytes, calls)?, bytes);
    let survey = survey_of(alloc, bytes)?;
    let answer = cut_after(&mut file, bytes, &survey);
    Ok((answer, file.file().bytes().to_vec(alloc)?))
}

// Cuts a file in memory whose calls fail after `calls` of them: the answer, and the file then.
fn cut<R: Abort>(rt: &R, alloc: Global, bytes: &[u8], calls: u64) -> (Answer, Vec<u8>) {
    try_cut(alloc, bytes, calls).expect(rt, "memory")
}

// A copy of a text.
fn copy_of<R: Abort>(rt: &R, alloc: Global, text: &[u8]) -> Vec<u8> {
    Vec::from_slice(alloc, text).expect(rt, "memory")
}

// A text, and bytes after it.
fn text_with<R: Abort>(rt: &R, alloc: Global, text: &[u8], after: &[u8]) -> Vec<u8> {
    let mut whole = copy_of(rt, alloc, text);
    whole.extend_from_slice(after).expect(rt, "memory");
    whole
}

// What the tool says of a text, and how that ends.
fn output(alloc: Global, text: &[u8]) -> (Result<(), ToolError>, Vec<u8>) {
    let mut words = Vec::new(alloc);
    let answer = report(alloc, text, &mut words);
    (answer, words)
}

// The tape that is made of a text, and how that ends.
fn taped(alloc: Global, text: &[u8]) -> (Result<(), ToolError>, Vec<u8>) {
    let mut tape = Vec::new(alloc);
    let answer = write_tape(alloc, text, &mut tape);
    (answer, tape)
}

#[test]
fn a_sound_day_is_reported(rt: HostRuntime) {
    let alloc = rt.alloc();
    let (answer, words) = output(alloc, DAY);
    equal(&rt, answer, Ok(()));
    let wanted = b"session HX00000006
day 20260711
setup 9fc2
events 5
blocks 3
whole up to byte 129
torn end 0 bytes
zeros ahead 0 bytes
";
    equal(&rt, words.as_slice(), wanted.as_slice());
    let (answer, tape) = taped(alloc, DAY);
    equal(&rt, answer, Ok(()));
    equal(&rt, tape.as_slice(), TAPE);
    let (answer, left) = cut(&rt, alloc, DAY, 0);
    equal(&rt, answer, Ok(None));
    equal(&rt, left.as_slice(), DAY);
}

#[test]
fn zeros_ahead_are_no_torn_end(rt: HostRuntime) {
    let alloc = rt.alloc();
    let ahead = text_with(&rt, alloc, DAY, b"\0\0\0\0");
    let (answer, words) = output(alloc, &ahead);
    equal(&rt, answer, Ok(()));
    holds(
        &rt,
        words.ends_with(b"byte 129\ntorn end 0 bytes\nzeros ahead 4 bytes\n"),
    );
    let (answer, left) = cut(&rt, alloc, &ahead, 0);
    equal(&rt, answer, Ok(None));
    equal(&rt, left.len(), DAY_END + 4);
}

#[test]
fn zeros_after_a_torn_end_are_ahead(rt: HostRuntime) {
    let alloc = rt.alloc();
    let torn = text_with(&rt, alloc, DAY, b"six\n\0\0se\0\0\0");
    let (answer, words) = output(alloc, &torn);
    equal(&rt, answer, Ok(()));
    holds(
        &rt,
        words.ends_with(b"byte 129\ntorn end 8 bytes\nzeros ahead 3 bytes\n"),
    );
    let (answer, tape) = taped(alloc, &torn);
    equal(&rt, answer, Ok(()));
    equal(&rt, tape.as_slice(), TAPE);
    let (answer, left) = cut(&rt, alloc, &torn, 2);
    let (at, bytes, blocks) = (DAY_END, 11, 0);
    equal(&rt, answer, Ok(Some(Cut { at, bytes, blocks })));
    equal(&rt, left.as_slice(), DAY);
}

// Of the day's first bytes: the end of the whole blocks, and the numbers of records and blocks that these are.
fn whole(len: usize) -> (usize, usize, usize) {
    if len < HEAD_END {
        (0, 0, 0)
    } else if len < FIRST_END {
        (HEAD_END, 0, 0)
    } else if len < SECOND_END {
        (FIRST_END, 2, 1)
    } else if len < DAY_END {
        (SECOND_END, 3, 2)
    } else {
        (DAY_END, 5, 3)
    }
}

// What the tool says of a text that a crash left of the day's first bytes; its opening reads the same.
fn is_output<R: Abort>(rt: &R, alloc: Global, text: &[u8], len: usize) {
    let survey = surveyed(rt, alloc, text);
    let (end, records, blocks) = whole(len);
    let output = (survey.end, survey.records, survey.blocks);
    equal(rt, output, (end, records, blocks));
    equal(rt, (survey.damage, survey.whole_after), (None, 0));
    equal(rt, survey.head.is_some(), len >= HEAD_END);
    equal(rt, survey.torn, len.saturating_sub(end));
    let tape = tape_of(rt, alloc, text);
    equal(rt, tape.as_slice(), survey.tape.as_slice());
}

// Such a text is cut to its whole blocks.
fn is_cut<R: Abort>(rt: &R, alloc: Global, text: &[u8], len: usize) {
    let (end, _records, _blocks) = whole(len);
    let (answer, left) = cut(rt, alloc, text, 2);
    holds(rt, answer.is_ok());
    if len > end {
        holds(rt, DAY.starts_with(&left));
        equal(rt, left.len(), end);
    } else {
        equal(rt, left.as_slice(), text);
    }
}

#[test]
fn a_day_torn_at_each_byte_is_reported_and_cut(rt: HostRuntime) {
    let alloc = rt.alloc();
    for len in 0..=DAY_END {
        let text = copy_of(&rt, alloc, &DAY[..len]);
        is_output(&rt, alloc, &text, len);
        is_cut(&rt, alloc, &text, len);
        let text = text_with(&rt, alloc, &DAY[..len], b"\0\0\0\0");
        is_output(&rt, alloc, &text, len);
        is_cut(&rt, alloc, &text, len);
    }
}

// What the tool says of a text is what its opening says, except for a first line that is not the day's.
fn agrees<R: Abort>(rt: &R, alloc: Global, text: &[u8], index: usize) {
    let survey = surveyed(rt, alloc, text);
    match opened(rt, alloc, text) {
        Ok((_journal, tape)) => {
            equal_at(rt, index, survey.damage, None);
            equal(rt, tape.as_slice(), survey.tape.as_slice());
        }
        Err(OpenError::Damaged { at }) if index >= HEAD_END => {
            equal_at(rt, index, survey.damage, Some(at));
        }
        Err(_) => {
            let is_early = survey.damage.is_some_and(|at| at < FIRST_END);
            equal_at(rt, index, is_early, true);
        }
    }
}

// A text that is damaged after its first line is cut so that it can be opened; another is not cut.
fn is_mended<R: Abort>(rt: &R, alloc: Global, text: &[u8], index: usize) {
    let survey = surveyed(rt, alloc, text);
    let (answer, left) = cut(rt, alloc, text, 2);
    if survey.head.is_none() {
        equal(rt, answer, Err(ToolError::NoJournal));
        equal(rt, left.as_slice(), text);
        return;
    }
    equal(rt, Some(left.as_slice()), text.get(..survey.end));
    if index >= HEAD_END {
        let is_same = match opened(rt, alloc, &left) {
            Ok((_journal, tape)) => tape.as_slice() == survey.tape.as_slice(),
            Err(_) => false,
        };
        equal_at(rt, index, is_same, true);
    }
}

// The day, with this byte at this offset.
fn damaged_at<R: Abort>(rt: &R, alloc: Global, index: usize, byte: u8) -> Vec<u8> {
    let mut text = copy_of(rt, alloc, DAY);
    if index < text.len() {
        text[index] = byte;
    }
    text
}

#[test]
fn each_flipped_bit_is_reported_and_mended(rt: HostRuntime) {
    let alloc = rt.alloc();
    for (index, byte) in DAY.iter().enumerate() {
        for bit in [1u8, 2, 4, 8, 16, 32, 64, 128] {
            let text = damaged_at(&rt, alloc, index, *byte ^ bit);
            agrees(&rt, alloc, &text, index);
            is_mended(&rt, alloc, &text, index);
        }
    }
}

// The first of three blocks is damaged: what the tool says.
#[test]
fn a_damaged_day_is_reported(rt: HostRuntime) {
    let alloc = rt.alloc();
    let text = damaged_at(&rt, alloc, FIRST_END + 1, b'x');
    let damaged = Err(ToolError::Damaged { at: FIRST_END });
    let (answer, words) = output(alloc, &text);
    equal(&rt, answer, damaged);
    let wanted = b"events 2
blocks 1
whole up to byte 62
behind the damage 67 bytes, 1 whole block
zeros ahead 0 bytes
";
    holds(&rt, words.ends_with(wanted));
    let (answer, tape) = taped(alloc, &text);
    equal(&rt, answer, damaged);
    equal(&rt, tape.as_slice(), b"one\ntwo\n".as_slice());
}

// What of it is cut, and how the day goes on.
#[test]
fn a_damaged_day_is_cut_and_goes_on(rt: HostRuntime) {
    let alloc = rt.alloc();
    let text = damaged_at(&rt, alloc, FIRST_END + 1, b'x');
    let (answer, left) = cut(&rt, alloc, &text, 2);
    let (at, bytes, blocks) = (FIRST_END, 67, 1);
    equal(&rt, answer, Ok(Some(Cut { at, bytes, blocks })));
    let (mut journal, tape) = opened(&rt, alloc, &left).expect(&rt, "a journal");
    equal(&rt, tape.as_slice(), b"one\ntwo\n".as_slice());
    holds(&rt, journal.append(b"three").is_ok());
    holds(&rt, journal.sync().is_ok());
    equal(&rt, journal.device().file().bytes(), &DAY[..SECOND_END]);
}

#[test]
fn a_block_at_the_wrong_index_is_damage(rt: HostRuntime) {
    let alloc = rt.alloc();
    let twice = text_with(&rt, alloc, DAY, &DAY[SECOND_END..]);
    let (answer, left) = cut(&rt, alloc, &twice, 2);
    let (at, bytes, blocks) = (DAY_END, 36, 1);
    equal(&rt, answer, Ok(Some(Cut { at, bytes, blocks })));
    equal(&rt, left.as_slice(), DAY);
}

#[test]
fn what_is_no_journal_is_reported(rt: HostRuntime) {
    let alloc = rt.alloc();
    let (answer, words) = output(alloc, b"");
    equal(&rt, answer, Ok(()));
    let wanted = b"no first line of a journal
events 0
blocks 0
whole up to byte 0
torn end 0 bytes
zeros ahead 0 bytes
";
    equal(&rt, words.as_slice(), wanted.as_slice());
    let (answer, words) = output(alloc, TAPE);
    equal(&rt, answer, Err(ToolError::Damaged { at: 0 }));
    let wanted = b"byte 0\nbehind the damage 24 bytes, 0 whole blocks\nzeros ahead 0 bytes\n";
    holds(&rt, words.ends_with(wanted));
}

// Of the two calls of a cut the one fails, or the other.
#[test]
fn a_cut_that_fails_says_so(rt: HostRuntime) {
    let alloc = rt.alloc();
    let torn = text_with(&rt, alloc, DAY, b"six\nse");
    for calls in 0..2 {
        let (answer, left) = cut(&rt, alloc, &torn, calls);
        equal(&rt, answer, Err(ToolError::Journal));
        holds(&rt, left.starts_with(DAY));
    }
}

// An output that takes nothing.
#[derive(Drop)]
struct FullOutput;

impl Write for FullOutput {
    fn write(&mut self, _bytes: &[u8]) -> io::Result<usize> {
        Err(io::Error::from(ErrorKind::StorageFull))
    }

    fn flush(&mut self) -> io::Result<()> {
        Ok(())
    }
}

// A file that is there with these bytes.
fn put<R: Files + Abort>(rt: &R, path: &str, bytes: &[u8]) {
    fs::write(rt, path, bytes).expect(rt, "a file that is written");
}

// A file has these bytes.
fn has<R: AllocGlobal + Files + Abort>(rt: &R, path: &str, wanted: &[u8]) {
    let bytes = fs::read(rt, path).expect(rt, "a file that is read");
    equal(rt, bytes.as_slice(), wanted);
}

fn remove<R: Files + Abort>(rt: &R, path: &str) {
    fs::remove_file(rt, path).expect(rt, "a file that is removed");
}

#[test]
fn a_file_that_is_not_there_is_not_made(rt: HostRuntime) {
    const PATH: &str = "hx_journal_tool_none.journal";
    let _ = fs::remove_file(&rt, PATH);
    let mut output = Vec::new(rt.alloc());
    equal(
        &rt,
        report_file(&rt, PATH, &mut output),
        Err(ToolError::Read),
    );
    equal(&rt, tape_file(&rt, PATH, &mut output), Err(ToolError::Read));
    equal(&rt, cut_file(&rt, PATH, &mut output), Err(ToolError::Read));
    holds(&rt, fs::metadata(&rt, PATH).is_err());
    equal(&rt, output.len(), 0);
}

#[test]
fn a_file_is_reported(rt: HostRuntime) {
    const PATH: &str = "hx_journal_tool_told.journal";
    let text = damaged_at(&rt, rt.alloc(), FIRST_END, b'x');
    put(&rt, PATH, &text);
    let mut output = Vec::new(rt.alloc());
    let damaged = Err(ToolError::Damaged { at: FIRST_END });
    equal(&rt, report_file(&rt, PATH, &mut output), damaged);
    let unwritten = Err(ToolError::Write);
    equal(&rt, report_file(&rt, PATH, &mut FullOutput), unwritten);
    equal(&rt, tape_file(&rt, PATH, &mut FullOutput), unwritten);
    has(&rt, PATH, &text);
    remove(&rt, PATH);
}

#[test]
fn a_file_is_cut(rt: HostRuntime) {
    const PATH: &str = "hx_journal_tool_cut.journal";
    let text = damaged_at(&rt, rt.alloc(), FIRST_END, b'x');
    put(&rt, PATH, &text);
    let mut output = Vec::new(rt.alloc());
    equal(&rt, cut_file(&rt, PATH, &mut output), Ok(()));
    let words = b"cut at byte 62: 67 bytes, 1 whole block\n";
    equal(&rt, output.as_slice(), words.as_slice());
    has(&rt, PATH, &DAY[..FIRST_END]);
    output.clear();
    equal(&rt, cut_file(&rt, PATH, &mut output), Ok(()));
    equal(&rt, output.as_slice(), b"nothing to cut\n".as_slice());
    remove(&rt, PATH);
}

#[test]
fn a_journal_in_use_is_not_cut(rt: HostRuntime) {
    const PATH: &str = "hx_journal_tool_held.journal";
    let torn = text_with(&rt, rt.alloc(), DAY, b"six\nse");
    put(&rt, PATH, &torn);
    let (_device, _text) = open_file(&rt, PATH).expect(&rt, "a journal");
    let mut output = Vec::new(rt.alloc());
    equal(&rt, cut_file(&rt, PATH, &mut output), Err(ToolError::InUse));
    equal(&rt, report_file(&rt, PATH, &mut output), Ok(()));
    has(&rt, PATH, &torn);
    remove(&rt, PATH);
}
