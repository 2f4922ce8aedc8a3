//! The journal of a day in a file: what it holds, what a crash leaves, what is damaged.

use crate::tests::five_records::{DAY, FIRST_END, HEAD_END, SECOND_END, TAPE};
use crate::tests::{equal, holds};
use hx_journal::*;
use std::alloc::Global;
use std::os::unix::fs::MetadataExt;
use std::process::Abort;
use std::{fs, thread};

type MemoryJournal = FileJournal<Noted<MemoryFile>>;

type Opened = Result<(MemoryJournal, Vec<u8>), OpenError>;

// Opens a file in memory, whose calls fail after `calls` of them, as the journal of a day.
fn opened_for(rt: &impl Abort, alloc: Global, day: &[u8], bytes: &[u8], calls: u64) -> Opened {
    let head = Head::new(alloc, b"HX00000006", day, b"9fc2").expect(rt, "a head");
    let file = MemoryFile::new(alloc, bytes, calls).expect(rt, "a file");
    match FileJournal::open(alloc, Noted::opened(file, bytes), bytes, &head) {
        Ok(found) => Ok(found),
        Err((error, _file)) => Err(error),
    }
}

fn opened(rt: &impl Abort, alloc: Global, bytes: &[u8], calls: u64) -> Opened {
    opened_for(rt, alloc, b"20260711", bytes, calls)
}

fn first_block<J: Journal>(journal: &mut J) -> Result<(), JournalError> {
    journal.append(b"one")?;
    journal.append(b"two")?;
    journal.sync()
}

fn second_block<J: Journal>(journal: &mut J) -> Result<(), JournalError> {
    journal.append(b"three")?;
    journal.sync()
}

fn third_block<J: Journal>(journal: &mut J) -> Result<(), JournalError> {
    journal.append(b"four")?;
    journal.append(b"five")?;
    journal.sync()
}

// Writes the day until a call fails, and returns the length of the tape of the records whose sync succeeded.
fn write_day<J: Journal>(journal: &mut J) -> usize {
    if first_block(journal).is_err() {
        return 0;
    }
    if second_block(journal).is_err() {
        return 8;
    }
    if third_block(journal).is_err() {
        return 14;
    }
    24
}

#[test]
fn a_day_is_a_text(rt: HostRuntime) {
    let alloc = rt.alloc();
    let (mut journal, tape) = opened(&rt, alloc, b"", 99).expect(&rt, "a new day");
    equal(&rt, tape.len(), 0);
    equal(&rt, write_day(&mut journal), 24);
    equal(&rt, journal.device().file().bytes(), DAY);
    equal(&rt, write_day(&mut NullJournal::new()), 24);
    let (journal, tape) = opened(&rt, alloc, DAY, 99).expect(&rt, "the day");
    equal(&rt, tape.as_slice(), TAPE);
    equal(&rt, journal.count(), 5);
}

// What is read of a file that a crash left has at least the first `output` bytes of the day's tape, and is a beginning
// of that; and the day goes on.
fn recovers(rt: &impl Abort, alloc: Global, image: &[u8], output: usize) {
    let (mut journal, tape) = opened(rt, alloc, image, 99).expect(rt, "opened");
    holds(rt, TAPE.starts_with(&tape));
    holds(rt, output <= tape.len());
    holds(rt, matches!(tape.len(), 0 | 8 | 14 | 24));
    equal(rt, journal.append(b"more"), Ok(()));
    equal(rt, journal.sync(), Ok(()));
    let bytes = journal.device().file().bytes();
    let (_journal, again) = opened(rt, alloc, bytes, 99).expect(rt, "opened again");
    holds(rt, again.starts_with(&tape));
    holds(rt, again.ends_with(b"more\n"));
}

// Each of the files that a crash leaves if the first or the last of the bytes are written, and the others are not.
fn recovers_torn(rt: &impl Abort, alloc: Global, file: &MemoryFile, output: usize) {
    let (old, new) = (file.stable_len(), file.bytes().len());
    for len in old.min(new)..=old.max(new) {
        for part in 0..=len {
            let after = file.torn(alloc, len, 0..part).expect(rt, "a file");
            recovers(rt, alloc, &after, output);
            let in_front = file.torn(alloc, len, part..len).expect(rt, "a file");
            recovers(rt, alloc, &in_front, output);
        }
    }
}

// The day is written, and each call of the file fails in turn: the first sync, the second write,
// and so on.
#[test]
fn a_crash_at_each_call_leaves_what_was_published(rt: HostRuntime) {
    let alloc = rt.alloc();
    for calls in 4..11 {
        let (mut journal, _tape) = opened(&rt, alloc, b"", calls).expect(&rt, "a new day");
        let output = write_day(&mut journal);
        recovers_torn(&rt, alloc, journal.device().file(), output);
        if output < 24 {
            equal(&rt, journal.append(b"more"), Err(JournalError::Closed));
            equal(&rt, journal.sync(), Err(JournalError::Closed));
        }
    }
}

// A file whose calls fail after `calls` of them is not opened, and what a crash then leaves of it is read as before.
fn fails_to_open(rt: &impl Abort, alloc: Global, bytes: &[u8], calls: u64, output: usize) {
    let head = Head::new(alloc, b"HX00000006", b"20260711", b"9fc2").expect(rt, "a head");
    let file = MemoryFile::new(alloc, bytes, calls).expect(rt, "a file");
    match FileJournal::open(alloc, Noted::opened(file, bytes), bytes, &head) {
        Ok((_journal, _tape)) => panic!(rt; "opened"),
        Err((error, file)) => {
            equal(rt, error, OpenError::Journal(JournalError::Failed));
            recovers_torn(rt, alloc, file.file(), output);
        }
    }
}

// A torn end is cut and synced, and the first line of a new file written and synced: each of these
// calls fails in turn.
#[test]
fn a_crash_while_it_is_opened_changes_nothing(rt: HostRuntime) {
    let alloc = rt.alloc();
    let mut torn = Vec::from_slice(alloc, DAY).expect(&rt, "the day");
    torn.extend_from_slice(b"six\nse").expect(&rt, "a torn end");
    for calls in 0..2 {
        fails_to_open(&rt, alloc, &torn, calls, 24);
    }
    for calls in 0..4 {
        fails_to_open(&rt, alloc, b"", calls, 0);
    }
}

// The first byte of the block that has this offset of the day's text; 0 for the head.
fn block_at(index: usize) -> usize {
    if index < HEAD_END {
        0
    } else if index < FIRST_END {
        HEAD_END
    } else if index < SECOND_END {
        FIRST_END
    } else {
        SECOND_END
    }
}

// Whether a bit that was flipped in the last block looks like a torn end: its mark is none any more, since its `#` or
// the line feed before it is gone, or it does not end, or a byte is zero.
fn looks_torn(index: usize, byte: u8) -> bool {
    index >= SECOND_END && (matches!(index, 102 | 103 | 128) || byte == 0)
}

// What is found if this bit of the day's text was flipped, so that its byte is this one.
fn expect_damage(rt: &impl Abort, found: Opened, index: usize, bit: u32, byte: u8) {
    match found {
        Ok((_journal, tape)) => {
            assert!(rt;
                looks_torn(index, byte),
                "bit {bit} of byte {index} was missed"
            );
            equal(rt, tape.as_slice(), b"one\ntwo\nthree\n".as_slice());
        }
        Err(OpenError::OtherHead(_)) => holds(rt, index < HEAD_END),
        Err(error) => {
            let at = block_at(index);
            assert_eq!(rt;
                error,
                OpenError::Damaged { at },
                "bit {bit} of byte {index}"
            );
        }
    }
}

// Each bit of the day's text is flipped in turn.
#[test]
fn each_flipped_bit_is_damage(rt: HostRuntime) {
    let alloc = rt.alloc();
    let mut text = Vec::from_slice(alloc, DAY).expect(&rt, "the day");
    for index in 0..text.len() {
        for bit in 0..8u32 {
            let flipped = text[index] ^ (1 << bit);
            text[index] = flipped;
            let found = opened(&rt, alloc, &text, 99);
            expect_damage(&rt, found, index, bit, flipped);
            text[index] = flipped ^ (1 << bit);
        }
    }
}

#[test]
fn another_day_is_refused_by_name(rt: HostRuntime) {
    let alloc = rt.alloc();
    let other_day = opened_for(&rt, alloc, b"20260712", DAY, 0).err();
    equal(&rt, other_day, Some(OpenError::OtherHead(HeadPart::Day)));
    // Nor is a tape that is no journal cut to nothing.
    let no_journal = opened(&rt, alloc, TAPE, 0).err();
    equal(&rt, no_journal, Some(OpenError::Damaged { at: 0 }));
}

const PATH: &str = "hx_journal_test.journal";

#[test]
fn a_second_open_of_a_file_is_refused(rt: HostRuntime) {
    let alloc = rt.alloc();
    let _ = fs::remove_file(&rt, PATH);
    let head = Head::new(alloc, b"HX00000006", b"20260711", b"9fc2").expect(&rt, "a head");
    let Ok((device, text)) = open_file(&rt, PATH) else {
        panic!(rt; "not made");
    };
    let Ok((mut journal, _tape)) = FileJournal::open(alloc, device, &text, &head) else {
        panic!(rt; "not opened");
    };
    holds(&rt, matches!(open_file(&rt, PATH), Err(FileError::InUse)));
    equal(&rt, write_day(&mut journal), 24);
    drop(journal);
    let Ok((_device, again)) = open_file(&rt, PATH) else {
        panic!(rt; "not opened again");
    };
    equal(&rt, again.as_slice(), DAY);
    let mode = fs::metadata(&rt, PATH).expect(&rt, "a file").mode();
    equal(&rt, mode & 0o777, 0o600);
    fs::remove_file(&rt, PATH).expect(&rt, "removed");
}

#[test]
fn another_thread_may_write_the_day(rt: HostRuntime) {
    let (mut journal, _tape) = opened(&rt, rt.alloc(), b"", 99).expect(&rt, "a new day");
    let mut volatile = NullJournal::new();
    let (output, other) = thread::join(
        &rt,
        move || write_day(&mut journal),
        move || write_day(&mut volatile),
    );
    equal(&rt, output, 24);
    equal(&rt, other, 24);
}
