//! A copy of a log in a file, as it is read page by page.
use crate::{PageError, Pages};
use hx_fenced_log::{LogRecord, RecordsError, read_records};
use hx_units::split_once;
use std::alloc::Global;
use std::io::Read;

// The most bytes that are read at once.
const MOST_READ: usize = 16 * 1024;

// The most reads for one page.
const MOST_READS: u64 = 1_000_000_000_000;

/// A copy of a log, of which only whole records are given out: after each of them another begins. If it grows it is
/// read on. A zero ends it: after a crash the end of a file may be zeros; in front of them the file is as it was
/// written.
#[derive(Drop)]
pub struct TextPages<R: Read + Drop> {
    alloc: Global,
    reader: R,
    // What is read and not given out.
    text: Vec<u8>,
    // How many bytes are given out.
    len: u64,
    // Whether a zero was read.
    is_over: bool,
}

impl<R: Read + Drop> TextPages<R> {
    /// A copy of which nothing is read.
    pub fn new(alloc: Global, reader: R) -> TextPages<R> {
        TextPages {
            alloc,
            reader,
            text: Vec::new(alloc),
            len: 0,
            is_over: false,
        }
    }

    /// How many bytes the records take that were given out.
    pub fn len(&self) -> u64 {
        self.len
    }

    /// What stands after these, as far as it is read.
    pub fn rest(&self) -> &[u8] {
        &self.text
    }

    /// The reader, given out. What was read and not given out is gone.
    pub fn into_reader(self) -> R {
        self.reader
    }

    // The whole records of what is read, which are done with then.
    fn take_records(&mut self, alloc: Global) -> Result<Vec<LogRecord>, PageError> {
        let found = match read_records(alloc, &self.text) {
            Ok(found) => found,
            Err(RecordsError::NoMemory) => return Err(PageError::NoMemory),
            Err(RecordsError::Damaged { .. }) => return Err(PageError::Failed),
        };
        if found.len > 0 {
            let Ok(rest) = Vec::from_slice(self.alloc, &self.text[found.len..]) else {
                return Err(PageError::NoMemory);
            };
            self.text = rest;
            self.len = self.len.saturating_add(found.len as u64);
        }
        Ok(found.records)
    }

    // Reads what comes next, up to a zero, and returns whether something came.
    fn fill(&mut self) -> Result<bool, PageError> {
        if self.is_over {
            return Ok(false);
        }
        let mut room = [0u8; MOST_READ];
        let Ok(count) = self.reader.read(&mut room) else {
            return Err(PageError::Failed);
        };
        let count = match split_once(&room[..count], 0) {
            Some((front, _)) => {
                self.is_over = true;
                front.len().min(count)
            }
            None => count,
        };
        if self.text.extend_from_slice(&room[..count]).is_err() {
            return Err(PageError::NoMemory);
        }
        Ok(count > 0)
    }
}

impl<R: Read + Drop> Pages for TextPages<R> {
    fn next(&mut self, alloc: Global, from: u64) -> Result<Vec<LogRecord>, PageError> {
        for _ in 0..MOST_READS {
            let page = from_number(alloc, self.take_records(alloc)?, from)?;
            if !page.is_empty() || !self.fill()? {
                return Ok(page);
            }
        }
        Err(PageError::Failed)
    }
}

// The records among these that have this number or a later one.
fn from_number(
    alloc: Global,
    records: Vec<LogRecord>,
    from: u64,
) -> Result<Vec<LogRecord>, PageError> {
    let mut page = Vec::new(alloc);
    for found in records {
        if found.head().number >= from && page.push(found).is_err() {
            return Err(PageError::NoMemory);
        }
    }
    Ok(page)
}
