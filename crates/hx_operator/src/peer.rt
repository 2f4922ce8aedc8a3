//! One connection of an operator's client.

use crate::answers::end_answer;
use hx_units::split_once;
use std::alloc::{AllocError, Global};
use std::io::{ErrorKind, Read, Write};
use std::os::unix::net::UnixStream;
use std::time::{Clock, Duration, Instant};

/// The most bytes of a line, without its line feed.
pub const LONGEST: usize = 1024;

// A line and its line feed.
const ROOM: usize = LONGEST + 1;

// A connection has this number of seconds.
const LIMIT: u64 = 5;

// The most writes that are made at once.
const WRITES: u32 = 16;

/// Carries out what the operator says.
pub trait Directed {
    /// Carries out a line, and writes the answer: a first line, `ok` or `no: ` and why, and lines of text after it,
    /// none of them empty. If memory lacks, the answer to the client says so.
    fn direct(&mut self, line: &[u8], answer: &mut Vec<u8>) -> Result<(), AllocError>;
}

// What has come so far.
enum Heard {
    // No whole line.
    Part,
    // A line of this number of bytes.
    Line(usize),
    // A line that is too long.
    TooMuch,
    // The connection is gone.
    Gone,
}

/// A connection: a line comes in, and its answer goes out.
#[derive(Drop)]
pub struct Peer {
    stream: UnixStream,
    came: Instant,
    line: Vec<u8>,
    answer: Vec<u8>,
    written: usize,
}

impl Peer {
    /// A connection that came at this time.
    pub fn new(alloc: Global, stream: UnixStream, came: Instant) -> Peer {
        Peer {
            stream,
            came,
            line: Vec::new(alloc),
            answer: Vec::new(alloc),
            written: 0,
        }
    }

    // By the bytes that have come.
    fn heard(&self) -> Heard {
        match split_once(&self.line, b'\n') {
            Some((line, _)) if line.len() <= LONGEST => Heard::Line(line.len()),
            Some(_) => Heard::TooMuch,
            None if self.line.len() >= ROOM => Heard::TooMuch,
            None => Heard::Part,
        }
    }

    // Reads what is there.
    fn hear(&mut self) -> Heard {
        let mut buffer = [0; ROOM];
        match self.stream.read(&mut buffer) {
            Ok(0) => Heard::Gone,
            Ok(count) => match self.line.extend_from_slice(&buffer[..count]) {
                Ok(()) => self.heard(),
                Err(_) => Heard::Gone,
            },
            Err(error) => match error.kind() {
                ErrorKind::WouldBlock | ErrorKind::TimedOut | ErrorKind::Interrupted => Heard::Part,
                _ => Heard::Gone,
            },
        }
    }

    // Has the line carried out.
    fn ask<D: Directed>(&mut self, directed: &mut D, len: usize) -> Result<(), AllocError> {
        let line = self.line.get(..len).unwrap_or_default();
        if directed.direct(line, &mut self.answer).is_err() {
            self.answer.clear();
            self.answer.extend_from_slice(b"no: no memory")?;
        }
        end_answer(&mut self.answer)
    }

    // Answers that the line is too long.
    fn refuse(&mut self) -> Result<(), AllocError> {
        self.answer.extend_from_slice(b"no: the line is too long")?;
        end_answer(&mut self.answer)
    }

    // Writes what is left of the answer: whether some of it is still left.
    fn write(&mut self) -> bool {
        for _ in 0..WRITES {
            let rest = self.answer.get(self.written..).unwrap_or_default();
            if rest.is_empty() {
                return false;
            }
            match self.stream.write(rest) {
                Ok(0) => return false,
                Ok(count) => self.written = self.written.saturating_add(count),
                Err(error) => match error.kind() {
                    ErrorKind::Interrupted => {}
                    ErrorKind::WouldBlock | ErrorKind::TimedOut => return true,
                    _ => return false,
                },
            }
        }
        true
    }

    // Whether its time is not over.
    fn is_young<R: Clock>(&self, rt: &R) -> bool {
        let limit = Duration::from_secs(LIMIT);
        self.came.elapsed(rt).is_ok_and(|time| time < limit)
    }

    /// Reads, has the line carried out, and writes, as far as that can be done without waiting.
    /// Returns whether the connection stays.
    pub fn attend<R: Clock, D: Directed>(&mut self, rt: &R, directed: &mut D) -> bool {
        if !self.is_young(rt) {
            return false;
        }
        if self.answer.is_empty() {
            let answered = match self.hear() {
                Heard::Part => return true,
                Heard::Gone => return false,
                Heard::Line(len) => self.ask(directed, len),
                Heard::TooMuch => self.refuse(),
            };
            if answered.is_err() {
                return false;
            }
        }
        self.write()
    }
}
