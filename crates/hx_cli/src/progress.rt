//! The progress of a long run, shown on standard error if that is a terminal.

use std::io::Read;
use std::rt::Files;
use std::{fs, io};

// The name of standard input as a file.
const INPUT: &str = "/dev/stdin";

/// Shows how far a run is, on one line of standard error that each next call overwrites. If standard error is no
/// terminal it shows nothing.
#[derive(Drop)]
pub(crate) struct ProgressLine<'a, R> {
    rt: &'a R,
    shown: bool,
    // The part that was shown last, in hundredths.
    last: Option<u64>,
}

// Whether a descriptor is a terminal.
fn is_terminal(descriptor: i32) -> bool {
    libc::isatty(descriptor) == 1
}

impl<'a, R: Eprint> ProgressLine<'a, R> {
    /// For a run that writes at its end alone.
    pub(crate) fn new(rt: &'a R) -> ProgressLine<'a, R> {
        ProgressLine {
            rt,
            shown: is_terminal(libc::STDERR_FILENO),
            last: None,
        }
    }

    /// For a run that writes as it goes: if that goes to a terminal too, nothing is shown between its lines.
    fn beside_output(rt: &'a R) -> ProgressLine<'a, R> {
        ProgressLine {
            rt,
            shown: is_terminal(libc::STDERR_FILENO) && !is_terminal(libc::STDOUT_FILENO),
            last: None,
        }
    }

    /// Of `of` of what the word names, `done` are done. It is shown if the hundredth is another.
    pub(crate) fn tell(&mut self, word: &str, done: u64, of: u64) {
        if !self.shown || of == 0 {
            return;
        }
        let part = Some(done.saturating_mul(100) / of);
        if part != self.last {
            self.last = part;
            let _ = eprint!(self.rt; "\r{done} of {of} {word}\x1b[K");
        }
    }

    /// Takes the line away.
    pub(crate) fn end(&mut self) {
        if self.last.is_some() {
            self.last = None;
            let _ = eprint!(self.rt; "\r\x1b[K");
        }
    }
}

/// Standard input, which shows how many of a file's bytes are read.
#[derive(Drop)]
pub(crate) struct WatchedInput<'a, R, I> {
    progress_line: ProgressLine<'a, R>,
    reader: I,
    read: u64,
    of: u64,
}

// How long standard input is; 0 if it is no file.
fn length_of_input<R: Files>(rt: &R) -> u64 {
    match fs::metadata(rt, INPUT) {
        Ok(metadata) if metadata.is_file() => metadata.len(),
        _ => 0,
    }
}

impl<'a, R: Eprint + Input<Reader = I> + Files, I: Read> WatchedInput<'a, R, I> {
    /// Nothing of it is read yet.
    pub(crate) fn new(rt: &'a R) -> WatchedInput<'a, R, I> {
        WatchedInput {
            progress_line: ProgressLine::beside_output(rt),
            reader: rt.reader(),
            read: 0,
            of: length_of_input(rt),
        }
    }

    /// Shows nothing more.
    pub(crate) fn end(&mut self) {
        self.progress_line.end();
    }
}

impl<R: Eprint, I: Read> Read for WatchedInput<'_, R, I> {
    ghost remaining = { λ w. I.remaining w.reader };

    fn read(&mut self, buffer: &mut [u8]) -> io::Result<usize> {
        match self.reader.read(buffer) {
            Ok(count) => {
                self.read = self.read.saturating_add(count as u64);
                self.progress_line.tell("bytes", self.read, self.of);
                Ok(count)
            }
            Err(e) => Err(e),
        }
    }
}
