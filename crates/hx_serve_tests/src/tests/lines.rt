//! An operator's input whose lines come as the test lets them.

use std::io::{ErrorKind, Read};
use std::sync::atomic::{AtomicU64, Ordering};
use std::time::{Clock, Duration};
use std::{io, thread};

/// Pieces of text, of which the first `let_go` can be read. A read waits a millisecond for the next one, and is then
/// interrupted: it is done again, and a day has a million reads.
#[derive(Drop)]
pub struct Lines<'a, R> {
    rt: &'a R,
    pieces: &'a [&'a [u8]],
    next: usize,
    let_go: &'a AtomicU64,
}

impl<'a, R> Lines<'a, R> {
    /// Pieces of which none was read.
    pub fn new(rt: &'a R, pieces: &'a [&'a [u8]], let_go: &'a AtomicU64) -> Lines<'a, R> {
        Lines {
            rt,
            pieces,
            next: 0,
            let_go,
        }
    }
}

impl<'a, R: Clock> Read for Lines<'a, R> {
    fn read(&mut self, buffer: &mut [u8]) -> io::Result<usize> {
        if self.next >= self.pieces.len() {
            return Ok(0);
        }
        if self.next as u64 >= self.let_go.load(Ordering::SeqCst) {
            thread::sleep(self.rt, Duration::from_millis(1));
            return Err(io::Error::from(ErrorKind::Interrupted));
        }
        let piece = self.pieces[self.next];
        let count = piece.len().min(buffer.len());
        buffer[..count].copy_from_slice(&piece[..count]);
        self.next += 1;
        Ok(count)
    }
}
