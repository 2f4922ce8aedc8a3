//! Standard input that wakes up.

use libc::net;
use libc::types::pollfd;
use std::io;
use std::io::{ErrorKind, Read};

// A read of standard input waits so long at most, in milliseconds.
const LIMIT: i32 = 200;

/// Standard input, of which a read that would wait for long is `Interrupted`: the caller checks meanwhile whether it
/// still has to read.
#[derive(Drop)]
pub struct WakingInput<R> {
    reader: R,
}

impl<R: Read> WakingInput<R> {
    /// The standard input that this reader reads.
    pub fn new(reader: R) -> WakingInput<R> {
        WakingInput { reader }
    }
}

impl<R: Read> Read for WakingInput<R> {
    fn read(&mut self, buffer: &mut [u8]) -> io::Result<usize> {
        let mut wanted = [pollfd {
            fd: libc::STDIN_FILENO,
            events: net::POLLIN,
            revents: 0,
        }];
        if net::poll(&mut wanted, LIMIT) == 0 {
            return Err(io::Error::from(ErrorKind::Interrupted));
        }
        self.reader.read(buffer)
    }
}
