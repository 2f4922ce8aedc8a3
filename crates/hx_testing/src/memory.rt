//! Inputs and outputs in memory.
ghost use Rattle.std.specs.Prelude.{◌≡◌, ◌≤◌, length};

use std::alloc::Global;
use std::io::{self, Error, ErrorKind, Read, Write};
use std::sync::atomic::{AtomicU64, Ordering};
use std::thread::yield_now;
use std::time::Duration;

const SECOND: u64 = 1_000_000_000;

/// A clock instead of the machine's, which goes on only when somebody sleeps, up to an end. It is in nanoseconds.
#[derive(Drop)]
pub struct Rest {
    slept: AtomicU64,
    sleeps: AtomicU64,
    end: u64,
}

impl Rest {
    /// Nobody has slept yet.
    pub fn new(end: u64) -> Rest {
        Rest {
            slept: AtomicU64::new(0),
            sleeps: AtomicU64::new(0),
            end,
        }
    }

    /// How long was slept.
    pub fn slept(&self) -> u64 {
        self.slept.load(Ordering::SeqCst)
    }

    /// How often.
    pub fn sleeps(&self) -> u64 {
        self.sleeps.load(Ordering::SeqCst)
    }

    /// Sleeps for so long, or up to the end: whether it has come.
    pub fn sleep(&self, limit: Duration) -> bool {
        let left = self.end.saturating_sub(self.slept());
        let asked = limit
            .as_secs()
            .saturating_mul(SECOND)
            .saturating_add(u64::from(limit.subsec_nanos()));
        self.sleeps.fetch_add(1, Ordering::SeqCst);
        self.slept.fetch_add(asked.min(left), Ordering::SeqCst);
        asked >= left
    }
}

/// What an input does after its bytes.
#[derive(Clone, Copy)]
pub enum After<'a> {
    /// It ends.
    End,
    /// Each read fails so.
    Fails(ErrorKind),
    /// It gives heartbeats for ever.
    Heartbeats,
    /// It gives these bytes once this number is there, and ends.
    Waits {
        count: &'a AtomicU64,
        wanted: u64,
        last: &'a [u8],
    },
    /// It ends when this clock does.
    Rests(&'a Rest),
}

/// The one call that goes wrong: its number, from 1, or 0 for none; it fails so, or gives or takes nothing.
#[derive(Clone, Copy)]
pub struct Bad {
    pub call: u64,
    pub kind: Option<ErrorKind>,
}

/// No call goes wrong.
pub const NONE_BAD: Bad = Bad {
    call: 0,
    kind: None,
};

/// An input over bytes in memory.
#[derive(Clone, Copy)]
pub struct Input<'a> {
    pub bytes: &'a [u8],
    /// No read goes on after this offset.
    pub cut: usize,
    /// The largest number of bytes that a read gives.
    pub most: usize,
    pub after: After<'a>,
    pub bad: Bad,
    pub calls: u64,
}

impl<'a> Input<'a> {
    /// All that is asked for at once; then it ends.
    pub fn new(bytes: &'a [u8]) -> Self {
        Input {
            bytes,
            cut: 0,
            most: usize::MAX,
            after: After::End,
            bad: NONE_BAD,
            calls: 0,
        }
    }
}

// Puts a front of the bytes into the space, and takes it off them.
fn give(bytes: &mut &[u8], space: &mut [u8], most: usize) -> usize
    ensures { (result ≤ length space.new) × (length space.new ≡ length space.old) }
{
    let count = bytes.len().min(space.len()).min(most);
    let (front, others) = bytes.split_at(count);
    space[..count].copy_from_slice(front);
    *bytes = others;
    count
}

// A heartbeat of a client (SoupBinTCP 3.00, Client Heartbeat Packet).
const HEARTBEAT: &[u8] = b"\0\x01R";

impl Read for Input<'_> {
    fn read(&mut self, buf: &mut [u8]) -> io::Result<usize> {
        self.calls = self.calls.saturating_add(1);
        if self.calls == self.bad.call {
            return match self.bad.kind {
                Some(kind) => Err(Error::from(kind)),
                None => Ok(0),
            };
        }
        if self.bytes.is_empty() {
            match self.after {
                After::End => return Ok(0),
                After::Fails(kind) => return Err(Error::from(kind)),
                After::Heartbeats => self.bytes = HEARTBEAT,
                After::Rests(rest) => {
                    if rest.slept() < rest.end {
                        return Err(Error::from(ErrorKind::WouldBlock));
                    }
                    return Ok(0);
                }
                After::Waits {
                    count,
                    wanted,
                    last,
                } => {
                    if !wait_for(count, wanted) {
                        return Err(Error::from(ErrorKind::TimedOut));
                    }
                    self.bytes = last;
                    self.after = After::End;
                }
            }
        }
        let most = if self.cut > 0 { self.cut } else { self.most };
        let count = give(&mut self.bytes, buf, most);
        self.cut = self.cut.saturating_sub(count);
        Ok(count)
    }
}

/// An output in memory.
#[derive(Drop)]
pub struct Output<'a> {
    /// What it has taken.
    pub taken: Vec<u8>,
    /// The largest number of bytes that a write takes.
    pub most: usize,
    pub bad: Bad,
    pub calls: u64,
    /// How often it was flushed.
    pub flushed: u64,
    /// Here it writes the number of bytes that it has taken.
    pub count: &'a AtomicU64,
}

impl<'a> Output<'a> {
    /// An empty one, which takes all at once.
    pub fn new(alloc: Global, count: &'a AtomicU64) -> Self {
        Output {
            taken: Vec::new(alloc),
            most: usize::MAX,
            bad: NONE_BAD,
            calls: 0,
            flushed: 0,
            count,
        }
    }
}

impl Write for Output<'_> {
    fn write(&mut self, buf: &[u8]) -> io::Result<usize> {
        self.calls = self.calls.saturating_add(1);
        if self.calls == self.bad.call {
            return match self.bad.kind {
                Some(kind) => Err(Error::from(kind)),
                None => Ok(0),
            };
        }
        let count = buf.len().min(self.most);
        self.taken.extend_from_slice(&buf[..count])?;
        self.count.store(self.taken.len() as u64, Ordering::SeqCst);
        Ok(count)
    }

    fn flush(&mut self) -> io::Result<()> {
        self.flushed = self.flushed.saturating_add(1);
        Ok(())
    }
}

// The most turns that anything here waits.
const PATIENCE: u64 = 10_000_000;

/// Waits until the number is there: whether it came in time.
pub fn wait_for(number: &AtomicU64, wanted: u64) -> bool {
    for _ in 0..PATIENCE {
        if number.load(Ordering::SeqCst) >= wanted {
            return true;
        }
        yield_now();
    }
    false
}
