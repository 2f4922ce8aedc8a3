//! A client, and what must come of its session.

use super::stage::{Day, apply};
use super::{equal, holds};
use hx_sessions::{Ended, Fault};
use hx_testing::memory::{Input, Output};
use std::alloc::Global;
use std::process::Abort;
use std::sync::Wait;
use std::sync::atomic::AtomicU64;
use std::thread::Threads;
use std::time::Clock;

/// How a session ends.
#[derive(Clone, Copy, Debug, PartialEq, Eq)]
pub enum End {
    Logout,
    ReaderEnd,
    DayEnd,
    Read,
    Write,
    Framing,
    NotAuthorized(u8),
    NoMemory,
    Turns,
    Refused,
    Stopped,
}

fn end_of(outcome: &Result<Ended, Fault>) -> End {
    match outcome {
        Ok(Ended::Logout) => End::Logout,
        Ok(Ended::ReaderEnd) => End::ReaderEnd,
        Ok(Ended::DayEnd) => End::DayEnd,
        Err(Fault::Read) => End::Read,
        Err(Fault::Write) => End::Write,
        Err(Fault::Framing) => End::Framing,
        Err(Fault::NotAuthorized { reason }) => End::NotAuthorized(*reason),
        Err(Fault::NoMemory) => End::NoMemory,
        Err(Fault::Turns) => End::Turns,
        Err(Fault::Refused(_)) => End::Refused,
        Err(Fault::Stopped) => End::Stopped,
    }
}

/// What must come of a session.
#[derive(Clone, Copy)]
pub struct Want<'a> {
    /// How it ends.
    pub end: End,
    /// The least and the greatest number of messages that it submits.
    pub sent: (usize, usize),
    /// What it writes at least.
    pub least: &'a [u8],
    /// What it writes a beginning of.
    pub whole: &'a [u8],
    /// Whether it may lack memory, and end so: it has submitted no more then, and written a beginning of this.
    pub may_lack: bool,
    /// The greatest number of its writes.
    pub writes: u64,
}

impl<'a> Want<'a> {
    /// It submits `sent` messages, and writes all this.
    pub fn new(end: End, sent: usize, whole: &'a [u8]) -> Self {
        Want {
            end,
            sent: (sent, sent),
            least: whole,
            whole,
            may_lack: false,
            writes: u64::MAX,
        }
    }

    /// That is what came of it; and its output was flushed once.
    pub fn meet<R: Abort>(
        &self,
        rt: &R,
        output: &Output,
        sent: usize,
        outcome: &Result<Ended, Fault>,
    ) {
        let end = end_of(outcome);
        holds(rt, sent <= self.sent.1);
        holds(rt, self.whole.starts_with(&output.taken));
        equal(rt, output.flushed, 1);
        holds(rt, output.calls <= self.writes);
        if self.may_lack && end == End::NoMemory {
            return;
        }
        equal(rt, end, self.end);
        holds(rt, self.sent.0 <= sent);
        holds(rt, output.taken.starts_with(self.least));
    }
}

/// A client.
#[derive(Drop)]
pub struct Client<'a> {
    /// What comes from it.
    pub input: Input<'a>,
    /// What goes to it.
    pub output: Output<'a>,
    /// What must come of its session.
    pub want: Want<'a>,
}

impl<'a> Client<'a> {
    /// The client sends these bytes and ends; its output stores in `count` how many bytes it has taken.
    pub fn of(alloc: Global, bytes: &'a [u8], count: &'a AtomicU64, want: Want<'a>) -> Self {
        Client {
            input: Input::new(bytes),
            output: Output::new(alloc, count),
            want,
        }
    }
}

/// The client is the only one, at a new exchange of the standard setup.
pub fn alone<R: Threads + Wait + Clock + Abort + Sync>(
    rt: &R,
    alloc: Global,
    input: Input,
    want: Want,
) {
    let count = AtomicU64::new(0);
    let client = Client {
        input,
        output: Output::new(alloc, &count),
        want,
    };
    apply(rt, alloc, Day::of_one(rt, alloc, client));
}
