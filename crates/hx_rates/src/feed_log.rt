//! Messages of 36 bytes through the log of a feed, each an event of its own: written, then read by one reader and by
//! another, and then written and read at the same time.
ghost use Rattle.std.specs.Prelude.{◌≡◌, ◌≤◌};
ghost use Rattle.hx_blog.specs.Ends.{most_room};

use crate::alone::CAPACITY;
use crate::failure::Failure;
use crate::report::report;
use arrayvec::ArrayVec;
use hx_blog::{Log, Reader, Writer};
use std::alloc::Global;
use std::rt::Clock;
use std::thread;
use std::thread::Threads;
use std::time::Instant;

fn numbered(n: u64) -> ArrayVec<u8, 44> {
    let mut message = ArrayVec::new();
    let _ = message.try_extend_from_slice(&[b'A'; 28]);
    let _ = message.try_extend_from_slice(&n.to_be_bytes());
    message
}

// Publishes this number of messages. Returns whether there was room.
fn write(log: &Log<u64>, mut writer: Writer<u64>, messages: u64) -> bool
    requires { writer.log ≡ log.now }
{
    let mut staged = true;
    for n in 0..messages {
        staged &= writer.stage(log, &numbered(n)).is_ok();
        writer.publish(log, &n);
    }
    staged
}

// Reads until it has read this number of messages. Returns whether they are the numbers from 0 on, in order.
fn read(log: &Log<u64>, mut reader: Reader<u64>, messages: u64) -> bool
    requires { reader.log ≡ log.now }
{
    let mut right = true;
    for _ in 0..u64::MAX {
        let n = reader.read_so_far();
        if n == messages {
            break;
        }
        match reader.next(log) {
            Some(message) => right &= message == numbered(n),
            None => thread::yield_now(),
        }
    }
    right
}

fn tell<R: Print + Eprint + Clock>(
    rt: &R,
    begun: Instant,
    what: &str,
    messages: u64,
    right: bool,
) -> Result<(), Failure> {
    report(rt, begun, what, messages, "messages")?;
    if right {
        return Ok(());
    }
    Err(Failure::Wrong)
}

// Written by one thread, and read by another meanwhile.
fn at_once<R: Threads>(
    rt: &R,
    log: &Log<u64>,
    writer: Writer<u64>,
    reader: Reader<u64>,
    messages: u64,
) -> bool
    requires writer { writer.log ≡ log.now }
    requires reader { reader.log ≡ log.now }
{
    let (staged, right) = thread::join(
        rt,
        move || -> bool
            requires { writer.log ≡ log.now }
        { write(log, writer, messages) },
        move || -> bool
            requires { reader.log ≡ log.now }
        { read(log, reader, messages) },
    );
    staged && right
}

// The rate of a reader.
fn read_rate<R: Print + Eprint + Clock>(
    rt: &R,
    log: &Log<u64>,
    reader: Reader<u64>,
    what: &str,
    messages: u64,
) -> Result<(), Failure>
    requires { reader.log ≡ log.now }
{
    let begun = Instant::now(rt)?;
    let right = read(log, reader, messages);
    tell(rt, begun, what, messages, right)
}

// The rates of the writer of a log, and then of two readers.
fn in_turn<R: Print + Eprint + Clock>(rt: &R, alloc: Global, messages: u64) -> Result<(), Failure>
    requires { (1 ≤ messages) × (messages ≤ most_room) }
{
    let (log, writer, mut one) = Log::<u64>::new(alloc, messages)?;
    let two = one.split(&log);
    let begun = Instant::now(rt)?;
    let staged = write(&log, writer, messages);
    tell(rt, begun, "written", messages, staged)?;
    read_rate(rt, &log, one, "read by one reader", messages)?;
    read_rate(rt, &log, two, "read by another", messages)
}

// The rate of a log that is read while it is written.
fn meanwhile<R: Print + Eprint + Clock + Threads>(
    rt: &R,
    alloc: Global,
    messages: u64,
) -> Result<(), Failure>
    requires { (1 ≤ messages) × (messages ≤ most_room) }
{
    let (log, writer, reader) = Log::<u64>::new(alloc, messages)?;
    let begun = Instant::now(rt)?;
    let right = at_once(rt, &log, writer, reader, messages);
    tell(rt, begun, "written and read at once", messages, right)
}

/// The rates of two logs of this number of messages, 1 to 1,000,000.
pub fn log_rates<R: Print + Eprint + Clock + Threads>(
    rt: &R,
    alloc: Global,
    messages: u64,
) -> Result<(), Failure> {
    if messages == 0 || messages > CAPACITY {
        return Err(Failure::Words);
    }
    in_turn(rt, alloc, messages)?;
    meanwhile(rt, alloc, messages)
}
