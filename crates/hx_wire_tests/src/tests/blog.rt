//! A log of messages: each call if memory is ample, and a writer's thread beside two readers' threads.
ghost use Rattle.std.specs.Prelude.{◌≡◌};

use super::{equal, holds};
use arrayvec::ArrayVec;
use hx_blog::{Full, Log, Reader, Writer};
use std::process::Abort;
use std::thread;
use std::thread::Threads;

// TotalView-ITCH 5.0, Order Delete Message: locate 1, tracking number 0, time 1000, order reference 1.
const DELETED: [u8; 19] = *b"D\0\x01\0\0\0\0\0\0\x03\xe8\0\0\0\0\0\0\0\x01";

fn message(bytes: &[u8]) -> ArrayVec<u8, 44> {
    let mut message = ArrayVec::new();
    let _ = message.try_extend_from_slice(bytes);
    message
}

#[test]
fn one_message_is_published(rt: HostRuntime) {
    let (log, mut writer, mut reader) = Log::<u64>::new(rt.alloc(), 10).expect(&rt, "a log");
    let mut early = reader.split(&log);
    holds(&rt, writer.stage(&log, &message(&DELETED)).is_ok());
    holds(&rt, reader.next(&log).is_none());
    writer.publish(&log, &7);
    let first = reader.next(&log).expect(&rt, "a message");
    equal(&rt, first.as_slice(), DELETED.as_slice());
    holds(&rt, reader.next(&log).is_none());
    equal(&rt, early.look(&log), 1);
    equal(&rt, early.read_so_far(), 0);
    let first = early.at(&log, 1).expect(&rt, "a message");
    equal(&rt, first.as_slice(), DELETED.as_slice());
    holds(&rt, early.at(&log, 0).is_none());
    holds(&rt, early.at(&log, 2).is_none());
}

#[test]
fn a_log_gets_full(rt: HostRuntime) {
    let (log, mut writer, _) = Log::<u64>::new(rt.alloc(), 2).expect(&rt, "a log");
    equal(&rt, writer.free(&log), 2);
    holds(&rt, writer.stage(&log, &message(&[1; 44])).is_ok());
    writer.publish(&log, &0);
    writer.publish(&log, &1);
    holds(&rt, writer.stage(&log, &message(b"")).is_ok());
    equal(&rt, writer.count(), 1);
    equal(&rt, writer.free(&log), 0);
    holds(&rt, writer.stage(&log, &message(b"no room")).is_err());
    let text = format!(in rt.alloc(); "{Full}").expect(&rt, "memory");
    equal(&rt, text.as_str(), "no slot is free");
    writer.publish(&log, &2);
    equal(&rt, writer.count(), 2);
}

// A log of two messages, the longest and an empty one, with no slot free, and a reader that has read none.
fn full_log<R: AllocGlobal + Abort>(rt: &R) -> (Log<u64>, Writer<u64>, Reader<u64>)
    ensures writer { result.1.log ≡ result.0 }
    ensures reader { result.2.log ≡ result.0 }
{
    let (log, mut writer, reader) = Log::<u64>::new(rt.alloc(), 2).expect(rt, "a log");
    holds(rt, writer.stage(&log, &message(&[1; 44])).is_ok());
    writer.publish(&log, &0);
    holds(rt, writer.stage(&log, &message(b"")).is_ok());
    writer.publish(&log, &1);
    (log, writer, reader)
}

#[test]
fn receipts_go_round_a_full_log(rt: HostRuntime) {
    let (log, mut writer, mut reader) = full_log(&rt);
    let mut old = reader.receipt(&log);
    let mut receipt = writer.receipt(&log);
    old.learn(&log, receipt.again(&log));
    receipt.catch_up(&log, &mut writer);
    writer.confirm(&log, old);
    reader.learn(&log, receipt);
    holds(&rt, reader.at(&log, 1).is_none());
}

#[test]
fn a_full_log_is_read(rt: HostRuntime) {
    let (log, mut writer, mut reader) = full_log(&rt);
    reader.catch_up(&log, &mut writer);
    let longest = reader.next(&log).expect(&rt, "a message");
    equal(&rt, longest.as_slice(), [1; 44].as_slice());
    holds(&rt, reader.next(&log).expect(&rt, "a message").is_empty());
    holds(&rt, reader.next(&log).is_none());
}

fn numbered(n: u64) -> ArrayVec<u8, 44> {
    message(&n.to_be_bytes())
}

// Publishes 300 events: each third has no message, the others have five, which are numbered from 0.
fn write(log: &Log<u64>, mut writer: Writer<u64>) -> (Writer<u64>, bool)
    requires { writer.log ≡ log.now }
    ensures { result.0.log ≡ log.now }
{
    let mut staged = true;
    for event in 0..300u64 {
        if event % 3 < 2 {
            for k in 0..5u64 {
                let n = 10 * (event / 3) + 5 * (event % 3) + k;
                staged &= writer.stage(log, &numbered(n)).is_ok();
            }
        }
        writer.publish(log, &event);
    }
    (writer, staged)
}

// Looks `looks` times, and each time reads on to the count; returns whether it found the numbers from 0 on, in order.
fn follow(log: &Log<u64>, mut reader: Reader<u64>, looks: u64) -> (Reader<u64>, bool)
    requires { reader.log ≡ log.now }
    ensures { result.0.log ≡ log.now }
{
    let mut right = true;
    for _ in 0..looks {
        let count = reader.look(log);
        for n in reader.read_so_far()..count {
            right &= reader.next(log) == Some(numbered(n));
        }
        right &= reader.read_so_far() == count;
        thread::yield_now();
    }
    (reader, right)
}

fn write_and_follow<R: Threads + Abort + Sync>(
    rt: &R,
    log: &Log<u64>,
    writer: Writer<u64>,
    mut one: Reader<u64>,
)
    requires writer { writer.log ≡ log.now }
    requires reader { one.log ≡ log.now }
{
    let two = one.split(log);
    let ((mut writer, staged), ((mut one, one_right), (mut two, two_right))) = thread::join(
        rt,
        move || -> (Writer<u64>, bool)
            requires { writer.log ≡ log.now }
            ensures { result.0.log ≡ log.entry.now }
        { write(log, writer) },
        move || -> ((Reader<u64>, bool), (Reader<u64>, bool))
            requires { (one.log ≡ log.now) × (two.log ≡ log.now) }
            ensures { (result.0.0.log ≡ log.entry.now) × (result.1.0.log ≡ log.entry.now) }
        {
            thread::join(
                rt,
                move || -> (Reader<u64>, bool)
                    requires { one.log ≡ log.now }
                    ensures { result.0.log ≡ log.entry.now }
                { follow(log, one, 5000) },
                move || -> (Reader<u64>, bool)
                    requires { two.log ≡ log.now }
                    ensures { result.0.log ≡ log.entry.now }
                { follow(log, two, 500) },
            )
        },
    );
    holds(rt, staged && one_right && two_right);
    let mut receipt = writer.receipt(log);
    one.learn(log, receipt.again(log));
    two.learn(log, receipt);
    let (mut one, one_right) = follow(log, one, 1);
    let (mut two, two_right) = follow(log, two, 1);
    holds(rt, one_right && two_right);
    equal(rt, one.read_so_far(), 1000);
    equal(rt, two.read_so_far(), 1000);
    holds(rt, one.next(log).is_none());
    holds(rt, two.next(log).is_none());
}

#[test]
fn two_readers_follow_the_writer(rt: HostRuntime) {
    let (log, writer, reader) = Log::<u64>::new(rt.alloc(), 1000).expect(&rt, "a log");
    write_and_follow(&rt, &log, writer, reader);
}
