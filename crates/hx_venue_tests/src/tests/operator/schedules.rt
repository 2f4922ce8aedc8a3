use crate::tests::equal;
use hx_operator::*;
use std::alloc::Global;
use std::process::Abort;

const MINUTE: u64 = 60_000_000_000;

const HOUR: u64 = 3_600_000_000_000;

const DAY: &[u8] = b"# a day in New York, in winter
07:00:00-05:00 O   # 12:00 UTC
07:00:00-05:00 S

09:30:00-05:00 Q
21:00:00 M
21:05:00Z E
23:06:00+02:00 C";

// The schedule of a text.
fn read<R: Abort>(rt: &R, alloc: Global, text: &[u8]) -> Schedule {
    read_schedule(alloc, text).expect(rt, "a schedule")
}

#[test]
fn each_code_is_due_at_its_time(rt: HostRuntime) {
    let mut schedule = read(&rt, rt.alloc(), DAY);
    equal(&rt, schedule.left().len(), 6);
    equal(&rt, schedule.next_due(12 * HOUR - 1), None);
    equal(&rt, schedule.next_due(12 * HOUR), Some(b'O'));
    equal(&rt, schedule.next_due(12 * HOUR), Some(b'S'));
    equal(&rt, schedule.next_due(12 * HOUR), None);
    equal(&rt, schedule.next_due(14 * HOUR + 30 * MINUTE), Some(b'Q'));
    equal(&rt, schedule.next_due(23 * HOUR), Some(b'M'));
    equal(&rt, schedule.next_due(23 * HOUR), Some(b'E'));
    let last = [Entry {
        time: 21 * HOUR + 6 * MINUTE,
        code: b'C',
    }];
    equal(&rt, schedule.left(), last.as_slice());
    equal(&rt, schedule.next_due(23 * HOUR), Some(b'C'));
    equal(&rt, schedule.next_due(23 * HOUR), None);
}

#[test]
fn codes_that_are_past_are_passed_over(rt: HostRuntime) {
    let mut schedule = read(&rt, rt.alloc(), DAY);
    schedule.skip(3);
    equal(&rt, schedule.left().len(), 3);
    equal(&rt, schedule.next_due(23 * HOUR), Some(b'M'));
    schedule.skip(6);
    equal(&rt, schedule.next_due(23 * HOUR), None);
}

// What is wrong with a text.
fn wrong(rt: &HostRuntime, text: &[u8]) -> Option<ScheduleError> {
    read_schedule(rt.alloc(), text).err()
}

#[test]
fn the_first_line_that_is_wrong_is_reported(rt: HostRuntime) {
    let refused: [(&[u8], usize, Wrong); 16] = [
        (b"9:30:00 Q", 1, Wrong::NoTime),
        (b"24:00:00 Q", 1, Wrong::NoTime),
        (b"09:60:00 Q", 1, Wrong::NoTime),
        (b"09:30:60 Q", 1, Wrong::NoTime),
        (b"09:30 Q", 1, Wrong::NoTime),
        (b"09:30:00+2:00 Q", 1, Wrong::NoTime),
        (b"09:30:00z Q", 1, Wrong::NoTime),
        (b"\n# what\n01:59:59+02:00 Q", 3, Wrong::OtherDay),
        (b"19:00:00-05:00 Q", 1, Wrong::OtherDay),
        (b"09:30:00", 1, Wrong::MissingCode),
        (b"09:30:00 X", 1, Wrong::NoCode),
        (b"09:30:00 Q M", 1, Wrong::TooMany),
        (b"09:30:00 Q\n16:00:00 S", 2, Wrong::OutOfOrder),
        (b"09:30:00 Q\n16:00:00 Q", 2, Wrong::OutOfOrder),
        (b"09:30:00 Q\n09:29:59 M", 2, Wrong::Early),
        (b"09:30:00 Q\n09:00:00-00:29 M", 2, Wrong::Early),
    ];
    for (text, number, fault) in refused {
        let error = ScheduleError::Line {
            number,
            wrong: fault,
        };
        equal(&rt, wrong(&rt, text), Some(error));
    }
}

#[test]
fn an_offset_may_go_to_the_ends_of_the_day(rt: HostRuntime) {
    let text = b"02:00:00+02:00 O\n18:59:59-05:00 C\n";
    let schedule = read(&rt, rt.alloc(), text);
    let ends = [
        Entry {
            time: 0,
            code: b'O',
        },
        Entry {
            time: 24 * HOUR - 1_000_000_000,
            code: b'C',
        },
    ];
    equal(&rt, schedule.left(), ends.as_slice());
}

#[test]
fn a_text_that_says_nothing_is_a_schedule(rt: HostRuntime) {
    equal(&rt, wrong(&rt, b""), None);
    equal(&rt, wrong(&rt, b"\n  \n# nothing\n"), None);
}
