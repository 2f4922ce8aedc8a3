use crate::tests::{equal, holds};
use hx_operator::*;
use hx_rules::Event;
use hx_units::{MemberNo, Symbol};
use std::alloc::Global;
use std::process::Abort;

const ABCD: Symbol = Symbol(*b"ABCD    ");

// The member of a number.
fn member<R: Abort>(rt: &R, number: u16) -> MemberNo {
    MemberNo::of(number).expect(rt, "a member's number")
}

#[test]
fn each_word_says_its_command(rt: HostRuntime) {
    let said = [
        ("start", Command::Start),
        ("open", Command::Open),
        ("close", Command::Close),
        ("end", Command::End),
        ("tick", Command::Tick),
        ("status", Command::Status),
        ("help", Command::Help),
        ("code O", Command::Code(b'O')),
        ("code S", Command::Code(b'S')),
        ("code Q", Command::Code(b'Q')),
        ("code M", Command::Code(b'M')),
        ("code E", Command::Code(b'E')),
        ("code C", Command::Code(b'C')),
    ];
    for (text, command) in said {
        equal(&rt, read_command(text.as_bytes()), Ok(command));
    }
}

#[test]
fn a_halt_has_a_stock_a_reason_and_a_note(rt: HostRuntime) {
    let said = [
        "halt ABCD T1",
        "  halt   ABCD  T1  ",
        "halt ABCD T1 \"news pending\"",
        "halt ABCD T1\"\"",
    ];
    for text in said {
        let halt = Command::Halt {
            stock: ABCD,
            reason: *b"T1  ",
        };
        equal(&rt, read_command(text.as_bytes()), Ok(halt));
    }
}

#[test]
fn words_with_names_and_numbers(rt: HostRuntime) {
    let resumed = Command::Resume { stock: ABCD };
    equal(&rt, read_command(b"resume ABCD"), Ok(resumed));
    for (text, number) in [
        ("break 17", 17),
        ("break 99999999999999", 99_999_999_999_999),
    ] {
        equal(
            &rt,
            read_command(text.as_bytes()),
            Ok(Command::Break { number }),
        );
    }
    let dropped = Command::Disconnect(member(&rt, 3));
    equal(&rt, read_command(b"drop 3"), Ok(dropped));
    let allowed = Command::Allow(member(&rt, 1));
    equal(&rt, read_command(b"allow 1"), Ok(allowed));
    let refused = Command::Refuse(member(&rt, 4095));
    equal(&rt, read_command(b"refuse 4095"), Ok(refused));
}

#[test]
fn the_longest_names_stand_as_they_are(rt: HostRuntime) {
    let halt = Command::Halt {
        stock: Symbol(*b"ABCDEFGH"),
        reason: *b"IPO1",
    };
    equal(&rt, read_command(b"halt ABCDEFGH IPO1"), Ok(halt));
}

#[test]
fn what_is_no_command_is_reported(rt: HostRuntime) {
    let refused = [
        ("", WordError::NoWord),
        ("   ", WordError::NoWord),
        ("stop", WordError::UnknownWord),
        ("START", WordError::UnknownWord),
        ("starts", WordError::UnknownWord),
        ("start now", WordError::TooMany),
        ("code Q M", WordError::TooMany),
        ("halt ABCD T1 news", WordError::TooMany),
        ("halt ABCD T1 \"news\" pending", WordError::TooMany),
        ("code", WordError::MissingCode),
        ("code X", WordError::NoCode),
        ("code OS", WordError::NoCode),
        ("halt", WordError::MissingStock),
        ("resume", WordError::MissingStock),
        ("halt ABCD", WordError::MissingReason),
        ("halt ABCDEFGHI T1", WordError::NoStock),
        ("halt ABCD T1234", WordError::NoReason),
        ("halt ABCD t1", WordError::NoReason),
        ("break", WordError::MissingNumber),
        ("break x", WordError::NoNumber),
        ("break 017", WordError::NoNumber),
        ("break 100000000000000", WordError::NoNumber),
        ("drop", WordError::MissingMember),
        ("allow 0", WordError::NoMember),
        ("refuse 4096", WordError::NoMember),
        ("open \"now\"", WordError::NoNote),
        ("halt ABCD T1 \"news", WordError::OpenQuote),
    ];
    for (text, error) in refused {
        equal(&rt, read_command(text.as_bytes()), Err(error));
    }
}

#[test]
fn the_text_in_quotes_is_for_the_log(rt: HostRuntime) {
    equal(
        &rt,
        note_of(b"halt ABCD T1 \"news pending\""),
        Some(b"news pending".as_slice()),
    );
    equal(&rt, note_of(b"halt ABCD T1"), None);
    equal(&rt, note_of(b"halt ABCD T1 \"news"), None);
}

// The events of a command at the time 5.
fn events<R: Abort>(rt: &R, alloc: Global, command: Command) -> Vec<Event> {
    events_of(alloc, command, 5).expect(rt, "memory")
}

// Whether an event is this code at the time 5.
fn is_code(event: Option<&Event>, wanted: u8) -> bool {
    matches!(event, Some(Event::Hours { time: 5, code }) if *code == wanted)
}

#[test]
fn a_start_is_two_codes(rt: HostRuntime) {
    let start = events(&rt, rt.alloc(), Command::Start);
    equal(&rt, start.len(), 2);
    holds(&rt, is_code(start.first(), b'O'));
    holds(&rt, is_code(start.get(1), b'S'));
    holds(&rt, events(&rt, rt.alloc(), Command::Status).is_empty());
}
