use super::texts::{ANSWER_HEAD, NO_KEY, NO_KEY_BODY, STANDS_1, TAKEN_1};
use crate::tests::{equal, holds};
use hx_etcd::{CallError, Connection};
use std::alloc::Global;
use std::io;
use std::io::Read;
use std::process::Abort;

// What etcd sends, answer by answer, with at most `at_once` bytes a read. After the last one the line is closed.
#[derive(Drop)]
struct Inlet<'a> {
    answers: &'a [&'a str],
    // Which of them is read.
    next: usize,
    // How many bytes of it are read.
    at: usize,
    at_once: usize,
}

impl<'a> Inlet<'a> {
    fn of(answers: &'a [&'a str], at_once: usize) -> Inlet<'a> {
        Inlet {
            answers,
            next: 0,
            at: 0,
            at_once,
        }
    }
}

impl<'a> Read for Inlet<'a> {
    fn read(&mut self, buf: &mut [u8]) -> io::Result<usize> {
        let Some(answer) = self.answers.get(self.next) else {
            return Ok(0);
        };
        let rest = answer.as_bytes().get(self.at..).unwrap_or(b"");
        let count = self.at_once.min(rest.len()).min(buf.len());
        buf[..count].copy_from_slice(&rest[..count]);
        if count == rest.len() {
            self.next = self.next.wrapping_add(1);
            self.at = 0;
        } else {
            self.at += count;
        }
        Ok(count)
    }
}

// An answer that has a length.
fn spelled(rt: &impl Abort, alloc: Global, body: &str) -> String {
    let size = body.len();
    format!(in alloc; "{ANSWER_HEAD}{size}\r\n\r\n{body}").expect(rt, "memory")
}

// A call is answered by this.
fn called<'a>(
    rt: &impl Abort,
    line: &mut Connection<Inlet<'a>, Vec<u8>>,
    request: &[u8],
    status: u16,
    body: &str,
) {
    match line.call(request) {
        Ok(answer) => {
            equal(rt, answer.status, status);
            equal(rt, answer.body.as_slice(), body.as_bytes());
        }
        Err(_) => panic!(rt; "the call is answered"),
    }
}

#[test]
fn calls_are_answered_one_by_one(rt: HostRuntime) {
    let alloc = rt.alloc();
    let first = spelled(&rt, alloc, STANDS_1);
    let second = spelled(&rt, alloc, TAKEN_1);
    let answers = [first.as_str(), NO_KEY, second.as_str()];
    for at_once in [1, 7, 10_000] {
        let inlet = Inlet::of(&answers, at_once);
        let mut line = Connection::new(alloc, inlet, Vec::new(alloc));
        called(&rt, &mut line, b"one", 200, STANDS_1);
        called(&rt, &mut line, b"two", 400, NO_KEY_BODY);
        called(&rt, &mut line, b"three", 200, TAKEN_1);
        holds(&rt, !line.is_over());
        match line.call(b"four") {
            Err(CallError::Ended) => {}
            _ => panic!(rt; "nothing more comes"),
        }
        holds(&rt, line.is_over());
    }
}

// What comes over a line, and what is wrong with it, as `Debug` formats it.
const FAULTS: &[(&str, &str)] = &[
    ("", "Ended"),
    ("HTTP/1.1 200 OK\r\nContent-Length: 9\r\n\r\n{}", "Ended"),
    ("HTTP/1.1 200 OK\r\nContent-Length: 2\r\n", "Ended"),
    ("HTTP/1.1 200 OK\r\n\r\n{}", "NoLength"),
    ("SSH-2.0-OpenSSH_9.2p1\r\n", "Http(Parse(Version))"),
    (
        "HTTP/1.1 200 OK\r\nContent-Length: 2\r\nTransfer-Encoding: chunked\r\n\r\n",
        "Http(Framing(LengthAndEncoding))",
    ),
];

#[test]
fn bad_calls_are_named_and_end_the_line(rt: HostRuntime) {
    let alloc = rt.alloc();
    for (text, fault) in FAULTS {
        let answers = [*text];
        let inlet = Inlet::of(&answers, 10_000);
        let mut line = Connection::new(alloc, inlet, Vec::new(alloc));
        match line.call(b"one") {
            Ok(_) => panic!(rt; "the call is bad"),
            Err(error) => {
                let reported = format!(in alloc; "{error:?}").expect(&rt, "memory");
                equal(&rt, reported.as_str(), *fault);
            }
        }
        holds(&rt, line.is_over());
        match line.call(b"two") {
            Err(CallError::Over) => {}
            _ => panic!(rt; "the line is over"),
        }
    }
}

#[test]
fn the_last_answer_ends_the_line(rt: HostRuntime) {
    let alloc = rt.alloc();
    let last = [
        "HTTP/1.1 200 OK\r\nConnection: close\r\nContent-Length: 2\r\n\r\n{}",
        "HTTP/1.0 200 OK\r\nContent-Length: 2\r\n\r\n{}",
        "HTTP/1.1 200 OK\r\nContent-Length: 2\r\n\r\n{}and more",
    ];
    for text in last {
        let answers = [text];
        let mut line = Connection::new(alloc, Inlet::of(&answers, 10_000), Vec::new(alloc));
        called(&rt, &mut line, b"one", 200, "{}");
        holds(&rt, line.is_over());
    }
}
