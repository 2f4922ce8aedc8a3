use crate::tests::{equal, holds};
use hx_operator::*;
use std::alloc::{AllocError, Global};
use std::io::{ErrorKind, Read, Write};
use std::net::Net;
use std::os::unix::fs::MetadataExt;
use std::os::unix::net::{UnixListener, UnixStream};
use std::process::Abort;
use std::rt::Files;
use std::sync::atomic::{AtomicBool, Ordering};
use std::time::{Clock, Duration, Instant};
use std::{fs, thread};

// A day that knows its operator's words, and notes them.
#[derive(Drop)]
struct Day {
    heard: Vec<u8>,
}

impl Directed for Day {
    fn direct(&mut self, line: &[u8], answer: &mut Vec<u8>) -> Result<(), AllocError> {
        self.heard.extend_from_slice(line)?;
        self.heard.push(b';')?;
        match read_command(line) {
            Ok(Command::Help) => {
                answer.extend_from_slice(b"ok\n")?;
                answer.extend_from_slice(HELP.as_bytes())?;
            }
            Ok(_) => answer.extend_from_slice(b"ok")?,
            Err(_) => answer.extend_from_slice(b"no: no such word")?,
        }
        Ok(())
    }
}

fn new_day(alloc: Global) -> Day {
    Day {
        heard: Vec::new(alloc),
    }
}

// A socket in the folder that the test runs in.
fn opened<R: AllocGlobal + Net + Files<File = fs::File> + Abort>(
    rt: &R,
    path: &str,
) -> OperatorSocket {
    let _ = fs::remove_file(rt, path);
    OperatorSocket::open(rt, path).expect(rt, "a socket")
}

// A connection to the socket.
fn connected<R: Net + Abort>(rt: &R, path: &str) -> UnixStream {
    UnixStream::connect(rt, path).expect(rt, "a connection")
}

fn send<R: Abort>(rt: &R, stream: &mut UnixStream, bytes: &[u8]) {
    stream
        .write_all(bytes)
        .expect(rt, "a line that takes bytes");
}

// Whether a file is there.
fn is_there<R: Files + Abort>(rt: &R, path: &str) -> bool {
    fs::exists(rt, path).expect(rt, "a folder")
}

// The permissions of a file.
fn mode_of<R: Files + Abort>(rt: &R, path: &str) -> u32 {
    fs::metadata(rt, path).expect(rt, "a file").mode() & 0o777
}

// A file that is no socket's, of the word "mine".
fn put_mine<R: Files + Abort>(rt: &R, path: &str) {
    fs::write(rt, path, b"mine").expect(rt, "a file that is written");
}

// That file is there as it was, and then no more.
fn take_mine<R: AllocGlobal + Files + Abort>(rt: &R, path: &str) {
    let bytes = fs::read(rt, path).expect(rt, "a file that is read");
    equal(rt, bytes.as_slice(), b"mine".as_slice());
    remove(rt, path);
}

fn remove<R: Files + Abort>(rt: &R, path: &str) {
    fs::remove_file(rt, path).expect(rt, "a file that is removed");
}

// Runs the socket until `stop` is set.
fn run(rt: &HostRuntime, socket: &mut OperatorSocket, day: &mut Day, stop: &AtomicBool) {
    for _ in 0..1_000_000 {
        if stop.load(Ordering::SeqCst) {
            return;
        }
        socket.turn(rt, rt.alloc(), day);
        thread::sleep(rt, Duration::from_millis(1));
    }
}

type Said = (Result<bool, OperateError>, Vec<u8>);

// What a client is answered.
fn say(rt: &HostRuntime, path: &str, words: &[&str]) -> Said {
    let mut output = Vec::new(rt.alloc());
    let answer = operate(rt, rt.alloc(), path, words, &mut output);
    (answer, output)
}

#[test]
fn words_are_carried_out_and_answered(rt: HostRuntime) {
    const PATH: &str = "hx_operator_words.socket";
    let mut socket = opened(&rt, PATH);
    let mut day = new_day(rt.alloc());
    let stop = AtomicBool::new(false);
    let (_, said) = thread::join(
        &rt,
        || run(&rt, &mut socket, &mut day, &stop),
        || {
            let halt = say(&rt, PATH, ["halt", "ABCD", "T1", "news pending"].as_slice());
            let stopped = say(&rt, PATH, ["stop"].as_slice());
            let help = say(&rt, PATH, ["help"].as_slice());
            stop.store(true, Ordering::SeqCst);
            (halt, stopped, help)
        },
    );
    let (halt, stopped, help) = said;
    equal(&rt, halt.0, Ok(true));
    equal(&rt, halt.1.as_slice(), b"ok\n".as_slice());
    equal(&rt, stopped.0, Ok(false));
    equal(&rt, stopped.1.as_slice(), b"no: no such word\n".as_slice());
    equal(&rt, help.0, Ok(true));
    equal(&rt, help.1.len(), 3 + HELP.len());
    equal(
        &rt,
        day.heard.as_slice(),
        b"halt ABCD T1 \"news pending\";stop;help;".as_slice(),
    );
    socket.close(&rt);
}

#[test]
fn the_file_is_its_owners_alone_and_goes_at_the_end(rt: HostRuntime) {
    const PATH: &str = "hx_operator_mode.socket";
    let socket = opened(&rt, PATH);
    equal(&rt, mode_of(&rt, PATH), 0o600);
    socket.close(&rt);
    holds(&rt, !is_there(&rt, PATH));
    equal(
        &rt,
        say(&rt, PATH, ["status"].as_slice()).0,
        Err(OperateError::NoServer),
    );
}

#[test]
fn a_socket_in_use_is_left_alone(rt: HostRuntime) {
    const PATH: &str = "hx_operator_use.socket";
    let socket = opened(&rt, PATH);
    equal(
        &rt,
        OperatorSocket::open(&rt, PATH).err(),
        Some(SocketError::InUse),
    );
    holds(&rt, is_there(&rt, PATH));
    socket.close(&rt);
}

#[test]
fn a_socket_that_nobody_listens_on_is_replaced(rt: HostRuntime) {
    const PATH: &str = "hx_operator_old.socket";
    let _ = fs::remove_file(&rt, PATH);
    drop(UnixListener::bind(&rt, PATH).expect(&rt, "a listener"));
    equal(
        &rt,
        say(&rt, PATH, ["status"].as_slice()).0,
        Err(OperateError::NoServer),
    );
    let socket = OperatorSocket::open(&rt, PATH).expect(&rt, "a socket that is replaced");
    equal(&rt, mode_of(&rt, PATH), 0o600);
    socket.close(&rt);
}

#[test]
fn a_file_that_is_no_socket_is_not_touched(rt: HostRuntime) {
    const PATH: &str = "hx_operator_file.socket";
    put_mine(&rt, PATH);
    equal(
        &rt,
        OperatorSocket::open(&rt, PATH).err(),
        Some(SocketError::NoSocket),
    );
    take_mine(&rt, PATH);
}

#[test]
fn another_file_of_the_name_is_left_at_the_end(rt: HostRuntime) {
    const PATH: &str = "hx_operator_other.socket";
    let socket = opened(&rt, PATH);
    remove(&rt, PATH);
    put_mine(&rt, PATH);
    socket.close(&rt);
    take_mine(&rt, PATH);
}

#[test]
fn a_path_that_no_socket_may_have_is_refused(rt: HostRuntime) {
    let long =
        "a_path_of_more_than_one_hundred_and_seven_bytes_is_longer_than_the_address_of_a_unix_socket_has_room_for_0000";
    equal(
        &rt,
        OperatorSocket::open(&rt, long).err(),
        Some(SocketError::Path),
    );
    let nowhere = OperatorSocket::open(&rt, "no_such_folder/hx.socket").err();
    equal(&rt, nowhere, Some(SocketError::Failed));
}

// What a peer reads until the other side closes, in n turns of the socket.
fn read_in_turns<R: AllocGlobal + Clock + Abort>(
    rt: &R,
    socket: &mut OperatorSocket,
    day: &mut Day,
    stream: &mut UnixStream,
) -> Vec<u8> {
    stream
        .set_nonblocking(true)
        .expect(rt, "a line that does not wait");
    let mut bytes = Vec::new(rt.alloc());
    let mut buffer = [0; 512];
    for _ in 0..100 {
        socket.turn(rt, rt.alloc(), day);
        match stream.read(&mut buffer) {
            Ok(0) => break,
            Ok(count) => bytes
                .extend_from_slice(&buffer[..count])
                .expect(rt, "memory"),
            Err(error) if error.kind() == ErrorKind::WouldBlock => {}
            Err(_) => break,
        }
    }
    bytes
}

#[test]
fn a_line_comes_in_pieces(rt: HostRuntime) {
    const PATH: &str = "hx_operator_pieces.socket";
    let mut socket = opened(&rt, PATH);
    let mut day = new_day(rt.alloc());
    let mut stream = connected(&rt, PATH);
    for piece in [b"ti".as_slice(), b"ck".as_slice(), b"\nopen\n".as_slice()] {
        send(&rt, &mut stream, piece);
        socket.turn(&rt, rt.alloc(), &mut day);
    }
    let answer = read_in_turns(&rt, &mut socket, &mut day, &mut stream);
    equal(&rt, answer.as_slice(), b"ok\n\n".as_slice());
    equal(&rt, day.heard.as_slice(), b"tick;".as_slice());
    socket.close(&rt);
}

#[test]
fn a_line_that_is_too_long_is_refused(rt: HostRuntime) {
    const PATH: &str = "hx_operator_long.socket";
    let mut socket = opened(&rt, PATH);
    let mut day = new_day(rt.alloc());
    let mut longest = connected(&rt, PATH);
    send(&rt, &mut longest, &[b'x'; LONGEST]);
    send(&rt, &mut longest, b"\n");
    let answer = read_in_turns(&rt, &mut socket, &mut day, &mut longest);
    equal(&rt, answer.as_slice(), b"no: no such word\n\n".as_slice());
    let mut longer = connected(&rt, PATH);
    send(&rt, &mut longer, &[b'x'; LONGEST + 1]);
    let answer = read_in_turns(&rt, &mut socket, &mut day, &mut longer);
    equal(
        &rt,
        answer.as_slice(),
        b"no: the line is too long\n\n".as_slice(),
    );
    equal(&rt, day.heard.len(), LONGEST + 1);
    socket.close(&rt);
}

#[test]
fn eight_who_say_nothing_go_after_five_seconds(rt: HostRuntime) {
    const PATH: &str = "hx_operator_silent.socket";
    let mut socket = opened(&rt, PATH);
    let mut day = new_day(rt.alloc());
    let mut silent = Vec::new(rt.alloc());
    for _ in 0..8 {
        silent.push(connected(&rt, PATH)).expect(&rt, "memory");
    }
    let mut ninth = connected(&rt, PATH);
    send(&rt, &mut ninth, b"status\n");
    holds(
        &rt,
        read_in_turns(&rt, &mut socket, &mut day, &mut ninth).is_empty(),
    );
    let began = Instant::now(&rt).expect(&rt, "the time");
    let mut answer = Vec::new(rt.alloc());
    for _ in 0..1_000 {
        if !answer.is_empty() {
            break;
        }
        thread::sleep(&rt, Duration::from_millis(20));
        answer = read_in_turns(&rt, &mut socket, &mut day, &mut ninth);
    }
    equal(&rt, answer.as_slice(), b"ok\n\n".as_slice());
    let waited = began.elapsed(&rt).expect(&rt, "the time");
    holds(&rt, waited >= Duration::from_millis(4_500));
    socket.close(&rt);
}

#[test]
fn an_answer_that_was_cut_is_none(rt: HostRuntime) {
    const PATH: &str = "hx_operator_cut.socket";
    let _ = fs::remove_file(&rt, PATH);
    let listener = UnixListener::bind(&rt, PATH).expect(&rt, "a listener");
    let (_, said) = thread::join(
        &rt,
        || {
            let mut buffer = [0; 64];
            if let Ok((mut stream, _)) = listener.accept() {
                let _ = stream.read(&mut buffer);
                let _ = stream.write_all(b"ok\nhalf of");
            }
        },
        || say(&rt, PATH, ["status"].as_slice()),
    );
    equal(&rt, said.0, Err(OperateError::Cut));
    holds(&rt, said.1.is_empty());
    remove(&rt, PATH);
}

#[test]
fn words_that_make_no_line_are_not_sent(rt: HostRuntime) {
    const PATH: &str = "hx_operator_none.socket";
    let two_lines = say(&rt, PATH, ["start\nopen"].as_slice());
    equal(&rt, two_lines.0, Err(OperateError::NoLine));
    equal(&rt, OperateError::NoLine.status(), 2);
}

// An answer with its end.
fn ended<R: Abort>(rt: &R, alloc: Global, text: &[u8]) -> Vec<u8> {
    let mut bytes = Vec::from_slice(alloc, text).expect(rt, "memory");
    end_answer(&mut bytes).expect(rt, "memory");
    bytes
}

#[test]
fn an_answer_ends_with_an_empty_line(rt: HostRuntime) {
    let bytes = ended(&rt, rt.alloc(), b"no: unknown word");
    equal(&rt, bytes.as_slice(), b"no: unknown word\n\n".as_slice());
    let read = read_answer(&bytes).map(|answer| (answer.is_ok, answer.text));
    equal(&rt, read, Some((false, b"no: unknown word\n".as_slice())));
    holds(&rt, read_answer(b"ok\n").is_none());
    holds(&rt, read_answer(b"ok\nmore").is_none());
    holds(&rt, read_answer(b"yes\n\n").is_none());
}
