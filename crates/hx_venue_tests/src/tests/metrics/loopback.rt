//! The page on loopback: each client has a line of its own, and none holds up another.

use super::venue::Model;
use crate::tests::{equal, holds};
use hx_metrics::{Health, serve_metrics};
use std::alloc::Global;
use std::hash::RandomState;
use std::io::{Read, Write};
use std::net::{Ipv4Addr, Net, TcpListener, TcpStream};
use std::process::Abort;
use std::sync::atomic::Ordering;
use std::thread;
use std::thread::join;
use std::time::{Clock, Duration, Instant};

const HEALTH: &[u8] = b"GET /health HTTP/1.1\r\nHost: h\r\n\r\n";

const OK: &[u8] = b"HTTP/1.1 200 OK\r\ncontent-type: text/plain; charset=utf-8\r\n\
    content-length: 3\r\n\r\nok\n";

const LAST_HEALTH: &[u8] = b"GET /health HTTP/1.1\r\nHost: h\r\nConnection: close\r\n\r\n";

const LAST_OK: &[u8] = b"HTTP/1.1 200 OK\r\ncontent-type: text/plain; charset=utf-8\r\n\
    content-length: 3\r\nconnection: close\r\n\r\nok\n";

// A client's line.
fn connect<R: Net<Listener = TcpListener, Stream = TcpStream> + Abort>(
    rt: &R,
    port: u16,
) -> TcpStream {
    let stream = TcpStream::connect(rt, (Ipv4Addr::new(127, 0, 0, 1), port)).expect(
        rt,
        "a connection",
    );
    stream
        .set_read_timeout(Some(Duration::from_secs(10)))
        .expect(rt, "a limit of time");
    stream
}

// The next bytes that come are these.
fn expect(rt: &impl Abort, stream: &mut TcpStream, bytes: &[u8]) {
    let mut buffer = [0; 256];
    let mut slot = &mut buffer[..bytes.len().min(256)];
    stream.read_exact(&mut slot).expect(rt, "bytes that come");
    equal(rt, &*slot, bytes);
}

// Nothing more comes: the line was closed at its other end.
fn expect_end(rt: &impl Abort, stream: &mut TcpStream) {
    let mut buffer = [0; 1];
    equal(
        rt,
        stream.read(&mut buffer).expect(rt, "bytes that come"),
        0,
    );
}

// Asks for the health, and is answered.
fn ask(rt: &impl Abort, stream: &mut TcpStream) {
    stream.write_all(HEALTH).expect(rt, "a line that is open");
    expect(rt, stream, OK);
}

// The listener of a metrics page, on a port that is free, and the venue that it is of.
#[derive(Drop)]
struct Stage {
    listener: TcpListener,
    port: u16,
    venue: Model,
}

impl Stage {
    fn new<R: Net<Listener = TcpListener, Stream = TcpStream> + Abort>(rt: &R) -> Stage {
        let listener = TcpListener::bind(rt, (Ipv4Addr::new(127, 0, 0, 1), 0)).expect(
            rt,
            "a listener",
        );
        Stage {
            port: listener.local_addr().expect(rt, "an address").port(),
            listener,
            venue: Model::new(Health::Ready),
        }
    }
}

// Ends the day: the clients have done their part.
fn end(venue: &Model) {
    venue.over.store(true, Ordering::SeqCst);
}

// The page is served; two others are answered beside a silent client, one of them in pieces. Each
// is closed five seconds after its last request, the silent one five seconds after it came.
fn two_and_a_silent_one<R: Net<Listener = TcpListener, Stream = TcpStream> + Clock + Abort>(
    rt: &R,
    port: u16,
) {
    let start = Instant::now(rt).expect(rt, "the time");
    let mut silent = connect(rt, port);
    let mut first = connect(rt, port);
    let mut second = connect(rt, port);
    ask(rt, &mut first);
    ask(rt, &mut second);
    second
        .write_all(&HEALTH[..10])
        .expect(rt, "a line that is open");
    thread::sleep(rt, Duration::from_secs(1));
    ask(rt, &mut first);
    second
        .write_all(&HEALTH[10..])
        .expect(rt, "a line that is open");
    expect(rt, &mut second, OK);
    expect_end(rt, &mut silent);
    let time = start.elapsed(rt).expect(rt, "the time").as_millis();
    holds(rt, 4900 <= time && time < 5900);
    expect_end(rt, &mut first);
    let time = start.elapsed(rt).expect(rt, "the time").as_millis();
    holds(rt, 5900 <= time && time < 6900);
    expect_end(rt, &mut second);
}

#[test]
fn a_silent_client_holds_up_nobody(rt: HostRuntime) {
    let alloc = rt.alloc();
    let Stage {
        listener,
        port,
        venue,
    } = Stage::new(&rt);
    let (served, _) = join(
        &rt,
        || serve_metrics(&rt, alloc, listener, &venue, RandomState::new(&rt)?),
        || {
            two_and_a_silent_one(&rt, port);
            end(&venue);
        },
    );
    served.expect(&rt, "a page that is served");
}

// A client that sends a byte now and then is closed five seconds after it came.
fn a_slow_one<R: Net<Listener = TcpListener, Stream = TcpStream> + Clock + Abort>(
    rt: &R,
    port: u16,
) {
    let start = Instant::now(rt).expect(rt, "the time");
    let mut slow = connect(rt, port);
    slow.set_read_timeout(Some(Duration::from_millis(250)))
        .expect(rt, "a limit of time");
    let mut buffer = [0; 1];
    for byte in HEALTH {
        if slow.write_all(&[*byte]).is_err() {
            break;
        }
        // Nothing comes in time, until the line is closed.
        if slow.read(&mut buffer).is_ok() {
            break;
        }
    }
    let time = start.elapsed(rt).expect(rt, "the time").as_millis();
    holds(rt, 4900 <= time && time < 5900);
}

#[test]
fn a_slow_sender_is_closed(rt: HostRuntime) {
    let alloc = rt.alloc();
    let Stage {
        listener,
        port,
        venue,
    } = Stage::new(&rt);
    let (served, _) = join(
        &rt,
        || serve_metrics(&rt, alloc, listener, &venue, RandomState::new(&rt)?),
        || {
            a_slow_one(&rt, port);
            end(&venue);
        },
    );
    served.expect(&rt, "a page that is served");
}

// A client that sends no request, and one whose head is too large, get an answer that says so, and
// the end; one that asks to close as well. The client that came before them is answered all the
// time.
fn bad_neighbours<R: Net<Listener = TcpListener, Stream = TcpStream> + Clock + Abort>(
    rt: &R,
    port: u16,
) {
    let mut good = connect(rt, port);
    ask(rt, &mut good);
    let mut bad = connect(rt, port);
    bad.write_all(b"what?\r\n\r\n")
        .expect(rt, "a line that is open");
    expect(
        rt,
        &mut bad,
        b"HTTP/1.1 400 Bad Request\r\nconnection: close\r\ncontent-length: 0\r\n\r\n",
    );
    expect_end(rt, &mut bad);
    ask(rt, &mut good);
    let mut large = connect(rt, port);
    large
        .write_all(b"GET /health HTTP/1.1\r\nHost: h\r\nX-Padding: ")
        .expect(rt, "a line that is open");
    large
        .write_all(&[b'x'; 20_000])
        .expect(rt, "a line that is open");
    expect(
        rt,
        &mut large,
        b"HTTP/1.1 431 Request Header Fields Too Large\r\n",
    );
    ask(rt, &mut good);
    let mut last = connect(rt, port);
    last.write_all(LAST_HEALTH)
        .expect(rt, "a line that is open");
    expect(rt, &mut last, LAST_OK);
    expect_end(rt, &mut last);
    ask(rt, &mut good);
}

#[test]
fn bad_neighbours_hurt_nobody(rt: HostRuntime) {
    let alloc = rt.alloc();
    let Stage {
        listener,
        port,
        venue,
    } = Stage::new(&rt);
    let (served, _) = join(
        &rt,
        || serve_metrics(&rt, alloc, listener, &venue, RandomState::new(&rt)?),
        || {
            bad_neighbours(&rt, port);
            end(&venue);
        },
    );
    served.expect(&rt, "a page that is served");
}

// Sixteen are there, the oldest of them silent: one more, and the oldest is closed at once. When
// the day is over all are.
fn a_crowd<R: Net<Listener = TcpListener, Stream = TcpStream> + Clock + Abort>(
    rt: &R,
    alloc: Global,
    port: u16,
    venue: &Model,
) {
    let start = Instant::now(rt).expect(rt, "the time");
    let mut oldest = connect(rt, port);
    let mut others = Vec::new(alloc);
    for _ in 0..15 {
        let mut other = connect(rt, port);
        ask(rt, &mut other);
        others.push(other).expect(rt, "memory");
    }
    let mut newest = connect(rt, port);
    ask(rt, &mut newest);
    expect_end(rt, &mut oldest);
    for other in others.iter_mut() {
        ask(rt, other);
    }
    venue.over.store(true, Ordering::SeqCst);
    expect_end(rt, &mut newest);
    holds(
        rt,
        start.elapsed(rt).expect(rt, "the time").as_millis() < 4900,
    );
}

#[test]
fn the_oldest_makes_room(rt: HostRuntime) {
    let alloc = rt.alloc();
    let Stage {
        listener,
        port,
        venue,
    } = Stage::new(&rt);
    let (served, _) = join(
        &rt,
        || serve_metrics(&rt, alloc, listener, &venue, RandomState::new(&rt)?),
        || {
            a_crowd(&rt, alloc, port, &venue);
            end(&venue);
        },
    );
    served.expect(&rt, "a page that is served");
}
