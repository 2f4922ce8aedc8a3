//! The web page on loopback: browsers that get news, one that is slow, one that vanishes, and the
//! end.

use super::news::news_of;
use crate::tests::equal;
use hx_market_view::Post;
use hx_web::serve_web;
use std::alloc::Global;
use std::hash::RandomState;
use std::io::{Read, Write};
use std::net::{Ipv4Addr, Net, TcpListener, TcpStream};
use std::process::Abort;
use std::sync::Wait;
use std::thread;
use std::thread::join;
use std::time::{Clock, Duration};

const ASKS: &[u8] = b"GET /live HTTP/1.1\r\nHost: localhost:1\r\nUpgrade: websocket\r\n\
    Connection: Upgrade\r\nSec-WebSocket-Key: dGhlIHNhbXBsZSBub25jZQ==\r\n\
    Sec-WebSocket-Version: 13\r\n\r\n";

const TAKEN: &[u8] = b"HTTP/1.1 101 Switching Protocols\r\nupgrade: websocket\r\n\
    connection: upgrade\r\nsec-websocket-accept: s3pPLMBiTxaQ9kYGzzhZRbK+xOo=\r\n\r\n";

// The next bytes that come are these.
fn expect(rt: &impl Abort, stream: &mut TcpStream, bytes: &[u8]) {
    let mut buffer = [0; 256];
    let mut slot = &mut buffer[..bytes.len().min(256)];
    stream.read_exact(&mut slot).expect(rt, "bytes that come");
    equal(rt, &*slot, bytes);
}

// A browser that has been taken.
fn browse<R: Net<Listener = TcpListener, Stream = TcpStream> + Abort>(
    rt: &R,
    port: u16,
) -> TcpStream {
    let mut stream = TcpStream::connect(rt, (Ipv4Addr::new(127, 0, 0, 1), port)).expect(
        rt,
        "a connection",
    );
    stream
        .set_read_timeout(Some(Duration::from_secs(10)))
        .expect(rt, "a limit of time");
    stream.write_all(ASKS).expect(rt, "a line that is open");
    expect(rt, &mut stream, TAKEN);
    stream
}

// A browser gets each state, newest last, and the end; another one vanishes.
fn two_browsers<
    R: Net<Listener = TcpListener, Stream = TcpStream> + AllocGlobal + Clock + Wait + Abort,
>(rt: &R, port: u16, post: &Post) {
    let mut first = browse(rt, port);
    let second = browse(rt, port);
    post.leave(rt, news_of(rt, "1", 1)).expect(rt, "memory");
    expect(rt, &mut first, b"\x81\x011\x81\x02{}");
    drop(second);
    post.leave(rt, news_of(rt, "2", 2)).expect(rt, "memory");
    expect(rt, &mut first, b"\x81\x012\x81\x02{}");
    post.leave(rt, news_of(rt, "4", 4)).expect(rt, "memory");
    expect(rt, &mut first, b"\x81\x014\x81\x02{}");
    // A ping is answered (RFC 6455, section 5.5.2), with the mask of zeros.
    first
        .write_all(b"\x89\x82\0\0\0\0hi")
        .expect(rt, "a line that is open");
    expect(rt, &mut first, b"\x8a\x02hi");
    let mut late = browse(rt, port);
    expect(rt, &mut late, b"\x81\x014\x81\x02{}");
    post.end(rt);
    expect(rt, &mut first, b"\x88\0");
    expect(rt, &mut late, b"\x88\0");
}

#[test]
fn browsers_are_reported(rt: HostRuntime) {
    let alloc = rt.alloc();
    let listener = TcpListener::bind(&rt, (Ipv4Addr::new(127, 0, 0, 1), 0u16)).expect(
        &rt,
        "a listener",
    );
    let port = listener.local_addr().expect(&rt, "an address").port();
    let post = Post::new(alloc);
    let (served, _) = join(
        &rt,
        || serve_web(&rt, alloc, listener, &post, RandomState::new(&rt)?),
        || {
            two_browsers(&rt, port, &post);
            post.end(&rt);
        },
    );
    served.expect(&rt, "a page that is served");
}

// One that reads nothing gets no more than fits; the others get all the same.
fn a_slow_one<
    R: Net<Listener = TcpListener, Stream = TcpStream> + AllocGlobal + Clock + Wait + Abort,
>(rt: &R, port: u16, post: &Post) {
    let slow = browse(rt, port);
    let mut quick = browse(rt, port);
    for _ in 0..5 {
        post.leave(rt, news_of(rt, "x", 1)).expect(rt, "memory");
        expect(rt, &mut quick, b"\x81\x01x\x81\x02{}");
        thread::sleep(rt, Duration::from_millis(60));
    }
    drop(slow);
}

#[test]
fn a_slow_one_hurts_nobody(rt: HostRuntime) {
    let alloc = rt.alloc();
    let listener = TcpListener::bind(&rt, (Ipv4Addr::new(127, 0, 0, 1), 0u16)).expect(
        &rt,
        "a listener",
    );
    let port = listener.local_addr().expect(&rt, "an address").port();
    let post = Post::new(alloc);
    let (served, _) = join(
        &rt,
        || serve_web(&rt, alloc, listener, &post, RandomState::new(&rt)?),
        || {
            a_slow_one(&rt, port, &post);
            post.end(&rt);
        },
    );
    served.expect(&rt, "a page that is served");
}
