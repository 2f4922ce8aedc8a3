//! Acceptors of open days: who is turned away, who waits, and at which addresses a day listens and sends.

use super::client::{ALPHA, Client};
use super::days::standard;
use super::notice_sinks::outputs;
use super::open_days::{CLOSING, Stage, Terms, USUAL, await_output, come_and_go, serve_open};
use super::vendor::Vendor;
use super::{equal, holds};
use hx_members::Seed;
use hx_serve::{Beginning, Hosting, Left, ServeError, Silent, Times, serve_durable, today};
use log::Log;
use std::alloc::Global;
use std::io::{Read, Write};
use std::net::{Ipv4Addr, Ipv6Addr, Net, SocketAddr, TcpListener, TcpStream, UdpSocket};
use std::process::Abort;
use std::rt::Files;
use std::sync::Wait;
use std::sync::atomic::{AtomicU64, Ordering};
use std::thread;
use std::thread::{Threads, join};
use std::time::{Clock, Duration, Instant};

// A login of ALPHA with another member's password.
const STRANGER: &[u8; 46] = b"ALPHA PWBRAVO                               1 ";

// Two connections are all that one address has. A third one is closed at once; when the two are gone, a member logs in.
fn one_too_many<R: Net<Listener = TcpListener, Stream = TcpStream> + Clock + Abort>(
    rt: &R,
    alloc: Global,
    stage: &Stage,
) {
    let port = stage.ports.0;
    let silent = [Client::connect(rt, port), Client::connect(rt, port)];
    Client::connect(rt, port).expect_no_packet(rt, alloc);
    await_output(rt, &stage.notice_sink.too_many, 1);
    drop(silent);
    await_output(rt, &stage.notice_sink.over, 2);
    come_and_go(rt, alloc, port, ALPHA);
    come_and_go(rt, alloc, port, ALPHA);
    stage.let_go.store(1, Ordering::SeqCst);
}

#[test]
fn one_address_has_so_many_connections(rt: HostRuntime) {
    let alloc = rt.alloc();
    let terms = Terms {
        connections_per_address: 2,
        ..USUAL
    };
    let stage = Stage::new(&rt, terms);
    join(
        &rt,
        || serve_open(&rt, alloc, &stage, &[CLOSING]),
        || one_too_many(&rt, alloc, &stage),
    );
    let tally = &stage.tally;
    equal(&rt, outputs(&tally.taken), 5);
    equal(
        &rt,
        (outputs(&tally.accepted), outputs(&tally.refused)),
        (2, 0),
    );
    equal(&rt, outputs(tally.closed(Left::TooMany)), 1);
    equal(&rt, outputs(tally.closed(Left::Gone)), 2);
}

// How long it is since then.
fn since<R: Clock + Abort>(rt: &R, begun: Instant) -> Duration {
    begun.elapsed(rt).expect(rt, "the time")
}

// A login with a wrong password is rejected at once; the next login of that address is looked up after a second, and
// the one after it at once, since it was good.
fn mistaken<R: Net<Listener = TcpListener, Stream = TcpStream> + Clock + Abort>(
    rt: &R,
    alloc: Global,
    stage: &Stage,
) {
    let port = stage.ports.0;
    let begun = Instant::now(rt).expect(rt, "the time");
    let mut client = Client::connect(rt, port);
    client.send(rt, b'L', STRANGER);
    client.expect_kind(rt, alloc, b'J');
    holds(rt, since(rt, begun) < Duration::from_millis(900));
    come_and_go(rt, alloc, port, ALPHA);
    let waited = since(rt, begun);
    holds(rt, waited >= Duration::from_secs(1));
    come_and_go(rt, alloc, port, ALPHA);
    let more = since(rt, begun).saturating_sub(waited);
    holds(rt, more < Duration::from_millis(900));
    stage.let_go.store(1, Ordering::SeqCst);
}

#[test]
fn a_failed_login_makes_the_next_one_wait(rt: HostRuntime) {
    let alloc = rt.alloc();
    let stage = Stage::new(&rt, USUAL);
    join(
        &rt,
        || serve_open(&rt, alloc, &stage, &[CLOSING]),
        || mistaken(&rt, alloc, &stage),
    );
    let tally = &stage.tally;
    equal(
        &rt,
        (outputs(&tally.accepted), outputs(&tally.refused)),
        (2, 1),
    );
}

// An open day whose feed goes to this address first, and to that one last.
fn stage_between<R: AllocGlobal + Net<Listener = TcpListener, Stream = TcpStream> + Clock + Abort>(
    rt: &R,
    first: SocketAddr,
    last: SocketAddr,
) -> Stage {
    let terms = Terms { let_go: 1, ..USUAL };
    let mut stage = Stage::new(rt, terms);
    stage.addresses.feeds.insert(0, first).expect(rt, "memory");
    stage.addresses.feeds.push(last).expect(rt, "memory");
    stage
}

// Two vendors get the same feed, and a third address gets none, which is reported once: the day ends as one with a
// datagram that could not be sent.
#[test]
fn each_address_gets_the_feed(rt: HostRuntime) {
    let alloc = rt.alloc();
    let second = Vendor::listen(&rt);
    let nobody = SocketAddr::from((Ipv4Addr::new(255, 255, 255, 255), 9));
    let there = SocketAddr::from((Ipv4Addr::new(127, 0, 0, 1), second.port(&rt)));
    let stage = stage_between(&rt, nobody, there);
    let (day, _) = serve_open(&rt, alloc, &stage, &[CLOSING]);
    equal(&rt, day.fault, Some(ServeError::Network));
    equal(&rt, stage.vendor.hear_all(&rt, alloc), 4);
    equal(&rt, second.hear_all(&rt, alloc), 4);
    equal(&rt, outputs(&stage.notice_sink.unsent), 1);
}

// Whether this machine has an IPv6 loopback, and a port of it that is free.
fn free_ipv6_port<R: Net<Listener = TcpListener, Stream = TcpStream>>(rt: &R) -> Option<u16> {
    let listener = TcpListener::bind(rt, (Ipv6Addr::LOCALHOST, 0)).ok()?;
    Some(listener.local_addr().ok()?.port())
}

// The kind of the answer to a login by this stream.
fn answer_over<R: Abort>(rt: &R, stream: &mut TcpStream) -> u8 {
    let mut answer = [0; 33];
    stream
        .write_all(b"\0\x2fL")
        .expect(rt, "a line that is open");
    stream.write_all(ALPHA).expect(rt, "a line that is open");
    stream.read_exact(&mut answer).expect(rt, "an answer");
    answer[2]
}

// A login at this address, and the kind of its answer.
fn log_in_at<R: Net<Listener = TcpListener, Stream = TcpStream> + Clock + Abort>(
    rt: &R,
    at: SocketAddr,
) -> u8 {
    for _ in 0..1000 {
        if let Ok(mut stream) = TcpStream::connect(rt, at) {
            return answer_over(rt, &mut stream);
        }
        thread::sleep(rt, Duration::from_millis(5));
    }
    panic!(rt; "nobody listens")
}

// A vendor who listens by IPv6.
fn ipv6_vendor<R: Net<Listener = TcpListener, Stream = TcpStream> + Abort>(rt: &R) -> UdpSocket {
    let socket = UdpSocket::bind(rt, (Ipv6Addr::LOCALHOST, 0)).expect(rt, "a socket");
    let limit = Some(Duration::from_secs(10));
    socket.set_read_timeout(limit).expect(rt, "a limit");
    socket
}

// An open day at this address, whose feed goes to this vendor too.
fn stage_at<R: AllocGlobal + Net<Listener = TcpListener, Stream = TcpStream> + Clock + Abort>(
    rt: &R,
    at: SocketAddr,
    vendor: &UdpSocket,
) -> Stage {
    let mut stage = Stage::new(rt, USUAL);
    let there = vendor.local_addr().expect(rt, "an address");
    stage.addresses.listen = at;
    stage.addresses.feeds.push(there).expect(rt, "memory");
    stage
}

// A packet of the session comes.
fn hears_the_session<R: Abort>(rt: &R, vendor: &UdpSocket) -> bool {
    let mut buffer = [0; 1500];
    let (count, _) = vendor.recv_from(&mut buffer).expect(rt, "a packet");
    count >= 20 && buffer[..10] == b"HX00000001"[..]
}

// A member logs in at this address, and then the day ends.
fn is_welcome_at<R: Net<Listener = TcpListener, Stream = TcpStream> + Clock + Abort>(
    rt: &R,
    at: SocketAddr,
    stage: &Stage,
) {
    equal(rt, log_in_at(rt, at), b'A');
    stage.let_go.store(1, Ordering::SeqCst);
}

// Members come by IPv6, and a vendor of each family gets the feed. If the machine has no IPv6, nothing is tested.
#[test]
fn a_day_at_addresses_of_ipv6(rt: HostRuntime) {
    let alloc = rt.alloc();
    let Some(port) = free_ipv6_port(&rt) else {
        return;
    };
    let at = SocketAddr::from((Ipv6Addr::LOCALHOST, port));
    let other = ipv6_vendor(&rt);
    let stage = stage_at(&rt, at, &other);
    join(
        &rt,
        || serve_open(&rt, alloc, &stage, &[CLOSING]),
        || is_welcome_at(&rt, at, &stage),
    );
    equal(&rt, stage.vendor.hear_all(&rt, alloc), 4);
    holds(&rt, hears_the_session(&rt, &other));
}

// An open day, which reports this number of times what has to stand before it.
fn warns<
    R: AllocGlobal
        + Files
        + Net<Listener = TcpListener, Stream = TcpStream>
        + Threads
        + Wait
        + Clock
        + Log
        + Abort
        + Sync,
>(rt: &R, stage: &Stage, warnings: u64) {
    let alloc = rt.alloc();
    let setup = standard(rt, alloc);
    let last = AtomicU64::new(0);
    let times = Times::of_day(today(rt), &last);
    let hosting = Hosting {
        setup: &setup,
        is_standard: false,
        args: &stage.args,
        addresses: &stage.addresses,
        gate: &Silent,
        notice_sink: &stage.notice_sink,
        open: Some(stage.open),
        times,
        tally: &stage.tally,
        counters: &stage.counters,
        copies: &[],
    };
    let beginning = Beginning::without_journal(alloc, Seed::Fixed);
    let mut output = Vec::new(alloc);
    let served = serve_durable(rt, alloc, &hosting, beginning, CLOSING, &mut output, None);
    equal(rt, served, Ok(()));
    equal(rt, outputs(&stage.notice_sink.warnings), warnings);
}

// If one of the addresses is not loopback, what has to stand before the day is reported to the operator.
#[test]
fn a_day_that_others_reach_is_announced(rt: HostRuntime) {
    warns(&rt, &Stage::new(&rt, USUAL), 0);
    let mut stage = Stage::new(&rt, USUAL);
    let port = stage.ports.1;
    stage.addresses.requests = SocketAddr::from((Ipv4Addr::UNSPECIFIED, port));
    warns(&rt, &stage, 1);
}
