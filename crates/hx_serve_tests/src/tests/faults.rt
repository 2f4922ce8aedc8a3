//! Faults: of the operator's lines, of a full feed, of a port in use, of a member who breaks the protocol.

use super::client::{ALPHA, BOUGHT, BUY, free_ports};
use super::days::{Fixture, args_of, expect_added, expect_end, log_in, send_order, standard};
use super::equal;
use hx_members::{Seed, Setup};
use hx_serve::{ServeArgs, ServeError, serve};
use hx_tape_lines::Kind;
use log::Log;
use std::alloc::Global;
use std::net::{Ipv4Addr, Net, TcpListener, TcpStream};
use std::process::Abort;
use std::sync::Wait;
use std::thread::{Threads, join};
use std::time::Clock;

// A line with the time of the first bad one.
fn bad(line: u64, kind: Kind) -> Result<(), ServeError> {
    Err(ServeError::Line { line, kind })
}

// A member enters an order and logs out, whatever the operator does.
fn trades<R: Net<Listener = TcpListener, Stream = TcpStream> + Clock + Abort>(
    rt: &R,
    alloc: Global,
    fixture: &Fixture,
) {
    let mut client = log_in(rt, alloc, fixture.ports.0, ALPHA);
    send_order(rt, alloc, &mut client, BUY, BOUGHT);
    expect_added(rt, alloc, &fixture.vendor);
    client.send(rt, b'O', b"");
    client.expect_no_reply(rt, alloc);
    expect_end(rt, alloc, &fixture.vendor, 2);
}

// Serves a day of this setup, which ends so and writes this last.
fn ends_so<
    R: Net<Listener = TcpListener, Stream = TcpStream>
        + Threads
        + Wait
        + Clock
        + Log
        + Abort
        + Sync,
>(
    rt: &R,
    alloc: Global,
    setup: &Setup,
    args: &ServeArgs,
    lines: &[u8],
    wanted: Result<(), ServeError>,
    last: &[u8],
) {
    let mut output = Vec::new(alloc);
    let served = serve(rt, alloc, setup, args, Seed::Fixed, lines, &mut output);
    equal(rt, served, wanted);
    equal(rt, output.as_slice(), last);
}

// A member is served whatever the operator's lines are; the answer to them comes in the end, after the last line.
fn answers<
    R: Net<Listener = TcpListener, Stream = TcpStream>
        + Threads
        + Wait
        + Clock
        + Log
        + Abort
        + Sync,
>(rt: &R, alloc: Global, lines: &[u8], wanted: Result<(), ServeError>, last: &[u8]) {
    let fixture = Fixture::new(rt, 1, 100);
    let setup = standard(rt, alloc);
    join(
        rt,
        || ends_so(rt, alloc, &setup, &fixture.args, lines, wanted, last),
        || trades(rt, alloc, &fixture),
    );
}

#[test]
fn bad_lines_end_the_operators_input_alone(rt: HostRuntime) {
    let lines: [(&[u8], Result<(), ServeError>, &[u8]); 5] = [
        (b"10 0 4b\n20 0 4b\n", Ok(()), b"events 3 feed 1\n"),
        (
            b"10 0 4b\n20 1 00\n30 0 4b\n",
            bad(2, Kind::Bad),
            b"events 2 feed 1\n",
        ),
        (
            b"10 0 4b\n20 0 zz\n",
            bad(2, Kind::Bad),
            b"events 2 feed 1\n",
        ),
        (
            b"86400000000000 0 4b\n",
            bad(1, Kind::Time),
            b"events 1 feed 1\n",
        ),
        (b"10 0 4b\n20 0 4b", bad(2, Kind::Bad), b"events 2 feed 1\n"),
    ];
    for (text, wanted, last) in lines {
        answers(&rt, rt.alloc(), text, wanted, last);
    }
}

const CLOSED: &[u8] = b"session HX00000001\n\
     start closed\n\
     stock ABCD 5120000000644e435a20502020314e000000004e\n\
     member 1 FMA1 ALPHA PWALPHA 1000\n";

// A member logs in, and breaks the protocol.
fn breaks_off<R: Net<Listener = TcpListener, Stream = TcpStream> + Clock + Abort>(
    rt: &R,
    alloc: Global,
    port: u16,
) {
    let mut client = log_in(rt, alloc, port, ALPHA);
    client.send_bytes(rt, b"\0\0\0\0");
    client.expect_no_reply(rt, alloc);
}

// A day with a log of this number of messages ends in this way beside a member who breaks the protocol.
fn starts_with_room<
    R: Net<Listener = TcpListener, Stream = TcpStream>
        + Threads
        + Wait
        + Clock
        + Log
        + Abort
        + Sync,
>(rt: &R, alloc: Global, capacity: u64, wanted: Result<(), ServeError>, last: &[u8]) {
    let fixture = Fixture::new(rt, 1, capacity);
    let setup = Setup::read(alloc, CLOSED).expect(rt, "a setup");
    let line = b"10 0 4f\n";
    join(
        rt,
        || ends_so(rt, alloc, &setup, &fixture.args, line, wanted, last),
        || breaks_off(rt, alloc, fixture.ports.0),
    );
}

// The start of messages gives two messages of the feed, for which a log of one has no room. A session's fault is no
// fault of the day.
#[test]
fn a_full_feed_and_a_broken_session(rt: HostRuntime) {
    let alloc = rt.alloc();
    let full = Err(ServeError::Full);
    starts_with_room(&rt, alloc, 1, full, b"events 0 feed 0\n");
    starts_with_room(&rt, alloc, 2, Ok(()), b"events 1 feed 2\n");
}

#[test]
fn a_port_in_use(rt: HostRuntime) {
    let alloc = rt.alloc();
    let any = (Ipv4Addr::new(127, 0, 0, 1), 0);
    let taken = TcpListener::bind(&rt, any).expect(&rt, "a listener");
    let port = taken.local_addr().expect(&rt, "an address").port();
    let args = args_of(&rt, (port, free_ports(&rt).1), 9, 1, 10);
    let setup = standard(&rt, alloc);
    ends_so(
        &rt,
        alloc,
        &setup,
        &args,
        b"",
        Err(ServeError::Network),
        b"",
    );
}
