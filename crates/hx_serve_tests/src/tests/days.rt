//! Days that end well: one session, and two with both endings.

use super::client::{ALPHA, BOUGHT, BRAVO, BUY, Client, HID, HIDDEN, WELCOME, free_ports};
use super::vendor::{ADDED, END, Vendor};
use super::{equal, holds};
use hx_members::{Seed, Setup};
use hx_serve::{ServeArgs, serve};
use log::Log;
use std::alloc::Global;
use std::hash::RandomState;
use std::net::{Net, TcpListener, TcpStream};
use std::process::Abort;
use std::sync::Wait;
use std::thread::{Threads, join};
use std::time::Clock;

/// The arguments of a day with `sessions` sessions.
pub fn args_of<R: Abort>(
    rt: &R,
    ports: (u16, u16),
    feed: u16,
    sessions: u16,
    capacity: u64,
) -> ServeArgs {
    ServeArgs::of(ports.0, feed, ports.1, sessions, capacity, 1_000_000).expect(rt, "arguments")
}

/// The setup of most days.
pub fn standard<R: Abort>(rt: &R, alloc: Global) -> Setup {
    Setup::standard(alloc).expect(rt, "memory")
}

/// A day's vendor, its ports for sessions and for requests, and its arguments.
#[derive(Drop)]
pub struct Fixture {
    pub vendor: Vendor,
    pub ports: (u16, u16),
    pub args: ServeArgs,
}

impl Fixture {
    /// A day with `sessions` sessions on free ports.
    pub fn new<R: Net<Listener = TcpListener, Stream = TcpStream> + Abort>(
        rt: &R,
        sessions: u16,
        capacity: u64,
    ) -> Fixture {
        let vendor = Vendor::listen(rt);
        let ports = free_ports(rt);
        let args = args_of(rt, ports, vendor.port(rt), sessions, capacity);
        Fixture {
            vendor,
            ports,
            args,
        }
    }
}

/// Logs in, and is welcome.
pub fn log_in<R: Net<Listener = TcpListener, Stream = TcpStream> + Clock + Abort>(
    rt: &R,
    alloc: Global,
    port: u16,
    login: &[u8; 46],
) -> Client {
    let mut client = Client::connect(rt, port);
    client.send(rt, b'L', login);
    let answer = client.receive(rt, alloc).expect(rt, "an answer");
    equal(rt, answer.kind, b'A');
    equal(rt, answer.payload.as_slice(), WELCOME.as_slice());
    client
}

/// Both members have connected, and log in then.
pub fn log_in_both<R: Net<Listener = TcpListener, Stream = TcpStream> + Clock + Abort>(
    rt: &R,
    alloc: Global,
    port: u16,
) -> (Client, Client) {
    let mut first = Client::connect(rt, port);
    let mut second = Client::connect(rt, port);
    first.send(rt, b'L', ALPHA);
    second.send(rt, b'L', BRAVO);
    first.expect_kind(rt, alloc, b'A');
    second.expect_kind(rt, alloc, b'A');
    (first, second)
}

// Whether a payload is this reply, whatever its time.
fn is_reply(payload: &[u8], reply: &[u8; 57]) -> bool {
    payload.len() == 66 && payload[0] == b'A' && payload[9..] == reply[..]
}

/// Sends an order, and gets this reply, whatever its time.
pub fn send_order<R: Abort>(
    rt: &R,
    alloc: Global,
    client: &mut Client,
    order: &[u8; 49],
    reply: &[u8; 57],
) {
    client.send(rt, b'U', order);
    let answer = client.reply(rt, alloc);
    equal(rt, answer.kind, b'S');
    holds(rt, is_reply(&answer.payload, reply));
}

// Whether these are the blocks of the one message of the order that is added.
fn is_added(blocks: &[u8]) -> bool {
    blocks.len() == 38 && blocks[..7] == b"\0\x24A\0\x01\0\0"[..] && blocks[13..] == ADDED[..]
}

/// The feed is one message, an order that is added, once, and then the session's end, once.
pub fn expect_added<R: Abort>(rt: &R, alloc: Global, vendor: &Vendor) {
    let packet = vendor.receive_other(rt, alloc);
    equal(rt, (packet.sequence, packet.count), (1, 1));
    holds(rt, is_added(&packet.blocks));
}

/// The session of the feed ends.
pub fn expect_end<R: Abort>(rt: &R, alloc: Global, vendor: &Vendor, next: u64) {
    vendor.expect_packet(rt, alloc, next, END);
}

// Serves a day of the standard setup, which ends well and writes this last.
fn serve_well<
    R: Net<Listener = TcpListener, Stream = TcpStream>
        + Threads
        + Wait
        + Clock
        + Log
        + Abort
        + Sync,
>(rt: &R, alloc: Global, args: &ServeArgs, seed: Seed, lines: &[u8], last: &[u8]) {
    let setup = standard(rt, alloc);
    let mut output = Vec::new(alloc);
    let served = serve(rt, alloc, &setup, args, seed, lines, &mut output);
    equal(rt, served, Ok(()));
    equal(rt, output.as_slice(), last);
}

fn one_member<R: Net<Listener = TcpListener, Stream = TcpStream> + Clock + Abort>(
    rt: &R,
    alloc: Global,
    fixture: &Fixture,
) {
    let mut client = log_in(rt, alloc, fixture.ports.0, ALPHA);
    send_order(rt, alloc, &mut client, BUY, BOUGHT);
    expect_added(rt, alloc, &fixture.vendor);
    client.send(rt, b'O', b"");
    client.expect_no_reply(rt, alloc);
    expect_end(rt, alloc, &fixture.vendor, 2);
}

#[test]
fn one_session(rt: HostRuntime) {
    let alloc = rt.alloc();
    let fixture = Fixture::new(&rt, 1, 100);
    let last = b"events 1 feed 1\n";
    join(
        &rt,
        || serve_well(&rt, alloc, &fixture.args, Seed::Fixed, b"", last),
        || one_member(&rt, alloc, &fixture),
    );
    // The end of the feed is published once.
    holds(&rt, fixture.vendor.hears_no_more(&rt));
}

// A connection that never logs in holds up no day of which code `C` is past: it is closed, and the day ends.
#[test]
fn a_silent_connection_keeps_no_day(rt: HostRuntime) {
    let alloc = rt.alloc();
    let fixture = Fixture::new(&rt, 1, 100);
    let (lines, last) = (b"1 0 51\n2 0 4d\n3 0 45\n4 0 43\n", b"events 4 feed 4\n");
    join(
        &rt,
        || serve_well(&rt, alloc, &fixture.args, Seed::Fixed, lines, last),
        || Client::connect(&rt, fixture.ports.0).expect_no_packet(&rt, alloc),
    );
    equal(&rt, fixture.vendor.hear_all(&rt, alloc), 4);
}

// One member logs out, the other hangs up; both see heartbeats, as the vendor does.
fn two_members<R: Net<Listener = TcpListener, Stream = TcpStream> + Clock + Abort>(
    rt: &R,
    alloc: Global,
    fixture: &Fixture,
) {
    let vendor = &fixture.vendor;
    let (mut first, mut second) = log_in_both(rt, alloc, fixture.ports.0);
    send_order(rt, alloc, &mut second, HIDDEN, HID);
    send_order(rt, alloc, &mut first, BUY, BOUGHT);
    expect_added(rt, alloc, vendor);
    first.expect_kind(rt, alloc, b'H');
    second.expect_kind(rt, alloc, b'H');
    let packet = vendor.receive(rt, alloc);
    equal(rt, (packet.sequence, packet.count), (2, 0));
    first.send(rt, b'O', b"");
    first.expect_no_reply(rt, alloc);
    drop(second);
    expect_end(rt, alloc, vendor, 2);
}

#[test]
fn two_sessions_with_both_endings(rt: HostRuntime) {
    let alloc = rt.alloc();
    let fixture = Fixture::new(&rt, 2, 100);
    let seed = Seed::Drawn(RandomState::new(&rt).expect(&rt, "a seed"));
    let (lines, last) = (b"5 0 4b\n", b"events 3 feed 1\n");
    join(
        &rt,
        || serve_well(&rt, alloc, &fixture.args, seed, lines, last),
        || two_members(&rt, alloc, &fixture),
    );
}
