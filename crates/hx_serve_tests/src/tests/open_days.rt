//! Open days: members come and go, strangers hold nothing, and the operator can always end the day.

use super::client::{ALPHA, BOUGHT, BRAVO, BUY, Client, HID, HIDDEN};
use super::days::{Fixture, log_in, send_order, standard};
use super::lines::Lines;
use super::notice_sinks::{Counting, outputs};
use super::vendor::{END, Vendor};
use super::{equal, holds};
use hx_members::Seed;
use hx_serve::{
    Acceptors, Addresses, Counters, Day, Hosting, OpenArgs, ServeArgs, Silent, Tally, Times,
    serve_day, today,
};
use log::Log;
use std::alloc::Global;
use std::net::{Net, TcpListener, TcpStream};
use std::process::Abort;
use std::sync::Wait;
use std::sync::atomic::{AtomicU64, Ordering};
use std::thread;
use std::thread::{Threads, join};
use std::time::{Clock, Duration};

/// The codes of the hours that are left of a day that begins open; the feed message of each is the code itself.
pub const CLOSING: &[u8] = b"1 0 51\n2 0 4d\n3 0 45\n4 0 43\n";

// A login of ALPHA, from the second reply on.
const ALPHA_AGAIN: &[u8; 46] = b"ALPHA PWALPHA                               2 ";

/// How an open day differs from others: how many slots its log has, how many seconds a login and the
/// end of the feed have, how many connections of one address there may be, and how many of the operator's pieces
/// of input are there from the start.
#[derive(Clone, Copy)]
pub struct Terms {
    pub capacity: u64,
    pub login_limit: u32,
    pub end: u32,
    pub connections_per_address: u32,
    pub let_go: u64,
}

/// A day of a hundred slots.
pub const USUAL: Terms = Terms {
    capacity: 100,
    login_limit: 15,
    end: 0,
    connections_per_address: 8,
    let_go: 0,
};

/// An open day with one session slot: its vendor, its ports for sessions and for requests, its arguments, the addresses
/// at which it listens and sends, the number of notices of each kind, the tally of its acceptor, and how many of the
/// operator's pieces of input are there.
#[derive(Drop)]
pub struct Stage {
    pub vendor: Vendor,
    pub ports: (u16, u16),
    pub args: ServeArgs,
    pub open: OpenArgs,
    pub addresses: Addresses,
    pub notice_sink: Counting,
    pub tally: Tally,
    pub counters: Counters,
    pub let_go: AtomicU64,
}

impl Stage {
    /// A day on free ports.
    pub fn new<R: AllocGlobal + Net<Listener = TcpListener, Stream = TcpStream> + Clock + Abort>(
        rt: &R,
        terms: Terms,
    ) -> Stage {
        let Fixture {
            vendor,
            ports,
            args,
        } = Fixture::new(rt, 1, terms.capacity);
        let open = OpenArgs {
            login_limit: terms.login_limit,
            end: terms.end,
            connections_per_address: terms.connections_per_address,
        };
        Stage {
            vendor,
            ports,
            args,
            open,
            addresses: args.addresses(rt.alloc()).expect(rt, "memory"),
            notice_sink: Counting::new(),
            tally: Tally::new(),
            counters: Counters::new(),
            let_go: AtomicU64::new(terms.let_go),
        }
    }
}

/// What an open day leaves and writes, where the operator's pieces of input come as the client lets
/// them go.
pub fn serve_open<
    'x,
    R: Net<Listener = TcpListener, Stream = TcpStream>
        + Threads
        + Wait
        + Clock
        + Log
        + Abort
        + Sync,
>(rt: &'x R, alloc: Global, stage: &'x Stage, pieces: &'x [&'x [u8]]) -> (Day, Vec<u8>) {
    let setup = standard(rt, alloc);
    let last = AtomicU64::new(0);
    let times = Times::of_day(today(rt), &last);
    let hosting = Hosting {
        setup: &setup,
        is_standard: false,
        args: &stage.args,
        addresses: &stage.addresses,
        gate: &Silent,
        notice_sink: &stage.notice_sink,
        open: Some(stage.open),
        times,
        tally: &stage.tally,
        counters: &stage.counters,
        copies: &[],
    };
    let acceptors = Acceptors::open(rt, &stage.addresses).expect(rt, "doors");
    let input = Lines::new(rt, pieces, &stage.let_go);
    let mut output = Vec::new(alloc);
    let served = serve_day(
        rt,
        alloc,
        &hosting,
        acceptors,
        Seed::Fixed,
        input,
        &mut output,
    );
    (served.expect(rt, "a day"), output)
}

/// Waits until this number of notices was posted.
pub fn await_output<R: Clock + Abort>(rt: &R, count: &AtomicU64, wanted: u64) {
    for _ in 0..10_000 {
        if outputs(count) >= wanted {
            return;
        }
        thread::sleep(rt, Duration::from_millis(1));
    }
    panic!(rt; "it was not told")
}

/// A member logs in, and out again.
pub fn come_and_go<R: Net<Listener = TcpListener, Stream = TcpStream> + Clock + Abort>(
    rt: &R,
    alloc: Global,
    port: u16,
    login: &[u8; 46],
) {
    let mut client = Client::connect(rt, port);
    client.send(rt, b'L', login);
    client.expect_kind(rt, alloc, b'A');
    client.send(rt, b'O', b"");
    client.expect_no_reply(rt, alloc);
}

/// Whether the payload of a reply begins with this one, whatever its time.
pub fn begins_as(payload: &[u8], reply: &[u8]) -> bool {
    payload.len() == 66 && payload[9..].starts_with(reply)
}

/// A member sends an order that is not displayed, and gets the reply that it was accepted.
pub fn send_hidden<R: Abort>(rt: &R, alloc: Global, client: &mut Client) {
    client.send(rt, b'U', HIDDEN);
    let reply = client.reply(rt, alloc);
    holds(rt, begins_as(&reply.payload, &HID[..14]));
}

/// A member comes again, and the next reply is the one that the member expects.
pub fn come_again<R: Net<Listener = TcpListener, Stream = TcpStream> + Clock + Abort>(
    rt: &R,
    alloc: Global,
    port: u16,
    login: &[u8; 46],
    welcome: &[u8; 30],
) -> Client {
    let mut client = Client::connect(rt, port);
    client.send(rt, b'L', login);
    let answer = client.receive(rt, alloc).expect(rt, "an answer");
    equal(rt, answer.kind, b'A');
    equal(rt, answer.payload.as_slice(), welcome.as_slice());
    client
}

// A member hears how both of the member's orders end, and the end of the session.
fn hear_both_ends<R: Abort>(rt: &R, alloc: Global, client: &mut Client) {
    let mut ends = 0u64;
    for _ in 0..10 {
        match client.receive_other(rt, alloc) {
            Some(reply) if reply.kind == b'S' && reply.payload.first() == Some(&b'C') => {
                ends = ends.saturating_add(1);
            }
            Some(reply) if reply.kind == b'Z' => break,
            _ => {}
        }
    }
    equal(rt, ends, 2);
}

// ALPHA enters an order and leaves; BRAVO comes; ALPHA comes again, and asks for the second reply, which is that of the
// second order.
fn members<R: Net<Listener = TcpListener, Stream = TcpStream> + Clock + Abort>(
    rt: &R,
    alloc: Global,
    port: u16,
) -> Client {
    let mut client = log_in(rt, alloc, port, ALPHA);
    send_order(rt, alloc, &mut client, BUY, BOUGHT);
    client.send(rt, b'O', b"");
    client.expect_no_reply(rt, alloc);
    come_and_go(rt, alloc, port, BRAVO);
    let welcome = b"HX00000001                   2";
    let mut client = come_again(rt, alloc, port, ALPHA_AGAIN, welcome);
    send_hidden(rt, alloc, &mut client);
    client
}

// One session slot: three who say nothing and one who says something else hold no member up.
fn members_and_strangers<R: Net<Listener = TcpListener, Stream = TcpStream> + Clock + Abort>(
    rt: &R,
    alloc: Global,
    stage: &Stage,
) {
    let port = stage.ports.0;
    let mut silent = [
        Client::connect(rt, port),
        Client::connect(rt, port),
        Client::connect(rt, port),
    ];
    let mut strange = Client::connect(rt, port);
    strange.send_bytes(rt, b"GET / HTTP/1.1\r\n");
    strange.expect_no_packet(rt, alloc);
    let mut client = members(rt, alloc, port);
    for client in silent.iter_mut() {
        client.expect_no_packet(rt, alloc);
    }
    await_output(rt, &stage.notice_sink.late, 3);
    stage.let_go.store(1, Ordering::SeqCst);
    hear_both_ends(rt, alloc, &mut client);
}

#[test]
fn strangers_hold_nothing(rt: HostRuntime) {
    let alloc = rt.alloc();
    let terms = Terms {
        login_limit: 1,
        ..USUAL
    };
    let stage = Stage::new(&rt, terms);
    let (served, _) = join(
        &rt,
        || serve_open(&rt, alloc, &stage, &[CLOSING]),
        || members_and_strangers(&rt, alloc, &stage),
    );
    let (day, output) = served;
    holds(&rt, day.fault.is_none());
    // Two orders and four codes; the feed has the displayed order, its end, and the codes.
    equal(&rt, (day.history.len(), day.feed), (6, 6));
    equal(&rt, output.as_slice(), b"events 6 feed 6\n".as_slice());
    let notice_sink = &stage.notice_sink;
    equal(&rt, outputs(&notice_sink.opened), 3);
    equal(&rt, outputs(&notice_sink.late), 3);
    equal(&rt, outputs(&notice_sink.strange), 1);
    equal(
        &rt,
        (outputs(&notice_sink.ended), outputs(&notice_sink.faulted)),
        (3, 0),
    );
}

// A connection that says nothing for a second is closed as soon as the day is over.
fn say_nothing<R: Net<Listener = TcpListener, Stream = TcpStream> + Clock + Abort>(
    rt: &R,
    alloc: Global,
    stage: &Stage,
) {
    let mut silent = Client::connect(rt, stage.ports.0);
    thread::sleep(rt, Duration::from_secs(1));
    stage.let_go.store(1, Ordering::SeqCst);
    silent.expect_no_packet(rt, alloc);
}

// Connections that say nothing are closed at once when the day is over.
#[test]
fn the_day_ends_beside_silent_connections(rt: HostRuntime) {
    let alloc = rt.alloc();
    let terms = Terms {
        login_limit: 3600,
        ..USUAL
    };
    let stage = Stage::new(&rt, terms);
    join(
        &rt,
        || serve_open(&rt, alloc, &stage, &[CLOSING]),
        || say_nothing(&rt, alloc, &stage),
    );
    let notice_sink = &stage.notice_sink;
    equal(
        &rt,
        (outputs(&notice_sink.over), outputs(&notice_sink.late)),
        (1, 0),
    );
}

// A line that is none, one with a time of another day and one that is too long are reported, and the next ones are
// read. If the input ends before `C`, the remaining codes are sent.
#[test]
fn the_operator_can_always_end_the_day(rt: HostRuntime) {
    let terms = Terms { let_go: 9, ..USUAL };
    let stage = Stage::new(&rt, terms);
    let long = [b'5'; 3000];
    let pieces: [&[u8]; 3] = [
        b"1 0 zz\n2 0 51\n86400000000000 0 4b\n",
        &long,
        b"\n3 0 4d\n",
    ];
    let (day, _) = serve_open(&rt, rt.alloc(), &stage, &pieces);
    holds(&rt, day.fault.is_none());
    let notice_sink = &stage.notice_sink;
    equal(&rt, outputs(&notice_sink.bad), 2);
    equal(&rt, outputs(&notice_sink.untimely), 1);
    equal(&rt, outputs(&notice_sink.closings), 1);
    // `Q`, `M`, and the codes at the end: `O`, `S`, `Q` and `M` are past, `E` and `C` are published.
    equal(&rt, (day.history.len(), day.feed), (8, 4));
}

// A member enters an order, and the next reply is that it was accepted.
fn enter<R: Abort>(rt: &R, alloc: Global, client: &mut Client, order: &[u8; 49]) {
    client.send(rt, b'U', order);
    let reply = client.reply(rt, alloc);
    holds(rt, reply.payload.first() == Some(&b'A'));
}

// The displayed order under another token: T and this digit.
fn order_of(digit: u8) -> [u8; 49] {
    let mut order = *BUY;
    order[2] = digit;
    order
}

// A member fills the feed as far as a member may; what is reserved for the codes of the hours is enough for the end of
// all the member's orders.
fn fill<R: Net<Listener = TcpListener, Stream = TcpStream> + Clock + Abort>(
    rt: &R,
    alloc: Global,
    stage: &Stage,
) {
    let mut client = log_in(rt, alloc, stage.ports.0, ALPHA);
    for digit in *b"01234" {
        enter(rt, alloc, &mut client, &order_of(digit));
    }
    enter(rt, alloc, &mut client, HIDDEN);
    client.send(rt, b'U', &order_of(b'5'));
    client.expect_no_reply(rt, alloc);
    stage.let_go.store(1, Ordering::SeqCst);
}

// Of 30 slots 25 are reserved: half, eight, and one for each of two stocks.
#[test]
fn the_hours_always_have_room(rt: HostRuntime) {
    let alloc = rt.alloc();
    let terms = Terms {
        capacity: 30,
        ..USUAL
    };
    let stage = Stage::new(&rt, terms);
    let (served, _) = join(
        &rt,
        || serve_open(&rt, alloc, &stage, &[CLOSING]),
        || fill(&rt, alloc, &stage),
    );
    let (day, _) = served;
    let notice_sink = &stage.notice_sink;
    equal(
        &rt,
        (outputs(&notice_sink.faulted), outputs(&notice_sink.bad)),
        (1, 0),
    );
    // Five displayed orders and their ends, and four codes; besides, an order that is not displayed.
    equal(&rt, (day.history.len(), day.feed), (10, 14));
}

// The end of the feed is sent again, and meanwhile a request is answered.
fn hear_the_end<R: Abort>(rt: &R, alloc: Global, vendor: &Vendor, requests: u16) {
    equal(rt, vendor.hear_all(rt, alloc), 4);
    vendor.ask(rt, requests, 4);
    vendor.expect_packet(rt, alloc, 4, 1);
    vendor.expect_packet(rt, alloc, 5, END);
}

#[test]
fn the_end_of_the_feed_can_be_repaired(rt: HostRuntime) {
    let alloc = rt.alloc();
    let terms = Terms {
        end: 2,
        let_go: 1,
        ..USUAL
    };
    let stage = Stage::new(&rt, terms);
    join(
        &rt,
        || serve_open(&rt, alloc, &stage, &[CLOSING]),
        || hear_the_end(&rt, alloc, &stage.vendor, stage.ports.1),
    );
}
