//! A submit that is held holds nobody else: meanwhile the feed goes out and requests are answered. The history is a
//! tape, whose replay gives the feed and the replies.

use super::client::{BOUGHT, BUY, HIDDEN};
use super::days::{Fixture, expect_added, expect_end, log_in_both, send_order, standard};
use super::notice_sinks::Counting;
use super::{equal, holds};
use hx_members::Seed;
use hx_replay::replay;
use hx_serve::{
    Acceptors, Counters, Day, Hosting, ServeArgs, Tally, Times, serve_day, write_history,
};
use hx_sessions::Gate;
use hx_units::MemberNo;
use log::Log;
use std::alloc::Global;
use std::net::{Net, TcpListener, TcpStream};
use std::process::Abort;
use std::sync::Wait;
use std::sync::atomic::{AtomicBool, Ordering};
use std::thread;
use std::thread::{Threads, join};
use std::time::{Clock, Duration};

// Holds the second submit of the first member until the test releases it.
#[derive(Drop)]
struct Holding {
    held: AtomicBool,
    let_go: AtomicBool,
}

impl Gate for Holding {
    fn before(&self, member: MemberNo, number: u64) {
        if member.get() != 1 || number != 2 {
            return;
        }
        self.held.store(true, Ordering::SeqCst);
        for _ in 0..2_000_000_000u64 {
            if self.let_go.load(Ordering::SeqCst) {
                return;
            }
            thread::yield_now();
        }
    }

    fn after(&self, _member: MemberNo, _number: u64) {}
}

// The second member's reply to a displayed order: an Accepted message with reference 2.
const BRAVO_BOUGHT: &[u8; 57] = b"T1            B\0\0\0\x64ABCD    \
     \0\x01\x86\xa0\0\x01\x86\x9fFMB2Y\0\0\0\0\0\0\0\x02ON\0\0\0\0NL ";

fn wait_until_held<R: Clock + Abort>(rt: &R, gate: &Holding) {
    for _ in 0..5000 {
        if gate.held.load(Ordering::SeqCst) {
            return;
        }
        thread::sleep(rt, Duration::from_millis(1));
    }
    panic!(rt; "nothing is held")
}

// While the first member's second order is held, a message is asked for again, and the second member's order goes out.
fn while_held<R: Net<Listener = TcpListener, Stream = TcpStream> + Clock + Abort>(
    rt: &R,
    alloc: Global,
    fixture: &Fixture,
    gate: &Holding,
) {
    let vendor = &fixture.vendor;
    let (mut first, mut second) = log_in_both(rt, alloc, fixture.ports.0);
    send_order(rt, alloc, &mut first, BUY, BOUGHT);
    expect_added(rt, alloc, vendor);
    first.send(rt, b'U', HIDDEN);
    wait_until_held(rt, gate);
    vendor.ask(rt, fixture.ports.1, 1);
    expect_added(rt, alloc, vendor);
    send_order(rt, alloc, &mut second, BUY, BRAVO_BOUGHT);
    vendor.expect_packet(rt, alloc, 2, 1);
    gate.let_go.store(true, Ordering::SeqCst);
    equal(rt, first.reply(rt, alloc).kind, b'S');
    first.send(rt, b'O', b"");
    second.send(rt, b'O', b"");
    expect_end(rt, alloc, vendor, 3);
}

// A day whose submits go through the gate: what it leaves and writes.
fn serve_held<
    R: Net<Listener = TcpListener, Stream = TcpStream>
        + Threads
        + Wait
        + Clock
        + Log
        + Abort
        + Sync,
>(rt: &R, alloc: Global, args: &ServeArgs, gate: &Holding) -> (Day, Vec<u8>) {
    let setup = standard(rt, alloc);
    let notice_sink = Counting::new();
    let times = Times::of_machine();
    let addresses = args.addresses(alloc).expect(rt, "memory");
    let hosting = Hosting {
        setup: &setup,
        is_standard: false,
        args,
        addresses: &addresses,
        gate,
        notice_sink: &notice_sink,
        open: None,
        times,
        tally: &Tally::new(),
        counters: &Counters::new(),
        copies: &[],
    };
    let acceptors = Acceptors::open(rt, &addresses).expect(rt, "doors");
    let (input, mut output) = (&b""[..], Vec::new(alloc));
    let served = serve_day(
        rt,
        alloc,
        &hosting,
        acceptors,
        Seed::Fixed,
        input,
        &mut output,
    );
    (served.expect(rt, "a day"), output)
}

// A replayed history has these numbers of events, messages of the feed and replies.
fn replays<R: Abort>(rt: &R, alloc: Global, day: &Day, wanted: (u64, u64, u64)) {
    let setup = standard(rt, alloc);
    let mut tape = Vec::new(alloc);
    holds(rt, write_history(alloc, &day.history, &mut tape).is_ok());
    let mut lines = Vec::new(alloc);
    let counts = replay(alloc, &setup, &mut tape.as_slice(), &mut lines).expect(rt, "a replay");
    equal(rt, (counts.events, counts.feed, counts.replies), wanted);
}

#[test]
fn a_held_submit_holds_nobody_else(rt: HostRuntime) {
    let alloc = rt.alloc();
    let fixture = Fixture::new(&rt, 2, 100);
    let gate = Holding {
        held: AtomicBool::new(false),
        let_go: AtomicBool::new(false),
    };
    let (served, _) = join(
        &rt,
        || serve_held(&rt, alloc, &fixture.args, &gate),
        || while_held(&rt, alloc, &fixture, &gate),
    );
    let (day, output) = served;
    holds(&rt, day.fault.is_none());
    equal(&rt, output.as_slice(), b"events 3 feed 2\n".as_slice());
    replays(&rt, alloc, &day, (3, 2, 3));
}
