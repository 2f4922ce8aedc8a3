//! Datagrams of strangers: those that keep coming, those that cannot be answered, and more than are answered.

use super::client::{Client, free_ports};
use super::days::{args_of, standard};
use super::notice_sinks::{Counting, outputs};
use super::{equal, holds};
use hx_members::Seed;
use hx_serve::{
    Acceptors, Counters, Datagrams, Day, Hosting, ServeArgs, Silent, Tally, Times, serve_day, today,
};
use hx_wake::Waker;
use log::Log;
use std::alloc::Global;
use std::io::ErrorKind;
use std::net::{Ipv4Addr, Net, SocketAddr, TcpListener, TcpStream};
use std::process::Abort;
use std::sync::Wait;
use std::sync::atomic::{AtomicU64, Ordering};
use std::thread::{Threads, join};
use std::time::{Clock, Duration};
use std::{io, thread};

// The feed goes here.
const FEED: u16 = 9;

// A request for message 1 of the session.
const REQUEST: &[u8; 20] = b"HX00000001\0\0\0\0\0\0\0\x01\0\x01";

// How many packets went to the feed, and how many answers went out.
#[derive(Drop)]
struct Sent {
    packets: AtomicU64,
    answers: AtomicU64,
}

// A socket on which there always is a request of the same source, whose answers go out or not.
#[derive(Drop)]
struct Flood<'a> {
    source: SocketAddr,
    answerable: bool,
    sent: &'a Sent,
}

impl<'a> Datagrams for Flood<'a> {
    fn send(&self, bytes: &[u8], to: SocketAddr) -> io::Result<usize> {
        if to.port() == FEED {
            self.sent.packets.fetch_add(1, Ordering::SeqCst);
            return Ok(bytes.len());
        }
        if !self.answerable {
            return Err(io::Error::from(ErrorKind::InvalidInput));
        }
        self.sent.answers.fetch_add(1, Ordering::SeqCst);
        Ok(bytes.len())
    }

    fn receive(&self, buffer: &mut [u8]) -> io::Result<(usize, SocketAddr)> {
        let count = REQUEST.len().min(buffer.len());
        buffer[..count].copy_from_slice(&REQUEST[..count]);
        Ok((count, self.source))
    }

    fn wait(&self, _waker: &Waker, _limit: Duration) -> bool {
        true
    }
}

// Whether a packet goes out soon: in ten seconds.
fn comes(rt: &impl Clock, packets: &AtomicU64) -> bool {
    for _ in 0..1_000 {
        if outputs(packets) > 0 {
            return true;
        }
        thread::sleep(rt, Duration::from_millis(10));
    }
    false
}

// A day beside such a socket, where two requests of a source are answered a second: what it leaves
// and writes.
fn serve_flood<
    R: Net<Listener = TcpListener, Stream = TcpStream>
        + Threads
        + Wait
        + Clock
        + Log
        + Abort
        + Sync,
>(
    rt: &R,
    alloc: Global,
    args: &ServeArgs,
    notice_sink: &Counting,
    flood: Flood<'_>,
) -> (Day, Vec<u8>) {
    let setup = standard(rt, alloc);
    let last = AtomicU64::new(0);
    let times = Times::of_day(today(rt), &last);
    let addresses = args.addresses(alloc).expect(rt, "memory");
    let hosting = Hosting {
        setup: &setup,
        is_standard: false,
        args,
        addresses: &addresses,
        gate: &Silent,
        notice_sink,
        open: None,
        times,
        tally: &Tally::new(),
        counters: &Counters::new(),
        copies: &[],
    };
    let at = (Ipv4Addr::new(127, 0, 0, 1), args.port);
    let acceptors = Acceptors {
        listener: TcpListener::bind(rt, at).expect(rt, "a listener"),
        socket: flood,
    };
    let mut output = Vec::new(alloc);
    let line = &b"1 0 51\n"[..];
    let served = serve_day(
        rt,
        alloc,
        &hosting,
        acceptors,
        Seed::Fixed,
        line,
        &mut output,
    );
    (served.expect(rt, "a day"), output)
}

// The feed's first packet goes out while the day goes on, which a client ends by what is no login.
fn hang_up<R: Net<Listener = TcpListener, Stream = TcpStream> + Clock + Abort>(
    rt: &R,
    port: u16,
    sent: &Sent,
) {
    let mut client = Client::connect(rt, port);
    holds(rt, comes(rt, &sent.packets));
    thread::sleep(rt, Duration::from_millis(300));
    client.send_bytes(rt, b"\0");
}

// Serves that day. Nothing of it may be missing.
fn serve_beside<
    R: Net<Listener = TcpListener, Stream = TcpStream>
        + AllocGlobal
        + Threads
        + Wait
        + Clock
        + Log
        + Abort
        + Sync,
>(rt: &R, answerable: bool, notice_sink: &Counting, sent: &Sent) {
    let ports = free_ports(rt);
    let args = args_of(rt, ports, FEED, 1, 100).with_answers(2);
    let args = args.expect(rt, "answers");
    let flood = Flood {
        source: SocketAddr::from((Ipv4Addr::new(127, 0, 0, 1), 0)),
        answerable,
        sent,
    };
    let (served, _) = join(
        rt,
        || serve_flood(rt, rt.alloc(), &args, notice_sink, flood),
        || hang_up(rt, ports.0, sent),
    );
    let (day, output) = served;
    holds(rt, day.fault.is_none());
    equal(rt, output.as_slice(), b"events 1 feed 1\n".as_slice());
    // The message and the end of the session, and on a slow machine heartbeats between them.
    holds(rt, outputs(&sent.packets) >= 2);
}

fn nothing() -> Sent {
    Sent {
        packets: AtomicU64::new(0),
        answers: AtomicU64::new(0),
    }
}

// The day ends though requests come all the time. Of them two are answered a second, and it takes less than ten.
#[test]
fn requests_that_keep_coming_hold_nothing(rt: HostRuntime) {
    let (notice_sink, sent) = (Counting::new(), nothing());
    serve_beside(&rt, true, &notice_sink, &sent);
    let answers = outputs(&sent.answers);
    holds(&rt, 1 <= answers && answers <= 20);
    holds(&rt, outputs(&notice_sink.crowds) > 0);
    equal(&rt, outputs(&notice_sink.unanswered), 0);
}

// An answer that cannot be sent is reported, and the day has no fault.
#[test]
fn an_answer_that_cannot_be_sent(rt: HostRuntime) {
    let (notice_sink, sent) = (Counting::new(), nothing());
    serve_beside(&rt, false, &notice_sink, &sent);
    let unanswered = outputs(&notice_sink.unanswered);
    holds(&rt, 1 <= unanswered && unanswered <= 20);
    equal(&rt, outputs(&sent.answers), 0);
}
