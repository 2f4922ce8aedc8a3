//! A day whose journal fails, and that goes on from its file: its member and its vendor go on with the numbers they
//! had.

use super::client::{ALPHA, BOUGHT, BUY};
use super::days::{log_in, send_order, standard};
use super::lines::Lines;
use super::open_days::{Stage, USUAL, come_again, send_hidden};
use super::vendor::{ADDED, Vendor};
use super::{equal, holds};
use hx_day_journal::last_time;
use hx_engine::Journal;
use hx_journal::{DeviceError, Head, HostFile, RawFile};
use hx_members::Seed;
use hx_recovery::{Unwatched, recover};
use hx_serve::{
    Acceptors, Beginning, Day, DayServices, Hosting, ServeError, Silent, Times, serve_from,
};
use log::Log;
use std::alloc::Global;
use std::fs;
use std::net::{Net, TcpListener, TcpStream};
use std::process::Abort;
use std::rt::{Clock, Files};
use std::sync::Wait;
use std::sync::atomic::{AtomicU64, Ordering};
use std::thread::{Threads, join};

// The codes of the hours that are left of a day that begins open.
const CLOSING: &[u8] =
    b"86399999999990 0 51\n86399999999991 0 4d\n86399999999992 0 45\n86399999999993 0 43\n";

// 11 July 2026, as days since 1970: a day that is past, so that its times stand at its end.
const DAY: u64 = 20_645;

// The calls of a file that make a new journal: a cut, a write and two syncs; then a write and a sync for each event.
const OPENING: u64 = 4;

// A login of ALPHA, from the third reply on.
const ALPHA_AGAIN: &[u8; 46] = b"ALPHA PWALPHA                               3 ";

// A file of the system whose disk fails after this number of calls.
#[derive(Drop)]
struct FailingFile {
    file: HostFile,
    calls: u64,
}

impl FailingFile {
    fn call(&mut self) -> Result<(), DeviceError> {
        if self.calls == 0 {
            return Err(DeviceError::Failed);
        }
        self.calls -= 1;
        Ok(())
    }
}

impl RawFile for FailingFile {
    fn write_at(&mut self, at: usize, bytes: &[u8]) -> Result<(), DeviceError> {
        self.call()?;
        self.file.write_at(at, bytes)
    }

    fn cut(&mut self, len: usize) -> Result<(), DeviceError> {
        self.call()?;
        self.file.cut(len)
    }

    fn sync(&mut self) -> Result<(), DeviceError> {
        self.call()?;
        self.file.sync()
    }
}

// The order that the failed disk does not take, under the token T2.
fn third() -> [u8; 49] {
    let mut order = *BUY;
    order[2] = b'2';
    order
}

// Serves the day from what it begins with, of which the last time is this one.
fn serve_over<
    'x,
    R: AllocGlobal
        + Net<Listener = TcpListener, Stream = TcpStream>
        + Threads
        + Wait
        + Clock
        + Log
        + Abort
        + Sync,
    J: Journal + Drop + Send,
>(
    rt: &'x R,
    stage: &'x Stage,
    last: u64,
    beginning: Beginning<J>,
    pieces: &'x [&'x [u8]],
) -> Result<Day, ServeError> {
    let alloc = rt.alloc();
    let setup = standard(rt, alloc);
    let last = AtomicU64::new(last);
    let times = Times::of_day(DAY, &last);
    let hosting = Hosting {
        setup: &setup,
        is_standard: false,
        args: &stage.args,
        addresses: &stage.addresses,
        gate: &Silent,
        notice_sink: &stage.notice_sink,
        open: Some(stage.open),
        times,
        tally: &stage.tally,
        counters: &stage.counters,
        copies: &[],
    };
    let acceptors = Acceptors::open(rt, &stage.addresses).expect(rt, "doors");
    let input = Lines::new(rt, pieces, &stage.let_go);
    let mut output = Vec::new(alloc);
    serve_from(
        rt,
        alloc,
        &hosting,
        acceptors,
        beginning,
        input,
        &mut output,
    )
}

// The file of a journal that no other test has.
fn path_of<R: Abort>(rt: &R, alloc: Global, port: u16) -> String {
    format!(in alloc; "/tmp/hx_journal_of_port_{port}").expect(rt, "memory")
}

// The day over a file of a disk that fails after this number of calls, on from what the file has of the day.
fn serve_file<
    R: AllocGlobal
        + Files<File = fs::File>
        + Net<Listener = TcpListener, Stream = TcpStream>
        + Threads
        + Wait
        + Clock
        + Log
        + Abort
        + Sync,
>(rt: &R, stage: &Stage, path: &str, calls: u64) -> Result<Day, ServeError> {
    let alloc = rt.alloc();
    let head = Head::new(alloc, b"HX00000001", b"20260711", b"standard").expect(rt, "a head");
    let (file, bytes) = HostFile::open(rt, path).expect(rt, "a file");
    let file = FailingFile { file, calls };
    let Ok(recovered) = recover(alloc, file, &bytes, &head, &Unwatched) else {
        return Err(ServeError::Read);
    };
    let last = last_time(&recovered.events);
    let beginning = Beginning {
        seed: Seed::Fixed,
        recovered,
        ahead: u64::MAX,
        day_services: DayServices::none(),
    };
    serve_over(rt, stage, last, beginning, &[CLOSING])
}

// ALPHA's displayed and hidden order are durable and published; the third one is published to nobody, and ALPHA's line
// is closed.
fn trade_until_the_disk_fails<
    R: AllocGlobal + Net<Listener = TcpListener, Stream = TcpStream> + Clock + Abort,
>(rt: &R, port: u16) {
    let alloc = rt.alloc();
    let mut client = log_in(rt, alloc, port, ALPHA);
    send_order(rt, alloc, &mut client, BUY, BOUGHT);
    send_hidden(rt, alloc, &mut client);
    client.send(rt, b'U', &third());
    client.expect_no_reply(rt, alloc);
}

// Whether a reply says that the third order was accepted: the second displayed one, so its public
// reference is 2.
fn is_third(payload: &[u8]) -> bool {
    let order = third();
    payload.len() == 66
        && payload[9..23] == order[1..15]
        && payload[49..57] == b"\0\0\0\0\0\0\0\x02"[..]
}

// Whether the blocks of a packet are the one message of the first order.
fn is_first(blocks: &[u8]) -> bool {
    blocks.len() == 38 && blocks[13..] == ADDED[..]
}

// Asked for again, the first message of the feed is that of the first order.
fn ask_for_the_first<R: Abort>(rt: &R, alloc: Global, stage: &Stage) {
    stage.vendor.ask(rt, stage.ports.1, 1);
    let packet = stage.vendor.receive_other(rt, alloc);
    equal(rt, (packet.sequence, packet.count), (1, 1));
    holds(rt, is_first(&packet.blocks));
}

// ALPHA comes again, with the number that it expects, and sends the third order again.
fn go_on<R: AllocGlobal + Net<Listener = TcpListener, Stream = TcpStream> + Clock + Abort>(
    rt: &R,
    stage: &Stage,
) {
    let alloc = rt.alloc();
    let welcome = b"HX00000001                   3";
    let mut client = come_again(rt, alloc, stage.ports.0, ALPHA_AGAIN, welcome);
    client.send(rt, b'U', &third());
    let reply = client.reply(rt, alloc);
    holds(rt, is_third(&reply.payload));
    stage.vendor.expect_packet(rt, alloc, 2, 1);
    ask_for_the_first(rt, alloc, stage);
    stage.let_go.store(1, Ordering::SeqCst);
}

// Hears the first message of the feed, and then nothing but heartbeats: no end of the session.
fn hear_no_end<R: Abort>(rt: &R, alloc: Global, vendor: &Vendor) {
    vendor.expect_packet(rt, alloc, 1, 1);
    holds(rt, !vendor.hears_the_end(rt));
}

#[test]
fn a_day_goes_on_from_its_journal(rt: HostRuntime) {
    let stage = Stage::new(&rt, USUAL);
    let path = path_of(&rt, rt.alloc(), stage.ports.0);
    let _ = fs::remove_file(&rt, path.as_str());
    let (served, _) = join(
        &rt,
        || serve_file(&rt, &stage, &path, OPENING + 4),
        || trade_until_the_disk_fails(&rt, stage.ports.0),
    );
    equal(&rt, served.err(), Some(ServeError::Journal));
    hear_no_end(&rt, rt.alloc(), &stage.vendor);
    let stage = Stage::new(&rt, USUAL);
    let (served, _) = join(
        &rt,
        || serve_file(&rt, &stage, &path, u64::MAX),
        || go_on(&rt, &stage),
    );
    let day = served.expect(&rt, "a day");
    holds(&rt, day.fault.is_none());
    // Two orders before, one after, and the four codes.
    equal(&rt, day.history.len(), 7);
    equal(&rt, stage.notice_sink.events.load(Ordering::SeqCst), 2);
    equal(&rt, stage.notice_sink.feed.load(Ordering::SeqCst), 1);
    let _ = fs::remove_file(&rt, path.as_str());
}
