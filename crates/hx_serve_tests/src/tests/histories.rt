//! Histories that go to files: each is new and its owner's alone, and is written a line at a time.

use super::days::{Fixture, standard};
use super::notice_sinks::Counting;
use super::{equal, holds};
use hx_journal::NullJournal;
use hx_members::Seed;
use hx_serve::{
    Acceptors, AppliedBeginning, AppliedDay, Counters, Day, DayServices, Hosting, OpenArgs,
    ServeArgs, ServeError, Silent, Tally, Times, serve_applied, serve_day, today, write_history,
};
use log::Log;
use std::alloc::Global;
use std::io::{ErrorKind, Write};
use std::net::{Ipv4Addr, Net, TcpListener, TcpStream};
use std::os::unix::fs::MetadataExt;
use std::process::Abort;
use std::rt::{Clock, Files};
use std::sync::Wait;
use std::sync::atomic::AtomicU64;
use std::thread::Threads;
use std::{fs, io};

// The operator's lines of a day in which nobody trades. Each is an event, and its history is this text.
const HOURS: &[u8] = b"1 0 51\n2 0 4d\n3 0 45\n4 0 43\n";

// What its server writes last.
const LAST_LINE: &[u8] = b"events 4 feed 4\n";

// The arguments of its open day.
const OPEN: OpenArgs = OpenArgs {
    login_limit: 15,
    end: 0,
    connections_per_address: 8,
};

// A file that no other test has: the number of a port that was free is in its name.
fn file_of<R: Abort>(rt: &R, alloc: Global, port: u16) -> String {
    format!(in alloc; "/tmp/hx_history_of_port_{port}.tape").expect(rt, "memory")
}

// Serves that day, whose history goes to a file.
fn serve_hours<
    R: Net<Listener = TcpListener, Stream = TcpStream>
        + Files
        + Threads
        + Wait
        + Clock
        + Log
        + Abort
        + Sync,
>(
    rt: &R,
    alloc: Global,
    args: &ServeArgs,
    path: &str,
    output: &mut Vec<u8>,
) -> Result<(), ServeError> {
    let setup = standard(rt, alloc);
    let notice_sink = Counting::new();
    let last = AtomicU64::new(0);
    let times = Times::of_day(today(rt), &last);
    let addresses = args.addresses(alloc).expect(rt, "memory");
    let hosting = Hosting {
        setup: &setup,
        is_standard: false,
        args,
        addresses: &addresses,
        gate: &Silent,
        notice_sink: &notice_sink,
        open: Some(OPEN),
        times,
        tally: &Tally::new(),
        counters: &Counters::new(),
        copies: &[],
    };
    let path = Some(path);
    let beginning = AppliedBeginning {
        day: AppliedDay::new(alloc, &setup, args, Seed::Fixed)?,
        journal: NullJournal::new(),
        ahead: u64::MAX,
        day_services: DayServices::none(),
    };
    serve_applied(rt, alloc, &hosting, beginning, HOURS, output, path)
}

// What is in a file, which is there no more then.
fn take<R: AllocGlobal + Files + Abort>(rt: &R, path: &str) -> Vec<u8> {
    let text = fs::read(rt, path).expect(rt, "a file that is read");
    fs::remove_file(rt, path).expect(rt, "a file that is removed");
    text
}

#[test]
fn a_new_history_is_its_owners_alone(rt: HostRuntime) {
    let alloc = rt.alloc();
    let fixture = Fixture::new(&rt, 1, 100);
    let path = file_of(&rt, alloc, fixture.ports.0);
    let mut output = Vec::new(alloc);
    let served = serve_hours(&rt, alloc, &fixture.args, path.as_str(), &mut output);
    let about = fs::metadata(&rt, path.as_str()).expect(&rt, "a file");
    let text = take(&rt, path.as_str());
    equal(&rt, served, Ok(()));
    equal(&rt, output.as_slice(), LAST_LINE);
    equal(&rt, about.mode() & 0o777, 0o600);
    equal(&rt, text.as_slice(), HOURS);
}

#[test]
fn a_file_that_is_there_is_not_touched(rt: HostRuntime) {
    let alloc = rt.alloc();
    let fixture = Fixture::new(&rt, 1, 100);
    let path = file_of(&rt, alloc, fixture.ports.0);
    fs::write(&rt, path.as_str(), "yesterday").expect(&rt, "a file that is written");
    let mut output = Vec::new(alloc);
    let served = serve_hours(&rt, alloc, &fixture.args, path.as_str(), &mut output);
    let text = take(&rt, path.as_str());
    equal(&rt, served, Err(ServeError::HistoryIsThere));
    equal(&rt, text.as_slice(), b"yesterday".as_slice());
    holds(&rt, output.is_empty());
}

#[test]
fn a_day_without_its_port_makes_no_file(rt: HostRuntime) {
    let alloc = rt.alloc();
    let fixture = Fixture::new(&rt, 1, 100);
    let path = file_of(&rt, alloc, fixture.ports.0);
    let at = (Ipv4Addr::new(127, 0, 0, 1), fixture.ports.0);
    let taken = TcpListener::bind(&rt, at).expect(&rt, "a listener");
    let mut output = Vec::new(alloc);
    let served = serve_hours(&rt, alloc, &fixture.args, path.as_str(), &mut output);
    drop(taken);
    equal(&rt, served, Err(ServeError::Network));
    let is_there = fs::exists(&rt, path.as_str()).expect(&rt, "a folder");
    holds(&rt, !is_there);
}

// A file with room for a given number of bytes.
#[derive(Drop)]
struct Full {
    taken: Vec<u8>,
    room: usize,
}

impl Write for Full {
    fn write(&mut self, bytes: &[u8]) -> io::Result<usize> {
        let free = self.room.saturating_sub(self.taken.len());
        let count = bytes.len().min(free);
        if count == 0 || self.taken.extend_from_slice(&bytes[..count]).is_err() {
            return Err(io::Error::from(ErrorKind::StorageFull));
        }
        Ok(count)
    }

    fn flush(&mut self) -> io::Result<()> {
        Ok(())
    }
}

// What a day in which nobody trades leaves.
fn day_of_hours<
    R: Net<Listener = TcpListener, Stream = TcpStream>
        + Threads
        + Wait
        + Clock
        + Log
        + Abort
        + Sync,
>(rt: &R, alloc: Global) -> Day {
    let fixture = Fixture::new(rt, 1, 100);
    let addresses = fixture.args.addresses(alloc).expect(rt, "memory");
    let setup = standard(rt, alloc);
    let notice_sink = Counting::new();
    let last = AtomicU64::new(0);
    let times = Times::of_day(today(rt), &last);
    let hosting = Hosting {
        setup: &setup,
        is_standard: false,
        args: &fixture.args,
        addresses: &addresses,
        gate: &Silent,
        notice_sink: &notice_sink,
        open: Some(OPEN),
        times,
        tally: &Tally::new(),
        counters: &Counters::new(),
        copies: &[],
    };
    let acceptors = Acceptors::open(rt, &addresses).expect(rt, "doors");
    let mut output = Vec::new(alloc);
    serve_day(
        rt,
        alloc,
        &hosting,
        acceptors,
        Seed::Fixed,
        HOURS,
        &mut output,
    )
    .expect(rt, "a day")
}

// If the file is full, the lines before are there.
#[test]
fn a_full_file_keeps_a_beginning(rt: HostRuntime) {
    let alloc = rt.alloc();
    let day = day_of_hours(&rt, alloc);
    let mut file = Full {
        taken: Vec::new(alloc),
        room: 9,
    };
    let written = write_history(alloc, &day.history, &mut file);
    equal(&rt, written, Err(ServeError::Write));
    equal(&rt, file.taken.as_slice(), b"1 0 51\n2 ".as_slice());
}
