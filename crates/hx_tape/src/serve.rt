//! The command that serves a day.

use crate::active::begin_logged;
use crate::addresses::addresses_of;
use crate::day_services::{copies_of, day_services_of};
use crate::failure::Failure;
use crate::hosting::host;
use crate::input::WakingInput;
use crate::plan::{Plan, open_file};
use clap::ArgMatches;
use hx_cli::{read_setup_text, setup_of};
use hx_day_journal::{day_of, last_time};
use hx_members::Seed;
use hx_serve::{
    Addresses, Beginning, Counted, Counters, DayServices, Hosting, JsonNotices, NoticeSink,
    Notices, OpenArgs, ServeArgs, ServeError, Silent, Tally, Times, today,
};
use hx_sessions::Gate;
use log::Log;
use std::fs;
use std::hash::RandomState;
use std::net::{Net, TcpListener, TcpStream};
use std::random::RandomSource;
use std::rt::{Clock, Files};
use std::sync::Wait;
use std::sync::atomic::{AtomicU64, Ordering};
use std::thread::Threads;

// The most sessions of a day that is not open.
const SESSIONS: u16 = 63;

// The numbers of the command line, whose ranges `clap` has checked.
fn args_of(matches: &ArgMatches<'_>, addresses: &Addresses) -> Option<ServeArgs> {
    let sessions = matches.get_one::<u16>("sessions")?;
    let args = ServeArgs::of(
        addresses.listen.port(),
        addresses.feeds.first()?.port(),
        addresses.requests.port(),
        sessions.min(SESSIONS),
        matches.get_one::<u64>("capacity")?,
        matches.get_one::<u64>("turns")?,
    )?;
    let args = args
        .with_answers(matches.get_one::<u32>("answers")?)?
        .with_share(matches.get_one::<u32>("share")?)?;
    if sessions > SESSIONS {
        return args.with_indices(sessions);
    }
    Some(args)
}

// The arguments of an open day, if the day is open.
fn open_of(matches: &ArgMatches<'_>) -> Option<OpenArgs> {
    if !matches.get_flag("open") {
        return None;
    }
    Some(OpenArgs {
        login_limit: matches.get_one::<u32>("login-limit")?,
        end: matches.get_one::<u32>("end")?,
        connections_per_address: matches.get_one::<u32>("connections-per-address")?,
    })
}

// The day that is asked for, or today.
fn day_asked<R: Clock>(rt: &R, matches: &ArgMatches<'_>) -> Result<u64, Failure> {
    match matches.get_str("day") {
        Some(text) => day_of(text).ok_or(Failure::NoDay),
        None => Ok(today(rt)),
    }
}

// What a day starts with besides its journal.
#[derive(Drop)]
struct Start {
    seed: Seed,
    day_services: DayServices,
}

// Serves a day without a journal.
fn begin_without_journal<
    R: AllocGlobal
        + Input
        + Print
        + Files
        + Log
        + Net<Listener = TcpListener, Stream = TcpStream>
        + Clock
        + Threads
        + Wait
        + Sync,
    G: Gate + Sync,
    B: NoticeSink + Sync,
>(
    rt: &R,
    matches: &ArgMatches<'_>,
    hosting: &Hosting<'_, G, B>,
    start: Start,
) -> Result<(), Failure>
where
    R::Reader: Send,
{
    let Start { seed, day_services } = start;
    let path = matches.get_str("history");
    let mut beginning = Beginning::without_journal(rt.alloc(), seed);
    beginning.day_services = day_services;
    if hosting.open.is_none() {
        return host(rt, path, hosting, beginning, rt.reader());
    }
    let input = WakingInput::new(rt.reader());
    host(rt, path, hosting, beginning, input)
}

// Serves a day over its journal. The journal may fail, or the day end, and then nobody waits for the operator's next
// line.
fn begin_durable<
    'x,
    R: AllocGlobal
        + Input
        + Print
        + Files<File = fs::File>
        + Log
        + Net<Listener = TcpListener, Stream = TcpStream>
        + Clock
        + Threads
        + Wait
        + Sync,
    G: Gate + Sync,
    B: NoticeSink + Sync,
>(
    rt: &'x R,
    matches: &ArgMatches<'_>,
    plan: Plan<'x>,
    hosting: &Hosting<'_, G, B>,
    notice_sink: &'x B,
    path: &str,
    start: Start,
) -> Result<(), Failure>
where
    R::Reader: Send,
{
    let Start { seed, day_services } = start;
    let recovered = open_file(rt, matches, plan, notice_sink, path)?;
    plan.last
        .fetch_max(last_time(&recovered.events), Ordering::SeqCst);
    let input = WakingInput::new(rt.reader());
    let beginning = Beginning {
        seed,
        recovered,
        ahead: matches.get_one::<u64>("ahead").unwrap_or(u64::MAX),
        day_services,
    };
    let path = matches.get_str("history");
    host(rt, path, hosting, beginning, input)
}

// The times of a day: those of one that is open, or durable, never fall.
fn times_of<'x>(matches: &ArgMatches<'_>, plan: Plan<'x>) -> Times<'x> {
    let is_durable = matches.get_str("journal").is_some() || matches.get_str("log").is_some();
    if plan.open.is_some() || is_durable {
        Times::of_day(plan.day, plan.last)
    } else {
        Times::of_machine()
    }
}

// Serves a day over a journal of this machine, or one without a journal.
fn begin_here<
    'x,
    R: AllocGlobal
        + Input
        + Print
        + Files<File = fs::File>
        + Log
        + Net<Listener = TcpListener, Stream = TcpStream>
        + Clock
        + RandomSource
        + Threads
        + Wait
        + Sync,
    G: Gate + Sync,
    B: NoticeSink + Sync,
>(
    rt: &'x R,
    matches: &ArgMatches<'_>,
    plan: Plan<'x>,
    hosting: &Hosting<'_, G, B>,
    notice_sink: &'x B,
    seed: Seed,
) -> Result<(), Failure>
where
    R::Reader: Send,
{
    let day_services = day_services_of(rt, matches)?;
    let start = Start { seed, day_services };
    match matches.get_str("journal") {
        Some(path) => begin_durable(rt, matches, plan, hosting, notice_sink, path, start),
        None => begin_without_journal(rt, matches, hosting, start),
    }
}

// Serves a day with a seed that is drawn: over its journal or its log, if the command line names one.
fn begin<
    'x,
    R: AllocGlobal
        + Input
        + Print
        + Files<File = fs::File>
        + Log
        + Net<Listener = TcpListener, Stream = TcpStream>
        + Clock
        + RandomSource
        + Threads
        + Wait
        + Sync,
    G: Gate + Sync,
    B: NoticeSink + Sync,
>(
    rt: &'x R,
    matches: &ArgMatches<'_>,
    plan: Plan<'x>,
    gate: &'x G,
    notice_sink: &'x B,
) -> Result<(), Failure>
where
    R::Reader: Send,
{
    let Ok(keys) = RandomState::new(rt) else {
        return Err(Failure::Serve(ServeError::Read));
    };
    let seed = Seed::Drawn(keys);
    let hosting = Hosting {
        setup: plan.setup,
        is_standard: plan.text.is_none(),
        args: plan.args,
        addresses: plan.addresses,
        gate,
        notice_sink,
        open: plan.open,
        times: times_of(matches, plan),
        tally: &Tally::new(),
        counters: plan.counters,
        copies: plan.copies,
    };
    match matches.get_str("log") {
        Some(nodes) => begin_logged(rt, matches, plan, &hosting, notice_sink, nodes, seed),
        None => begin_here(rt, matches, plan, &hosting, notice_sink, seed),
    }
}

// The same, with a notice sink that counts what concerns the journal.
fn begin_counted<
    'x,
    R: AllocGlobal
        + Input
        + Print
        + Files<File = fs::File>
        + Log
        + Net<Listener = TcpListener, Stream = TcpStream>
        + Clock
        + RandomSource
        + Threads
        + Wait
        + Sync,
    G: Gate + Sync,
    B: NoticeSink + Sync,
>(
    rt: &'x R,
    matches: &ArgMatches<'_>,
    plan: Plan<'x>,
    gate: &'x G,
    notice_sink: &'x B,
) -> Result<(), Failure>
where
    R::Reader: Send,
{
    let notice_sink = Counted {
        notice_sink,
        counters: plan.counters,
    };
    begin(rt, matches, plan, gate, &notice_sink)
}

// Serves a day of this plan, and writes its notices: in words or as JSON if it is open.
fn serve_plan<
    'x,
    R: AllocGlobal
        + Input
        + Print
        + Eprint
        + Files<File = fs::File>
        + Log
        + Net<Listener = TcpListener, Stream = TcpStream>
        + Clock
        + RandomSource
        + Threads
        + Wait
        + Sync,
>(rt: &'x R, matches: &ArgMatches<'_>, plan: Plan<'x>) -> Result<(), Failure>
where
    R::Reader: Send,
{
    let notices = Notices { rt };
    if plan.open.is_none() {
        return begin_counted(rt, matches, plan, &notices, &notices);
    }
    if matches.get_flag("json") {
        return begin_counted(rt, matches, plan, &Silent, &JsonNotices { rt });
    }
    begin_counted(rt, matches, plan, &Silent, &notices)
}

/// Serves a day as the command line asks.
pub fn serve_input<
    R: AllocGlobal
        + Input
        + Print
        + Eprint
        + Files<File = fs::File>
        + Log
        + Net<Listener = TcpListener, Stream = TcpStream>
        + Clock
        + RandomSource
        + Threads
        + Wait
        + Sync,
>(rt: &R, matches: &ArgMatches<'_>) -> Result<(), Failure>
where
    R::Reader: Send,
{
    let addresses = addresses_of(rt.alloc(), matches)?;
    let Some(args) = args_of(matches, &addresses) else {
        return Err(Failure::SamePorts);
    };
    let open = open_of(matches);
    if open.is_none() && args.sessions > SESSIONS {
        return Err(Failure::ManySessions);
    }
    let text = read_setup_text(rt, matches)?;
    let text = text.as_deref();
    let setup = setup_of(rt.alloc(), text)?;
    let copies = copies_of(rt.alloc(), &setup, matches)?;
    let plan = Plan {
        setup: &setup,
        text,
        args: &args,
        addresses: &addresses,
        open,
        day: day_asked(rt, matches)?,
        last: &AtomicU64::new(0),
        counters: &Counters::new(),
        copies: &copies,
    };
    serve_plan(rt, matches, plan)
}
