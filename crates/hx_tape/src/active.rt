//! A day that is served over its log.
ghost use Rattle.std.specs.Prelude.{◌≡◌, [], true, IfOk};
ghost use Rattle.hx_tape_lines.specs.Text.{record_of};
ghost use Rattle.hx_desk.specs.Entries.{restored};
ghost use Rattle.hx_engine.specs.Journals.{lines};

use crate::day_services::day_services_of;
use crate::failure::Failure;
use crate::hosting::{host_filed, host_logged};
use crate::input::WakingInput;
use crate::logged::{take_mirrored, take_over};
use crate::plan::{Plan, open_file};
use clap::ArgMatches;
use hx_day_journal::DayFile;
use hx_day_log::Alone;
use hx_engine::{Journal, Recovered};
use hx_etcd_log::TcpNodes;
use hx_log_commands::{Contender, Heartbeat, heartbeats_of, is_deposed, nodes_of};
use hx_members::Seed;
use hx_serve::{AppliedBeginning, AppliedDay, DayServices, Hosting, NoticeSink, ServeError};
use hx_sessions::Gate;
use log::Log;
use std::fs;
use std::io::Read;
use std::net::{Net, SocketAddr, TcpListener, TcpStream};
use std::random::RandomSource;
use std::rt::{Clock, Files};
use std::sync::Wait;
use std::sync::atomic::{AtomicBool, Ordering};
use std::thread::Threads;
use std::time::Duration;

// The contender for the log of a day, as the command line asks.
fn contender_of<'m, 'y>(matches: &ArgMatches<'m>, has_left: &'y AtomicBool) -> Contender<'y, 'm> {
    let patience = matches.get_one::<u64>("patience");
    Contender {
        writer: matches.get_one::<u64>("writer").unwrap_or(0),
        patience: match patience {
            Some(patience) if matches.get_flag("standby") => Some(Duration::from_millis(patience)),
            _ => None,
        },
        has_left,
        from: matches.get_str("from"),
    }
}

// The connections of an open day, unless it stands by: a standby opens its own only once it is active.
fn early_day_services<
    R: AllocGlobal
        + Files<File = fs::File>
        + Net<Listener = TcpListener, Stream = TcpStream>
        + RandomSource,
>(
    rt: &R,
    matches: &ArgMatches<'_>,
    contender: Contender<'_, '_>,
) -> Result<Option<DayServices>, Failure> {
    match contender.patience {
        None => Ok(Some(day_services_of(rt, matches)?)),
        Some(_) => Ok(None),
    }
}

// What an applied day goes on from. Its connections are opened, if they are not open yet.
fn beginning_of<
    'a,
    R: AllocGlobal
        + Files<File = fs::File>
        + Net<Listener = TcpListener, Stream = TcpStream>
        + RandomSource,
    J: Journal + Drop,
>(
    rt: &R,
    matches: &ArgMatches<'_>,
    plan: Plan<'_>,
    early: Option<DayServices>,
    day: AppliedDay<'a>,
    journal: J,
) -> Result<AppliedBeginning<'a, J>, Failure>
    requires appended { J.appended journal ≡ lines record_of (restored day.events) }
    requires durable { J.durable journal ≡ J.appended journal }
    requires opened { J.is_open journal ≡ true }
    ensures day { IfOk result (λ b. b.day ≡ day.entry) }
    ensures journal { IfOk result (λ b. b.journal ≡ journal) }
{
    let day_services = match early {
        Some(day_services) => day_services,
        None => day_services_of(rt, matches)?,
    };
    plan.last.fetch_max(day.last_time(), Ordering::SeqCst);
    Ok(AppliedBeginning {
        day,
        journal,
        ahead: matches.get_one::<u64>("ahead").unwrap_or(u64::MAX),
        day_services,
    })
}

// How a day over a log ended: a journal fails if its writer has resigned, or another writer is active.
fn reason_of<R: AllocGlobal + Files<File = fs::File> + Net<Stream = TcpStream>>(
    rt: &R,
    nodes: &[SocketAddr],
    contender: Contender<'_, '_>,
    served: Result<(), Failure>,
) -> Result<(), Failure> {
    match served {
        Err(Failure::Serve(ServeError::Journal))
            if contender.has_left.load(Ordering::SeqCst) || is_deposed(rt, nodes, contender) => {
            Err(Failure::Deposed)
        }
        other => other,
    }
}

// A server that takes over a log, and the log's nodes.
#[derive(Clone, Copy)]
struct ActiveWriter<'n, 'y, 'm> {
    nodes: &'n [SocketAddr],
    contender: Contender<'y, 'm>,
}

impl<'n, 'y, 'm> ActiveWriter<'n, 'y, 'm> {
    // The heartbeat by which it shows that it is active.
    fn heartbeat<'x, R: AllocGlobal + Net<Stream = TcpStream>>(
        self,
        rt: &'x R,
    ) -> Result<Heartbeat<'y, TcpNodes<'x, R>>, Failure> {
        Ok(Heartbeat {
            heartbeats: heartbeats_of(rt, self.nodes)?,
            writer: self.contender.writer,
            has_left: self.contender.has_left,
        })
    }
}

// What waits for a log: a day without an applied event, its connections, if they are open, the operator's input, and
// the heartbeat to write once it is active.
#[derive(Drop)]
struct Waiting<'a, 'y, N, I> {
    day: AppliedDay<'a>,
    early: Option<DayServices>,
    input: I,
    heartbeat: Heartbeat<'y, N>,
}

// Serves a day over its log, and meanwhile writes the heartbeat of its active writer.
fn serve_alone<
    'x,
    R: AllocGlobal
        + Print
        + Files<File = fs::File>
        + Log
        + Net<Listener = TcpListener, Stream = TcpStream>
        + Clock
        + RandomSource
        + Threads
        + Wait
        + Sync,
    G: Gate + Sync,
    B: NoticeSink + Sync,
    I: Read + Send + Drop,
>(
    rt: &'x R,
    matches: &ArgMatches<'_>,
    plan: Plan<'x>,
    hosting: &Hosting<'_, G, B>,
    active: ActiveWriter<'_, '_, '_>,
    waiting: Waiting<'_, '_, TcpNodes<'x, R>, I>,
) -> Result<(), Failure>
    requires new { waiting.day.events ≡ [] }
    requires of_setup { waiting.day.setup ≡ hosting.now.setup.now }
{
    let Waiting {
        day,
        early,
        input,
        heartbeat,
    } = waiting;
    let ActiveWriter { nodes, contender } = active;
    let (alone, journal) = take_over(rt, hosting.notice_sink, nodes, contender, Alone { day })?;
    let beginning = beginning_of(rt, matches, plan, early, alone.day, journal)?;
    let path = matches.get_str("history");
    host_logged(rt, path, hosting, beginning, input, heartbeat)
}

// The same, if there is a journal in a file beside the log.
fn serve_mirrored<
    'x,
    R: AllocGlobal
        + Print
        + Files<File = fs::File>
        + Log
        + Net<Listener = TcpListener, Stream = TcpStream>
        + Clock
        + RandomSource
        + Threads
        + Wait
        + Sync,
    G: Gate + Sync,
    B: NoticeSink + Sync,
    I: Read + Send + Drop,
>(
    rt: &'x R,
    matches: &ArgMatches<'_>,
    plan: Plan<'x>,
    hosting: &Hosting<'_, G, B>,
    active: ActiveWriter<'_, '_, '_>,
    waiting: Waiting<'_, '_, TcpNodes<'x, R>, I>,
    beside: Recovered<DayFile<'x, B, R>>,
) -> Result<(), Failure>
    requires new { waiting.day.events ≡ [] }
    requires of_setup { waiting.day.setup ≡ hosting.now.setup.now }
{
    let Waiting {
        day,
        early,
        input,
        heartbeat,
    } = waiting;
    let ActiveWriter { nodes, contender } = active;
    let (day, mirror, journal) = take_mirrored(
        rt,
        hosting.notice_sink,
        nodes,
        contender,
        day,
        beside,
    )?;
    let beginning = beginning_of(rt, matches, plan, early, day, journal)?;
    let path = matches.get_str("history");
    host_filed(rt, path, hosting, beginning, mirror, input, heartbeat)
}

// Serves a day over its log, and over a journal in a file beside it, if the command line names one.
fn serve_waiting<
    'x,
    R: AllocGlobal
        + Print
        + Files<File = fs::File>
        + Log
        + Net<Listener = TcpListener, Stream = TcpStream>
        + Clock
        + RandomSource
        + Threads
        + Wait
        + Sync,
    G: Gate + Sync,
    B: NoticeSink + Sync,
    I: Read + Send + Drop,
>(
    rt: &'x R,
    matches: &ArgMatches<'_>,
    plan: Plan<'x>,
    hosting: &Hosting<'_, G, B>,
    notice_sink: &'x B,
    active: ActiveWriter<'_, '_, '_>,
    waiting: Waiting<'_, '_, TcpNodes<'x, R>, I>,
) -> Result<(), Failure>
    requires new { waiting.day.events ≡ [] }
    requires of_setup { waiting.day.setup ≡ hosting.now.setup.now }
{
    let Some(file) = matches.get_str("journal") else {
        return serve_alone(rt, matches, plan, hosting, active, waiting);
    };
    let beside = open_file(rt, matches, plan, notice_sink, file)?;
    serve_mirrored(rt, matches, plan, hosting, active, waiting, beside)
}

// Serves a day over its log, and meanwhile writes the heartbeat of its active writer. The log may fail, or the day end,
// and then the operator's next line is not waited for.
pub(crate) fn begin_logged<
    'x,
    R: AllocGlobal
        + Input
        + Print
        + Files<File = fs::File>
        + Log
        + Net<Listener = TcpListener, Stream = TcpStream>
        + Clock
        + RandomSource
        + Threads
        + Wait
        + Sync,
    G: Gate + Sync,
    B: NoticeSink + Sync,
>(
    rt: &'x R,
    matches: &ArgMatches<'_>,
    plan: Plan<'x>,
    hosting: &Hosting<'_, G, B>,
    notice_sink: &'x B,
    nodes: &str,
    seed: Seed,
) -> Result<(), Failure>
where
    R::Reader: Send,
{
    let nodes = nodes_of(rt.alloc(), nodes)?;
    let has_left = AtomicBool::new(false);
    let contender = contender_of(matches, &has_left);
    let active = ActiveWriter {
        nodes: &nodes,
        contender,
    };
    let waiting = Waiting {
        early: early_day_services(rt, matches, contender)?,
        day: AppliedDay::new(rt.alloc(), hosting.setup, hosting.args, seed)?,
        heartbeat: active.heartbeat(rt)?,
        input: WakingInput::new(rt.reader()),
    };
    let served = serve_waiting(rt, matches, plan, hosting, notice_sink, active, waiting);
    reason_of(rt, &nodes, contender, served)
}
