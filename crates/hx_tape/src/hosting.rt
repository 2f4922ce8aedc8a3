//! A day that is served from what it begins with: without a journal, over a journal in a file, or over a log.
ghost use Rattle.std.specs.Prelude.{◌≡◌};
ghost use Rattle.hx_disk.specs.Calls.{seen_of};
ghost use Rattle.hx_journal.specs.Files.{stored, appended};
ghost use Rattle.hx_journal.specs.Records.{records_of};
ghost use Rattle.hx_tape_lines.specs.Text.{record_of};
ghost use Rattle.hx_desk.specs.Entries.{restored};
ghost use Rattle.hx_engine.specs.Journals.{lines};
ghost use Rattle.hx_fenced_log.specs.Mirrors.{Mirrors};

use crate::failure::Failure;
use hx_engine::Journal;
use hx_etcd_log::{CopiedLog, Nodes, Pages};
use hx_fenced_log::{LogJournal, MirroredJournal};
use hx_journal::{FileJournal, Noted, RawFile};
use hx_log_commands::Heartbeat;
use hx_serve::{
    AppliedBeginning, Beginning, Hosting, NoticeSink, ServeError, serve_applied, serve_durable,
};
use hx_sessions::Gate;
use log::Log;
use std::alloc::Global;
use std::io;
use std::io::Read;
use std::net::{Net, TcpListener, TcpStream};
use std::rt::{Clock, Files};
use std::sync::Wait;
use std::sync::atomic::{AtomicBool, Ordering};
use std::thread::{Threads, join};

// How a day ended whose history went to the file at the path, if there is one.
fn ended(alloc: Global, path: Option<&str>, served: Result<(), ServeError>) -> Result<(), Failure> {
    match served {
        Ok(()) => Ok(()),
        Err(ServeError::HistoryIsThere) => Err(Failure::HistoryIsThere {
            path: String::from_str(alloc, path.unwrap_or(""))?,
        }),
        Err(fault) => Err(Failure::Serve(fault)),
    }
}

// Serves a day from what it begins with. Its history is written to the file at the path, if there is one.
pub(crate) fn host<
    R: AllocGlobal
        + Print
        + Files
        + Log
        + Net<Listener = TcpListener, Stream = TcpStream>
        + Clock
        + Threads
        + Wait
        + Sync,
    J: Journal + Drop + Send,
    G: Gate + Sync,
    B: NoticeSink + Sync,
    I: Read + Send + Drop,
>(
    rt: &R,
    path: Option<&str>,
    hosting: &Hosting<'_, G, B>,
    beginning: Beginning<J>,
    input: I,
) -> Result<(), Failure> {
    let alloc = rt.alloc();
    let mut output = io::writer(rt);
    let served = serve_durable(rt, alloc, hosting, beginning, input, &mut output, path);
    ended(alloc, path, served)
}

// The same of an applied day.
fn host_applied<
    R: AllocGlobal
        + Print
        + Files
        + Log
        + Net<Listener = TcpListener, Stream = TcpStream>
        + Clock
        + Threads
        + Wait
        + Sync,
    J: Journal + Drop + Send,
    G: Gate + Sync,
    B: NoticeSink + Sync,
    I: Read + Send + Drop,
>(
    rt: &R,
    path: Option<&str>,
    hosting: &Hosting<'_, G, B>,
    beginning: AppliedBeginning<'_, J>,
    input: I,
) -> Result<(), Failure>
    requires of_setup { beginning.day.setup ≡ hosting.now.setup.now }
{
    let alloc = rt.alloc();
    let mut output = io::writer(rt);
    let served = serve_applied(rt, alloc, hosting, beginning, input, &mut output, path);
    ended(alloc, path, served)
}

// Serves an applied day, and meanwhile writes the heartbeat of its active writer.
fn host_shown<
    R: AllocGlobal
        + Print
        + Files
        + Log
        + Net<Listener = TcpListener, Stream = TcpStream>
        + Clock
        + Threads
        + Wait
        + Sync,
    J: Journal + Drop + Send,
    G: Gate + Sync,
    B: NoticeSink + Sync,
    N: Nodes + Drop + Send,
    I: Read + Send + Drop,
>(
    rt: &R,
    path: Option<&str>,
    hosting: &Hosting<'_, G, B>,
    beginning: AppliedBeginning<'_, J>,
    input: I,
    heartbeat: Heartbeat<'_, N>,
) -> Result<(), Failure>
    requires of_setup { beginning.day.setup ≡ hosting.now.setup.now }
{
    let is_over = AtomicBool::new(false);
    let flag = &is_over;
    let ((), served) = join(
        rt,
        move || heartbeat.run(rt, flag),
        move ||
            requires { beginning.day.setup ≡ hosting.now.setup.now }
        {
            let served = host_applied(rt, path, hosting, beginning, input);
            flag.store(true, Ordering::SeqCst);
            served
        },
    );
    served
}

// Serves a day to which all events of its log are applied, and meanwhile writes the heartbeat of the log's active
// writer.
pub(crate) fn host_logged<
    R: AllocGlobal
        + Print
        + Files
        + Log
        + Net<Listener = TcpListener, Stream = TcpStream>
        + Clock
        + Threads
        + Wait
        + Sync,
    G: Gate + Sync,
    B: NoticeSink + Sync,
    P: Pages + Drop + Send,
    N: Nodes + Drop + Send,
    S: Nodes + Drop + Send,
    I: Read + Send + Drop,
>(
    rt: &R,
    path: Option<&str>,
    hosting: &Hosting<'_, G, B>,
    beginning: AppliedBeginning<'_, LogJournal<CopiedLog<P, N>>>,
    input: I,
    heartbeat: Heartbeat<'_, S>,
) -> Result<(), Failure>
    requires of_setup { beginning.day.setup ≡ hosting.now.setup.now }
{
    host_shown(rt, path, hosting, beginning, input, heartbeat)
}

// The same, with a mirror beside the log, which has the same records.
fn host_mirrored<
    R: AllocGlobal
        + Print
        + Files
        + Log
        + Net<Listener = TcpListener, Stream = TcpStream>
        + Clock
        + Threads
        + Wait
        + Sync,
    G: Gate + Sync,
    B: NoticeSink + Sync,
    P: Pages + Drop + Send,
    N: Nodes + Drop + Send,
    M: Journal + Drop + Send,
    S: Nodes + Drop + Send,
    I: Read + Send + Drop,
>(
    rt: &R,
    path: Option<&str>,
    hosting: &Hosting<'_, G, B>,
    beginning: AppliedBeginning<'_, LogJournal<CopiedLog<P, N>>>,
    mirror: M,
    input: I,
    heartbeat: Heartbeat<'_, S>,
) -> Result<(), Failure>
    requires of_setup { beginning.day.setup ≡ hosting.now.setup.now }
    requires mirror { Mirrors M.appended M.durable M.is_open mirror
        (lines record_of (restored beginning.day.events)) }
{
    let (day, journal, ahead, day_services) = beginning.into_parts();
    let beginning = AppliedBeginning {
        day,
        journal: MirroredJournal::new(rt.alloc(), journal, mirror),
        ahead,
        day_services,
    };
    host_shown(rt, path, hosting, beginning, input, heartbeat)
}

// The same, if the mirror is a journal in a file.
pub(crate) fn host_filed<
    R: AllocGlobal
        + Print
        + Files
        + Log
        + Net<Listener = TcpListener, Stream = TcpStream>
        + Clock
        + Threads
        + Wait
        + Sync,
    G: Gate + Sync,
    B: NoticeSink + Sync,
    P: Pages + Drop + Send,
    N: Nodes + Drop + Send,
    F: RawFile + Drop + Send,
    S: Nodes + Drop + Send,
    I: Read + Send + Drop,
>(
    rt: &R,
    path: Option<&str>,
    hosting: &Hosting<'_, G, B>,
    beginning: AppliedBeginning<'_, LogJournal<CopiedLog<P, N>>>,
    mirror: FileJournal<Noted<F>>,
    input: I,
    heartbeat: Heartbeat<'_, S>,
) -> Result<(), Failure>
    requires of_setup { beginning.day.setup ≡ hosting.now.setup.now }
    requires mirror { Mirrors (λ j. records_of (appended (λ d. seen_of d.log.events) j))
        (λ j. records_of (stored (λ d. seen_of d.log.events) j)) (λ j. j.is_open) mirror
        (lines record_of (restored beginning.day.events)) }
{
    host_mirrored(rt, path, hosting, beginning, mirror, input, heartbeat)
}
