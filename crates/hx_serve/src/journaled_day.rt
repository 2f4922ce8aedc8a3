//! A day whose history goes to a file.
ghost use Rattle.std.specs.Prelude.{◌≡◌};

use crate::beginning::{AppliedBeginning, Beginning, Day};
use crate::day::{serve_applied_from, serve_from};
use crate::fault::ServeError;
use crate::history::write_history;
use hx_day_context::{Hosting, Notice, NoticeSink};
use hx_engine::Journal;
use hx_listener::{Acceptors, Sockets};
use hx_sessions::Gate;
use log::Log as Logs;
use std::alloc::Global;
use std::fs::OpenOptions;
use std::io::{BufWriter, ErrorKind, Read, Write};
use std::net::{Net, TcpListener, TcpStream};
use std::os::unix::fs::OpenOptionsExt;
use std::rt::Files;
use std::sync::Wait;
use std::thread::Threads;
use std::time::Clock;

// How many bytes of the history are written at once.
const BUFFER: usize = 1 << 16;

// A new history is read and written by its owner alone: it has the orders that nobody else may see.
const OWN: u32 = 0o600;

/// Makes the file of a history, which its owner alone may read and write. A file that is there is not touched:
/// `HistoryIsThere`. Any other failure is `Write`.
pub fn new_history<R: Files>(rt: &R, path: &str) -> Result<R::File, ServeError> {
    let mut options = OpenOptions::new();
    options.write(true).create_new(true).mode(OWN);
    match options.open(rt, path) {
        Ok(file) => Ok(file),
        Err(e) if e.kind() == ErrorKind::AlreadyExists => Err(ServeError::HistoryIsThere),
        Err(_) => Err(ServeError::Write),
    }
}

/// Writes the history of a day into a file, a piece at a time: if it fails, a beginning is there.
pub fn keep_history<W: Write + Drop>(alloc: Global, day: &Day, file: W) -> Result<(), ServeError> {
    let Ok(mut writer) = BufWriter::with_capacity(alloc, BUFFER, file) else {
        return Err(ServeError::NoMemory);
    };
    let written = write_history(alloc, &day.history, &mut writer);
    if writer.flush().is_err() {
        return Err(ServeError::Write);
    }
    written
}

// What a served day returns: its own fault before that of its history.
fn fault_of(day: Day, durable: Result<(), ServeError>) -> Result<(), ServeError> {
    match day.fault {
        Some(fault) => Err(fault),
        None => durable,
    }
}

// Takes the ports of a day, then makes the file that its history goes to, if a path is given, and posts what an
// operator must know of its setup and its addresses.
fn open_up<T: Net<Listener = TcpListener, Stream = TcpStream> + Files, G, B: NoticeSink>(
    rt: &T,
    hosting: &Hosting<'_, G, B>,
    history: Option<&str>,
) -> Result<(Acceptors<Sockets>, Option<T::File>), ServeError> {
    let acceptors = Acceptors::open(rt, hosting.addresses)?;
    let file = match history {
        Some(path) => Some(new_history(rt, path)?),
        None => None,
    };
    if hosting.is_standard {
        hosting.notice_sink.post(Notice::StandardSetup);
    }
    if hosting.open.is_some() && !hosting.addresses.are_loopback() {
        hosting.notice_sink.post(Notice::OpenToOthers);
    }
    Ok((acceptors, file))
}

// Closes what a day leaves open, and writes its history to the file, if there is one.
fn close_up<T: Files, W: Write + Drop>(
    rt: &T,
    alloc: Global,
    day: Day,
    file: Option<W>,
) -> Result<(), ServeError> {
    let mut day = day;
    if let Some(socket) = day.socket.take() {
        socket.close(rt);
    }
    let durable = match file {
        Some(file) => keep_history(alloc, &day, file),
        None => Ok(()),
    };
    fault_of(day, durable)
}

/// Serves a day over sockets, on from the events in its journal, and writes its history as a tape to a new file, if a
/// path is given. The ports are taken before the file is made: a day that cannot begin leaves no file, and touches
/// none. The last line goes to the output before the history is written.
pub fn serve_durable<
    T: Net<Listener = TcpListener, Stream = TcpStream>
        + Files
        + Threads
        + Wait
        + Clock
        + Logs
        + Sync,
    J: Journal + Drop + Send,
    G: Gate + Sync,
    B: NoticeSink + Sync,
    R: Read + Send + Drop,
    W: Write,
>(
    rt: &T,
    alloc: Global,
    hosting: &Hosting<'_, G, B>,
    beginning: Beginning<J>,
    input: R,
    output: &mut W,
    history: Option<&str>,
) -> Result<(), ServeError> {
    let (acceptors, file) = open_up(rt, hosting, history)?;
    let day = serve_from(rt, alloc, hosting, acceptors, beginning, input, output)?;
    close_up(rt, alloc, day, file)
}

/// The same, on from the day's applied events, none of which is applied again.
pub fn serve_applied<
    T: Net<Listener = TcpListener, Stream = TcpStream>
        + Files
        + Threads
        + Wait
        + Clock
        + Logs
        + Sync,
    J: Journal + Drop + Send,
    G: Gate + Sync,
    B: NoticeSink + Sync,
    R: Read + Send + Drop,
    W: Write,
>(
    rt: &T,
    alloc: Global,
    hosting: &Hosting<'_, G, B>,
    beginning: AppliedBeginning<'_, J>,
    input: R,
    output: &mut W,
    history: Option<&str>,
) -> Result<(), ServeError>
    requires of_setup { beginning.day.setup ≡ hosting.now.setup.now }
{
    let (acceptors, file) = open_up(rt, hosting, history)?;
    let day = serve_applied_from(rt, alloc, hosting, acceptors, beginning, input, output)?;
    close_up(rt, alloc, day, file)
}
