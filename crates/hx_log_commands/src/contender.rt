//! A contender for the log of a day, and whether the log says that it is deposed.

use crate::copy_file::pages_of;
use crate::fault::LogCommandError;
use crate::leaving::WriterNodes;
use crate::nodes::{FileLog, copied_log_of, tcp_nodes};
use hx_etcd_log::{CopiedLog, TcpNodes};
use hx_fenced_log::{Follower, LogError, LogJournal};
use std::fs;
use std::net::{Net, SocketAddr, TcpStream};
use std::rt::Files;
use std::sync::atomic::AtomicBool;
use std::time::Duration;

// A log is read at most this number of times.
const MOST_READS: u64 = 1_000_000_000_000;

/// A server that takes a log over, and when it does.
#[derive(Clone, Copy)]
pub struct Contender<'x, 'm> {
    /// The number of this process, which no other has or had.
    pub writer: u64,
    /// How long the active writer may be gone before this one takes over; none to take over at once.
    pub patience: Option<Duration>,
    /// Whether this writer has resigned.
    pub has_left: &'x AtomicBool,
    /// The file of a copy with which the log is begun, if there is one.
    pub from: Option<&'m str>,
}

/// The journal of an exchange over the log of its day, over TCP.
pub type ActiveJournal<'x, R> = LogJournal<FileLog<WriterNodes<'x, R>>>;

/// The log of these nodes for a contender: once it has resigned, it writes nothing there.
///
/// Errors: the file of the copy can't be opened; it is none of this log, or the log is trimmed past its end; no node
/// answers.
pub fn active_log_of<'x, R: AllocGlobal + Files<File = fs::File> + Net<Stream = TcpStream>>(
    rt: &'x R,
    nodes: &[SocketAddr],
    contender: Contender<'x, '_>,
) -> Result<FileLog<WriterNodes<'x, R>>, LogCommandError> {
    let pages = pages_of(rt, nodes, contender.from)?;
    let active = WriterNodes {
        nodes: tcp_nodes(rt, nodes)?,
        has_left: contender.has_left,
    };
    Ok(CopiedLog::new(rt.alloc(), pages, active))
}

// Whether a reader of the log finds its writer deposed: another writer is active, or the log is trimmed where this one
// has not read it.
fn finds_another<'x, R: AllocGlobal + Net<Stream = TcpStream>>(
    rt: &'x R,
    reader: &mut Follower<FileLog<TcpNodes<'x, R>>>,
    writer: u64,
) -> bool {
    for _ in 0..MOST_READS {
        let before = reader.count_read();
        match reader.read_on(rt.alloc()) {
            Ok(_) => {}
            Err(LogError::Trimmed { .. }) => return true,
            Err(_) => return false,
        }
        if reader.count_read() == before {
            break;
        }
    }
    reader.holder() != writer
}

/// Whether the log says that the contender is deposed: another writer is active, or the log is trimmed where the
/// contender has not read it. It does not if no node answers.
pub fn is_deposed<R: AllocGlobal + Files<File = fs::File> + Net<Stream = TcpStream>>(
    rt: &R,
    nodes: &[SocketAddr],
    contender: Contender<'_, '_>,
) -> bool {
    match copied_log_of(rt, nodes, contender.from) {
        Ok(log) => finds_another(
            rt,
            &mut Follower::new(log, contender.writer),
            contender.writer,
        ),
        Err(LogCommandError::OtherLog { .. }) => true,
        Err(_) => false,
    }
}
