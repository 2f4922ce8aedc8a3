//! The log of a day in an etcd: its nodes, and what stands there beside it.

use crate::copy_file::pages_of;
use crate::fault::LogCommandError;
use hx_etcd_log::{CopiedLog, Copies, EtcdLog, Heartbeats, TcpNodes, TextPages};
use hx_listener::address_of;
use std::alloc::Global;
use std::fs;
use std::net::{Net, SocketAddr, TcpStream};
use std::rt::Files;
use std::time::Duration;

// A node that says nothing for this number of seconds is asked no more, and the next one is.
const PATIENCE: u64 = 2;

// The same for a heartbeat, in milliseconds: its writer does not wait for a node that is gone.
const HEARTBEAT_PATIENCE: u64 = 300;

/// The addresses of the nodes, with commas between.
///
/// Errors: a word that is no address.
pub fn nodes_of(alloc: Global, text: &str) -> Result<Vec<SocketAddr>, LogCommandError> {
    let mut nodes = Vec::new(alloc);
    for word in text.split(',') {
        match address_of(word) {
            Some(address) if address.port() != 0 => nodes.push(address)?,
            _ => return Err(LogCommandError::NoAddress),
        }
    }
    Ok(nodes)
}

/// The nodes of these addresses, for a reader or a writer of the log.
pub fn tcp_nodes<'x, R: AllocGlobal + Net<Stream = TcpStream>>(
    rt: &'x R,
    nodes: &[SocketAddr],
) -> Result<TcpNodes<'x, R>, LogCommandError> {
    Ok(TcpNodes::new(rt, rt.alloc(), nodes, Duration::from_secs(PATIENCE))?)
}

/// The log of these nodes, of which nothing is read yet.
pub fn log_of<'x, R: AllocGlobal + Net<Stream = TcpStream>>(
    rt: &'x R,
    nodes: &[SocketAddr],
) -> Result<EtcdLog<TcpNodes<'x, R>>, LogCommandError> {
    Ok(EtcdLog::new(rt.alloc(), tcp_nodes(rt, nodes)?))
}

/// A log in the etcd of these nodes that is begun with the copy in a file, if one is named.
pub type FileLog<N> = CopiedLog<Option<TextPages<fs::File>>, N>;

/// The log of these nodes, begun with the copy in a file, if one is named. Nothing is read yet.
///
/// Errors: those of `pages_of`.
pub fn copied_log_of<'x, R: AllocGlobal + Files<File = fs::File> + Net<Stream = TcpStream>>(
    rt: &'x R,
    nodes: &[SocketAddr],
    from: Option<&str>,
) -> Result<FileLog<TcpNodes<'x, R>>, LogCommandError> {
    let pages = pages_of(rt, nodes, from)?;
    Ok(CopiedLog::new(rt.alloc(), pages, tcp_nodes(rt, nodes)?))
}

/// The copies of the log of these nodes.
pub fn copies_of<'x, R: AllocGlobal + Net<Stream = TcpStream>>(
    rt: &'x R,
    nodes: &[SocketAddr],
) -> Result<Copies<TcpNodes<'x, R>>, LogCommandError> {
    Ok(Copies::new(rt.alloc(), tcp_nodes(rt, nodes)?))
}

/// The heartbeats of the active writer there.
pub fn heartbeats_of<'x, R: AllocGlobal + Net<Stream = TcpStream>>(
    rt: &'x R,
    nodes: &[SocketAddr],
) -> Result<Heartbeats<TcpNodes<'x, R>>, LogCommandError> {
    let alloc = rt.alloc();
    let nodes = TcpNodes::new(rt, alloc, nodes, Duration::from_millis(HEARTBEAT_PATIENCE))?;
    Ok(Heartbeats::new(alloc, nodes))
}

/// The words of the operator there. A node has as long for one as for a record.
pub fn words_of<'x, R: AllocGlobal + Net<Stream = TcpStream>>(
    rt: &'x R,
    nodes: &[SocketAddr],
) -> Result<Heartbeats<TcpNodes<'x, R>>, LogCommandError> {
    Ok(Heartbeats::new(rt.alloc(), tcp_nodes(rt, nodes)?))
}
