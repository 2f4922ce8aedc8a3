//! The socket by which a server hears its operator.

use crate::peer::{Directed, Peer};
use std::alloc::{AllocError, Global};
use std::io::ErrorKind;
use std::net::Net;
use std::os::fd::{AsFd, AsRawFd, OwnedFd};
use std::os::unix::fs::{FileTypeExt, MetadataExt, PermissionsExt};
use std::os::unix::net::{SocketAddr, UnixListener, UnixStream};
use std::rt::Files;
use std::time::{Clock, Instant};
use std::{fs, io};
use thiserror::Error;

// The number of connections that are read at once; all later ones wait.
const ROOM: usize = 8;

// The number of connections that may wait.
const BACKLOG: i32 = 64;

// Its owner may read and write: who may write to a socket's file may connect.
const OWN: u32 = 0o600;

/// Why there is no socket.
#[derive(Clone, Copy, Debug, PartialEq, Eq, Drop, Error)]
pub enum SocketError {
    /// Another server listens on it.
    #[error("operator socket in use")]
    InUse,
    /// A file of this name is there that is no socket: it is not touched.
    #[error("operator socket: there is a file that is no socket")]
    NoSocket,
    /// The path is too long for a socket, or no text of a path.
    #[error("operator socket: no path, or one that is too long")]
    Path,
    /// A growth was refused.
    #[error("no memory")]
    NoMemory,
    /// The socket, its file or its folder failed.
    #[error("operator socket failed")]
    Failed,
}

impl From<AllocError> for SocketError {
    fn from(_error: AllocError) -> SocketError {
        SocketError::NoMemory
    }
}

impl From<io::Error> for SocketError {
    fn from(error: io::Error) -> SocketError {
        match error.kind() {
            ErrorKind::OutOfMemory => SocketError::NoMemory,
            ErrorKind::AddrInUse => SocketError::InUse,
            _ => SocketError::Failed,
        }
    }
}

// Which file of the system it is.
#[derive(Clone, Copy, PartialEq, Eq)]
struct FileId {
    device: u64,
    number: u64,
}

/// A socket of the operator. Its file is there until `close`.
#[derive(Drop)]
pub struct OperatorSocket {
    listener: UnixListener,
    path: String,
    file: FileId,
    peers: Vec<Peer>,
}

// Removes the file of a socket that nobody listens on.
fn clear<R: Net + Files>(rt: &R, path: &str) -> Result<(), SocketError> {
    let file = match fs::symlink_metadata(rt, path) {
        Ok(file) => file,
        Err(error) if error.kind() == ErrorKind::NotFound => return Ok(()),
        Err(error) => return Err(SocketError::from(error)),
    };
    if !file.file_type().is_socket() {
        return Err(SocketError::NoSocket);
    }
    match UnixStream::connect(rt, path) {
        Ok(_) => Err(SocketError::InUse),
        Err(error) if error.kind() == ErrorKind::ConnectionRefused => {
            fs::remove_file(rt, path)?;
            Ok(())
        }
        Err(error) => Err(SocketError::from(error)),
    }
}

fn file_id<R: Files>(rt: &R, path: &str) -> Result<FileId, SocketError> {
    let file = fs::symlink_metadata(rt, path)?;
    Ok(FileId {
        device: file.dev(),
        number: file.ino(),
    })
}

// The socket listens from here on.
fn listen(socket: OwnedFd) -> io::Result<UnixListener> {
    if libc::net::listen(socket.as_raw_fd(), BACKLOG) < 0 {
        return Err(io::Error::from(ErrorKind::Other));
    }
    let listener = UnixListener::from(socket);
    listener.set_nonblocking(true)?;
    Ok(listener)
}

// Makes the new file its owner's alone, and listens. Nobody can connect before: until it listens the
// system refuses them all.
fn settle<R: Files>(
    rt: &R,
    path: &str,
    socket: OwnedFd,
) -> Result<(UnixListener, FileId), SocketError> {
    fs::set_permissions(rt, path, fs::Permissions::from_mode(OWN))?;
    let file = file_id(rt, path)?;
    let listener = listen(socket)?;
    Ok((listener, file))
}

// Makes the file, and listens. If that fails the file is removed again.
fn bind<R: Net + Files>(
    rt: &R,
    path: &str,
    address: &SocketAddr,
) -> Result<(UnixListener, FileId), SocketError> {
    let socket = rt.unix_socket()?;
    rt.bind_unix(socket.as_fd(), address)?;
    let settled = settle(rt, path, socket);
    if settled.is_err() {
        let _ = fs::remove_file(rt, path);
    }
    settled
}

impl OperatorSocket {
    /// Listens on a path: a file is made there, which its owner alone may read and write (mode 0600).
    /// The file of a socket that nobody listens on is replaced.
    ///
    /// Errors: see `SocketError`. No file is left then that was not there before.
    pub fn open<R: AllocGlobal + Net + Files<File = fs::File>>(
        rt: &R,
        path: &str,
    ) -> Result<OperatorSocket, SocketError> {
        let peers = Vec::with_capacity(rt.alloc(), ROOM)?;
        let name = String::from_str(rt.alloc(), path)?;
        let Ok(address) = SocketAddr::from_pathname(path) else {
            return Err(SocketError::Path);
        };
        clear(rt, path)?;
        let (listener, file) = bind(rt, path, &address)?;
        Ok(OperatorSocket {
            listener,
            path: name,
            file,
            peers,
        })
    }

    // Accepts the connections that have come, as far as there is room.
    fn welcome<R: Clock>(&mut self, rt: &R, alloc: Global) {
        for _ in 0..ROOM {
            if self.peers.len() >= ROOM {
                return;
            }
            let Ok((stream, _)) = self.listener.accept() else {
                return;
            };
            let Ok(came) = Instant::now(rt) else {
                return;
            };
            if stream.set_nonblocking(true).is_ok() {
                let _ = self.peers.push(Peer::new(alloc, stream, came));
            }
        }
    }

    /// Accepts the connections that have come, reads what is there, has each whole line carried out, and
    /// writes the answers. It waits for no connection: call it some times a second.
    ///
    /// Each connection has one line, of at most `LONGEST` bytes, and five seconds. At most eight are
    /// open at once, and the others wait.
    pub fn turn<R: Clock, D: Directed>(&mut self, rt: &R, alloc: Global, directed: &mut D) {
        self.welcome(rt, alloc);
        let mut index = 0;
        for _ in 0..ROOM {
            let Some(peer) = self.peers.get_mut(index) else {
                return;
            };
            if peer.attend(rt, directed) {
                index += 1;
            } else {
                self.peers.remove(index);
            }
        }
    }

    /// Ends: the file is removed, if it is still this socket's, and the connections are closed.
    pub fn close<R: Files>(self, rt: &R) {
        if file_id(rt, self.path.as_str()).is_ok_and(|file| file == self.file) {
            let _ = fs::remove_file(rt, self.path.as_str());
        }
    }
}
