//! The client that says the operator's words to a server.

use crate::answers::read_answer;
use crate::peer::LONGEST;
use std::alloc::{AllocError, Global};
use std::io;
use std::io::{ErrorKind, Read, Write};
use std::net::Net;
use std::os::unix::net::UnixStream;
use std::time::Duration;
use thiserror::Error;

// An answer, and each part of it, is waited for this number of seconds.
const PATIENCE: u64 = 10;

// The most bytes of an answer.
const GREATEST: usize = 1 << 20;

// How many bytes are read at once.
const PIECE: usize = 4096;

/// Why the operator's words had no answer. Whether they were carried out is not known after
/// `Cut` and `Silent`.
#[derive(Clone, Copy, Debug, PartialEq, Eq, Drop, Error)]
pub enum OperateError {
    /// Nobody listens on the socket.
    #[error("no server listens there")]
    NoServer,
    /// Another user's server listens there.
    #[error("the socket is another user's")]
    NotAllowed,
    /// The words have a line feed, or are more than a line may have.
    #[error("no line, or one that is too long")]
    NoLine,
    /// The connection was closed before the answer was whole.
    #[error("the answer was cut")]
    Cut,
    /// No answer came in time.
    #[error("no answer in time")]
    Silent,
    /// A growth was refused.
    #[error("no memory")]
    NoMemory,
    /// The socket failed.
    #[error("socket failed")]
    Socket,
    /// The output could not be written.
    #[error("write failed")]
    Write,
}

impl OperateError {
    /// The status that the program ends with.
    pub fn status(&self) -> u8 {
        match self {
            OperateError::NoLine => 2,
            OperateError::NoMemory => 3,
            OperateError::NoServer
            | OperateError::NotAllowed
            | OperateError::Cut
            | OperateError::Silent
            | OperateError::Socket
            | OperateError::Write => 4,
        }
    }
}

impl From<AllocError> for OperateError {
    fn from(_error: AllocError) -> OperateError {
        OperateError::NoMemory
    }
}

impl From<io::Error> for OperateError {
    fn from(error: io::Error) -> OperateError {
        match error.kind() {
            ErrorKind::OutOfMemory => OperateError::NoMemory,
            ErrorKind::NotFound | ErrorKind::ConnectionRefused => OperateError::NoServer,
            ErrorKind::PermissionDenied => OperateError::NotAllowed,
            ErrorKind::WouldBlock | ErrorKind::TimedOut => OperateError::Silent,
            ErrorKind::BrokenPipe | ErrorKind::ConnectionReset => OperateError::Cut,
            _ => OperateError::Socket,
        }
    }
}

// Appends a word. A word after the first that has a space and no quotes is put in quotes: a shell
// has taken them off.
fn write_word(line: &mut Vec<u8>, word: &[u8]) -> Result<(), AllocError> {
    let is_first = line.is_empty();
    if !is_first {
        line.push(b' ')?;
    }
    let is_quoted = !is_first && word.contains(&b' ') && !word.contains(&b'"');
    if is_quoted {
        line.push(b'"')?;
    }
    line.extend_from_slice(word)?;
    if is_quoted {
        line.push(b'"')?;
    }
    Ok(())
}

// The line of words, with its line feed.
fn line_of(alloc: Global, words: &[&str]) -> Result<Vec<u8>, OperateError> {
    let mut line = Vec::new(alloc);
    for word in words {
        write_word(&mut line, word.as_bytes())?;
    }
    if line.len() > LONGEST || line.contains(&b'\n') {
        return Err(OperateError::NoLine);
    }
    line.extend_from_slice(b"\n")?;
    Ok(line)
}

// Reads until the other side closes.
fn read_all(alloc: Global, stream: &mut UnixStream) -> Result<Vec<u8>, OperateError> {
    let mut bytes = Vec::new(alloc);
    let mut buffer = [0; PIECE];
    for _ in 0..GREATEST {
        match stream.read(&mut buffer) {
            Ok(0) => return Ok(bytes),
            Ok(count) => bytes.extend_from_slice(&buffer[..count])?,
            Err(error) if error.kind() == ErrorKind::Interrupted => {}
            Err(error) => return Err(OperateError::from(error)),
        }
        if bytes.len() > GREATEST {
            break;
        }
    }
    Err(OperateError::Cut)
}

/// Says these words to the server that listens on a path, and copies its answer to the output.
/// Returns whether it was `ok`; else the words were refused, and the answer says why.
///
/// A server answers within a second or so. It is waited for 10 seconds.
///
/// Errors: see `OperateError`.
pub fn operate<R: Net, W: Write>(
    rt: &R,
    alloc: Global,
    path: &str,
    words: &[&str],
    output: &mut W,
) -> Result<bool, OperateError> {
    let line = line_of(alloc, words)?;
    let mut stream = UnixStream::connect(rt, path)?;
    stream.set_read_timeout(Some(Duration::from_secs(PATIENCE)))?;
    stream.set_write_timeout(Some(Duration::from_secs(PATIENCE)))?;
    stream.write_all(&line)?;
    let bytes = read_all(alloc, &mut stream)?;
    let Some(answer) = read_answer(&bytes) else {
        return Err(OperateError::Cut);
    };
    if output.write_all(answer.text).is_err() || output.flush().is_err() {
        return Err(OperateError::Write);
    }
    Ok(answer.is_ok)
}
