//! The file of a copy of a log.

use crate::fault::LogCommandError;
use crate::nodes::copies_of;
use hx_day_log::DayLogError;
use hx_disk::FileError;
use hx_etcd_log::{EtcdLog, Nodes, PageError, Pages, TextPages};
use hx_fenced_log::{LogRecord, read_records};
use std::fs::OpenOptions;
use std::io::{Read, Seek, SeekFrom};
use std::net::{Net, SocketAddr, TcpStream};
use std::os::unix::fs::OpenOptionsExt;
use std::path::Path;
use std::rt::Files;
use std::{fs, io};

// The most pages of a copy.
const MOST_PAGES: u64 = 1_000_000_000_000;

// Its last whole record is searched in this number of bytes at its end, and then in more.
const TAILS: [u64; 2] = [64 * 1024, 8 * 1024 * 1024];

// Why the file at a path can't be used.
fn failed<R: AllocGlobal>(rt: &R, path: &str) -> LogCommandError {
    match String::from_str(rt.alloc(), path) {
        Ok(path) => LogCommandError::CopyFile { path },
        Err(_) => LogCommandError::NoMemory,
    }
}

// Why it is none of this log.
fn foreign<R: AllocGlobal>(rt: &R, path: &str) -> LogCommandError {
    match String::from_str(rt.alloc(), path) {
        Ok(path) => LogCommandError::OtherLog { path },
        Err(_) => LogCommandError::NoMemory,
    }
}

/// The copy in a file, if one is named, from its beginning on. Its last whole record stands in the log, as far as a
/// node answers.
///
/// Errors: the file can't be opened; it is a copy of another log, or the log is trimmed past its end; no node answers.
pub fn pages_of<R: AllocGlobal + Files<File = fs::File> + Net<Stream = TcpStream>>(
    rt: &R,
    nodes: &[SocketAddr],
    path: Option<&str>,
) -> Result<Option<TextPages<fs::File>>, LogCommandError> {
    let Some(path) = path else {
        return Ok(None);
    };
    check_copy(rt, nodes, path)?;
    match fs::File::open(rt, path) {
        Ok(file) => Ok(Some(TextPages::new(rt.alloc(), file))),
        Err(_) => Err(failed(rt, path)),
    }
}

// Looks whether the last whole record of a copy stands in the log as the copy has it.
fn check_copy<R: AllocGlobal + Files<File = fs::File> + Net<Stream = TcpStream>>(
    rt: &R,
    nodes: &[SocketAddr],
    path: &str,
) -> Result<(), LogCommandError> {
    let Some(last) = last_whole(rt, path)? else {
        return Ok(());
    };
    match copies_of(rt, nodes)?.stands(last.head().number) {
        Ok(Some(found)) if found.head() == last.head() && found.text() == last.text() => Ok(()),
        Ok(_) => Err(foreign(rt, path)),
        Err(_) => Err(LogCommandError::Log(DayLogError::Unreachable)),
    }
}

// The last whole record of a copy, if there is one.
fn last_whole<R: AllocGlobal + Files<File = fs::File>>(
    rt: &R,
    path: &str,
) -> Result<Option<LogRecord>, LogCommandError> {
    for size in TAILS {
        let Ok(tail) = tail_of(rt, path, size) else {
            return Err(failed(rt, path));
        };
        if let Some(last) = last_record(rt, &tail)? {
            return Ok(Some(last));
        }
    }
    Ok(None)
}

// The last bytes of a file, at most `most`, from the first record on that begins among them.
fn tail_of<R: AllocGlobal + Files<File = fs::File>>(
    rt: &R,
    path: &str,
    most: u64,
) -> io::Result<Vec<u8>> {
    let mut file = fs::File::open(rt, path)?;
    let size = file.seek(SeekFrom::End(0))?;
    let from = size.saturating_sub(most);
    file.seek(SeekFrom::Start(from))?;
    let mut bytes = Vec::new(rt.alloc());
    file.read_to_end(&mut bytes)?;
    let cut = if from == 0 { 0 } else { first_mark(&bytes) };
    let end = bytes.iter().position(|b| *b == 0).unwrap_or(bytes.len());
    Ok(Vec::from_slice(rt.alloc(), &bytes[cut.min(end)..end])?)
}

// The offset of the first line that begins a record; the end of the text if there is none.
fn first_mark(text: &[u8]) -> usize {
    match text.windows(2).position(|pair| pair == b"\n#".as_slice()) {
        Some(at) => at.saturating_add(1).min(text.len()),
        None => text.len(),
    }
}

// The last whole record of the end of a copy, if there is one.
fn last_record<R: AllocGlobal>(rt: &R, tail: &[u8]) -> Result<Option<LogRecord>, LogCommandError> {
    match read_records(rt.alloc(), tail) {
        Ok(mut found) => Ok(found.records.pop()),
        Err(hx_fenced_log::RecordsError::NoMemory) => Err(LogCommandError::NoMemory),
        Err(hx_fenced_log::RecordsError::Damaged { .. }) => Ok(None),
    }
}

/// Opens the file of a copy for this process alone, or makes it for its user alone, and shows the log what the copy
/// has. What stands after its last whole record is cut off, and the file is at its end.
///
/// Errors: another process has it open; it is no copy of this log, and is not touched; it can't be read or cut.
pub fn open_copy<R: AllocGlobal + Files<File = fs::File> + Net<Stream = TcpStream>, N: Nodes>(
    rt: &R,
    nodes: &[SocketAddr],
    path: &str,
    log: &mut EtcdLog<N>,
) -> Result<fs::File, LogCommandError> {
    let file = match open_alone(rt, path) {
        Ok(file) => file,
        Err(FileError::InUse) => return Err(LogCommandError::CopyInUse),
        Err(FileError::Io(_)) => return Err(failed(rt, path)),
    };
    check_copy(rt, nodes, path)?;
    let mut pages = TextPages::new(rt.alloc(), file);
    tell_all(rt, &mut pages, log)?;
    if log.len() == 0 && !is_begun(pages.rest()) {
        return Err(foreign(rt, path));
    }
    let len = pages.len();
    let mut file = pages.into_reader();
    match cut_after(&mut file, len) {
        Ok(()) => Ok(file),
        Err(_) => Err(failed(rt, path)),
    }
}

// Opens a file for this process alone. Its name is on the disk.
fn open_alone<R: Files<File = fs::File>>(rt: &R, path: &str) -> Result<fs::File, FileError> {
    let file = OpenOptions::new()
        .read(true)
        .write(true)
        .create(true)
        .mode(0o600)
        .open(rt, path)?;
    file.try_lock()?;
    file.sync_all()?;
    let folder = match Path::new(path).parent() {
        Some(folder) if !folder.as_str().is_empty() => folder,
        _ => Path::new("."),
    };
    fs::File::open(rt, folder)?.sync_all()?;
    Ok(file)
}

// Gives a log all records of a copy.
fn tell_all<R: AllocGlobal, N: Nodes>(
    rt: &R,
    pages: &mut TextPages<fs::File>,
    log: &mut EtcdLog<N>,
) -> Result<(), LogCommandError> {
    for _ in 0..MOST_PAGES {
        let number = log.len().saturating_add(1);
        let page = match pages.next(rt.alloc(), 1) {
            Ok(page) => page,
            Err(PageError::NoMemory) => return Err(LogCommandError::NoMemory),
            Err(PageError::Failed) => return Err(LogCommandError::Log(DayLogError::BadCopy {
                number,
            })),
        };
        if page.is_empty() {
            break;
        }
        if let Err(error) = log.tell(page) {
            return Err(LogCommandError::Log(DayLogError::from(error)));
        }
    }
    Ok(())
}

// Whether a text without whole records may be what was written of a first one: nothing, or a mark and numbers.
fn is_begun(text: &[u8]) -> bool {
    match text.split_first() {
        None => true,
        Some((first, rest)) => {
            let mut front = rest.iter().take_while(|b| **b != b'\n');
            *first == b'#' && front.all(|b| *b == b' ' || b.is_ascii_digit())
        }
    }
}

// Cuts a file to `len` bytes, and goes on there.
fn cut_after(file: &mut fs::File, len: u64) -> io::Result<()> {
    file.set_len(len)?;
    file.seek(SeekFrom::Start(len))?;
    file.sync_all()
}
