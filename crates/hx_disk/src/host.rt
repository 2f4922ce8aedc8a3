//! A journal's file in a folder of the system.
//!
//! Trusted: that each method makes the call that it is named after, and that the system keeps what
//! `Device` says of it.
ghost use Rattle.std.specs.Prelude.{◌≡◌, IfOk};
ghost use Rattle.hx_disk.specs.Device.{Only};
ghost use Rattle.hx_disk.specs.Calls.{seen_of, leaves_of, faults_of};

use crate::{DeviceError, Noted, RawFile};
use std::fs::{OpenOptions, TryLockError};
use std::io::{ErrorKind, Read};
use std::os::fd::AsRawFd;
use std::os::unix::fs::{FileExt, OpenOptionsExt};
use std::path::Path;
use std::rt::Files;
use std::{fs, io};

/// An open file of the system.
#[derive(Drop)]
pub struct HostFile {
    file: fs::File,
}

impl RawFile for HostFile {
    fn write_at(&mut self, at: usize, bytes: &[u8]) -> Result<(), DeviceError> {
        reported(self.file.write_all_at(bytes, at as u64))
    }

    fn cut(&mut self, len: usize) -> Result<(), DeviceError> {
        reported(self.file.set_len(len as u64))
    }

    fn sync(&mut self) -> Result<(), DeviceError> {
        reported(self.file.sync_data())
    }
}

fn reported(answer: io::Result<()>) -> Result<(), DeviceError> {
    match answer {
        Ok(()) => Ok(()),
        Err(error) => match error.kind() {
            ErrorKind::StorageFull | ErrorKind::QuotaExceeded => Err(DeviceError::NoRoom),
            _ => Err(DeviceError::Failed),
        },
    }
}

/// Why a journal's file is not opened.
#[derive(Debug, Drop)]
pub enum FileError {
    Io(io::Error),
    /// Another process has the journal open, or another file of this one.
    InUse,
}

impl From<io::Error> for FileError {
    fn from(error: io::Error) -> Self {
        FileError::Io(error)
    }
}

impl From<TryLockError> for FileError {
    fn from(error: TryLockError) -> Self {
        match error {
            TryLockError::Error(error) => FileError::Io(error),
            TryLockError::WouldBlock => FileError::InUse,
        }
    }
}

impl HostFile {
    /// Opens a journal's file for this process alone, or makes it for its user alone, and reads it whole. The lock ends
    /// with the file. What is there is brought to the disk first, and the system's copy of it let go: after a sync that
    /// failed, or a process that was killed, it may be other than what the disk has.
    pub fn open<R: Files<File = fs::File> + AllocGlobal>(
        rt: &R,
        path: &str,
    ) -> Result<(HostFile, Vec<u8>), FileError> {
        let mut file = OpenOptions::new()
            .read(true)
            .write(true)
            .create(true)
            .mode(0o600)
            .open(rt, path)?;
        file.try_lock()?;
        file.sync_all()?;
        sync_folder(rt, path)?;
        forget_pages(&file)?;
        let mut bytes = Vec::new(rt.alloc());
        file.read_to_end(&mut bytes)?;
        Ok((HostFile { file }, bytes))
    }
}

/// Opens a journal's file for this process alone, as `HostFile::open` does, and notes its calls.
pub fn open_file<R: Files<File = fs::File> + AllocGlobal>(
    rt: &R,
    path: &str,
) -> Result<(Noted<HostFile>, Vec<u8>), FileError>
    ensures seen { IfOk result (λ r. r.1.items ≡ seen_of r.0.log.events) }
    ensures durable { IfOk result
        (λ r. Only (seen_of r.0.log.events) (leaves_of r.0.log.events)) }
    ensures well { IfOk result (λ r. faults_of r.0.log.events ≡ 0) }
{
    let (file, bytes) = HostFile::open(rt, path)?;
    let noted = Noted::opened(file, &bytes);
    Ok((noted, bytes))
}

// The next read is of the disk.
fn forget_pages(file: &fs::File) -> io::Result<()> {
    let advised = libc::posix_fadvise(file.as_raw_fd(), 0, 0, libc::POSIX_FADV_DONTNEED);
    if advised == 0 {
        Ok(())
    } else {
        Err(io::Error::from_raw_os_error(advised))
    }
}

// The folder says under which name the file is found.
fn sync_folder<R: Files<File = fs::File>>(rt: &R, path: &str) -> io::Result<()> {
    let folder = match Path::new(path).parent() {
        Some(folder) if !folder.as_str().is_empty() => folder,
        _ => Path::new("."),
    };
    fs::File::open(rt, folder)?.sync_all()
}
