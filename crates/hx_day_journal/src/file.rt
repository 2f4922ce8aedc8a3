//! A file that waits for room.

use hx_journal::{DeviceError, RawFile};
use hx_serve::{Notice, NoticeSink};
use std::thread;
use std::time::{Clock, Duration, Instant};

// The interval, in milliseconds, at which a full disk is tried again.
const AGAIN: u64 = 500;

/// When what was written is brought to the disk.
#[derive(Clone, Copy, Debug, PartialEq, Eq)]
pub enum Syncs {
    /// After each group of records, before any of it is published: a machine that loses power loses nothing that was
    /// published.
    Group,
    /// Whenever the system likes: a process that is killed loses nothing that was published, a machine that loses power
    /// may.
    Never,
}

/// A journal's file, whose writes wait while the disk has no room. What such a write left after the end of the file is
/// cut off again, so that an operator who makes room finds a sound file. A write that waits is one write still: until
/// the next sync each byte of it is the old one or the new one, or is not there.
#[derive(Drop)]
pub struct PatientFile<'a, F, B, T> {
    file: F,
    // How many bytes it has.
    len: usize,
    syncs: Syncs,
    notice_sink: &'a B,
    rt: &'a T,
}

impl<'a, F: RawFile + Drop, B: NoticeSink, T: Clock> PatientFile<'a, F, B, T> {
    /// A file of `len` bytes. The notice sink gets a notice when a write waits, and when it goes on, and how long each
    /// sync took.
    pub fn new(file: F, len: usize, syncs: Syncs, notice_sink: &'a B, rt: &'a T) -> Self {
        PatientFile {
            file,
            len,
            syncs,
            notice_sink,
            rt,
        }
    }

    /// The file.
    pub fn file(&self) -> &F {
        &self.file
    }

    // Cuts off what a write left that found no room, and waits a while.
    fn wait_for_room(&mut self, first: bool) -> Result<(), DeviceError> {
        if first {
            self.notice_sink.post(Notice::JournalWaits);
        }
        self.file.cut(self.len)?;
        thread::sleep(self.rt, Duration::from_millis(AGAIN));
        Ok(())
    }
}

impl<'a, F: RawFile + Drop, B: NoticeSink, T: Clock> RawFile for PatientFile<'a, F, B, T> {
    fn write_at(&mut self, at: usize, bytes: &[u8]) -> Result<(), DeviceError> {
        for turn in 0..u64::MAX {
            match self.file.write_at(at, bytes) {
                Ok(()) => {
                    if turn != 0 {
                        self.notice_sink.post(Notice::JournalGoesOn);
                    }
                    self.len = self.len.max(at.saturating_add(bytes.len()));
                    return Ok(());
                }
                Err(DeviceError::NoRoom) => self.wait_for_room(turn == 0)?,
                Err(error) => return Err(error),
            }
        }
        Err(DeviceError::NoRoom)
    }

    fn cut(&mut self, len: usize) -> Result<(), DeviceError> {
        self.file.cut(len)?;
        self.len = len;
        Ok(())
    }

    fn sync(&mut self) -> Result<(), DeviceError> {
        match self.syncs {
            Syncs::Group => {
                let begun = Instant::now(self.rt);
                self.file.sync()?;
                if let Ok(begun) = begun
                    && let Ok(time) = begun.elapsed(self.rt)
                {
                    let nanoseconds = u64::try_from(time.as_nanos()).unwrap_or(u64::MAX);
                    self.notice_sink.synced(nanoseconds);
                }
                Ok(())
            }
            Syncs::Never => Ok(()),
        }
    }
}
