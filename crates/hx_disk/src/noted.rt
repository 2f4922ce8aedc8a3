//! A file whose calls are noted for contracts.
ghost use Rattle.std.specs.Prelude.{◌≡◌, length};
ghost use Rattle.hx_disk.specs.Device.{Only};
ghost use Rattle.hx_disk.specs.Calls.{seen_of, leaves_of, left_of, faults_of, counts_now_of, only_now_of};

use crate::{CallLog, Device, DeviceError};

/// The calls of a file as the system answers them: nothing is promised.
pub trait RawFile {
    /// Writes all the bytes at an offset, over what is there and past the end.
    fn write_at(&mut self, at: usize, bytes: &[u8]) -> Result<(), DeviceError>;

    /// Cuts the file to a length.
    fn cut(&mut self, len: usize) -> Result<(), DeviceError>;

    /// Brings what was written and cut to the disk.
    fn sync(&mut self) -> Result<(), DeviceError>;
}

// The kinds of calls, as they are noted.
const OPENED: u64 = 0;

const WROTE: u64 = 1;

const CUT: u64 = 2;

const SYNCED: u64 = 3;

/// A file and a note of each of its calls. As a device it stands for an honest file: that the
/// system's is one, no proof says.
#[derive(Drop)]
pub struct Noted<F: RawFile> {
    file: F,
    log: CallLog,
}

impl<F: RawFile> Noted<F> {
    /// A file that has these bytes, all of them on the disk.
    pub fn opened(file: F, bytes: &[u8]) -> Noted<F>
        ensures seen { seen_of result.log.events ≡ bytes.now }
        ensures durable { Only bytes.now (leaves_of result.log.events) }
        ensures well { faults_of result.log.events ≡ 0 }
    {
        let mut log = CallLog::new();
        log.note(&[OPENED, 0, 1], bytes);
        Noted { file, log }
    }

    /// The file.
    pub fn file(&self) -> &F {
        &self.file
    }
}

impl<F: RawFile> Device for Noted<F> {
    ghost seen = { λ d. seen_of d.log.events };

    ghost may_leave = { λ d c. leaves_of d.log.events c };

    ghost moment = { λ d. length d.log.events };

    ghost left_since = { λ d t c. left_of d.log.events t c };

    ghost faults = { λ d. faults_of d.log.events };

    ghost counts_now = { λ d t c le now. counts_now_of d.log.events t c now };

    ghost only_now = { λ d c left. only_now_of d.log.events c left };

    fn write_at(&mut self, at: usize, bytes: &[u8]) -> Result<(), DeviceError> {
        let answer = self.file.write_at(at, bytes);
        match answer {
            Ok(()) => self.log.note(&[WROTE, at as u64, 1], bytes),
            Err(_) => self.log.note(&[WROTE, at as u64, 0], bytes),
        }
        answer
    }

    fn cut(&mut self, len: usize) -> Result<(), DeviceError> {
        let answer = self.file.cut(len);
        match answer {
            Ok(()) => self.log.note(&[CUT, len as u64, 1], &[]),
            Err(_) => self.log.note(&[CUT, len as u64, 0], &[]),
        }
        answer
    }

    fn sync(&mut self) -> Result<(), DeviceError> {
        let answer = self.file.sync();
        match answer {
            Ok(()) => self.log.note(&[SYNCED, 0, 1], &[]),
            Err(_) => self.log.note(&[SYNCED, 0, 0], &[]),
        }
        answer
    }
}
