//! A journal's file that waits for room, the words of its first line, and its faults.

use super::{equal, holds};
use hx_day_journal::{PatientFile, Syncs, date_of, day_of, digest_of};
use hx_journal::{DeviceError, RawFile};
use hx_serve::{Notice, NoticeSink};
use std::alloc::Global;
use std::process::Abort;
use std::sync::atomic::{AtomicU64, Ordering};

// A file in memory on a small disk, on which there is more room after some writes that found none.
#[derive(Drop)]
struct SmallDisk {
    bytes: Vec<u8>,
    room: usize,
    // The number of writes that find the file full.
    refused: u32,
    // How many bytes it had before it was last cut, and how many then.
    cut: (usize, usize),
    syncs: u32,
}

impl SmallDisk {
    fn new(rt: &HostRuntime, room: usize, refused: u32) -> SmallDisk {
        SmallDisk {
            bytes: Vec::new(rt.alloc()),
            room,
            refused,
            cut: (0, 0),
            syncs: 0,
        }
    }
}

impl RawFile for SmallDisk {
    fn write_at(&mut self, at: usize, bytes: &[u8]) -> Result<(), DeviceError> {
        self.bytes.truncate(at);
        for byte in bytes {
            if self.refused != 0 && self.bytes.len() >= self.room {
                self.refused -= 1;
                return Err(DeviceError::NoRoom);
            }
            self.bytes.push(*byte)?;
        }
        Ok(())
    }

    fn cut(&mut self, len: usize) -> Result<(), DeviceError> {
        self.cut = (self.bytes.len(), len);
        self.bytes.truncate(len);
        Ok(())
    }

    fn sync(&mut self) -> Result<(), DeviceError> {
        self.syncs = self.syncs.saturating_add(1);
        Ok(())
    }
}

// The notices, counted.
#[derive(Drop)]
struct Heard {
    waits: AtomicU64,
    goes_on: AtomicU64,
}

impl Heard {
    fn new() -> Heard {
        Heard {
            waits: AtomicU64::new(0),
            goes_on: AtomicU64::new(0),
        }
    }
}

impl NoticeSink for Heard {
    fn post(&self, notice: Notice) {
        let count = match notice {
            Notice::JournalWaits => &self.waits,
            _ => &self.goes_on,
        };
        count.fetch_add(1, Ordering::SeqCst);
    }
}

// What a write left that found no room is cut off again.
#[test]
fn a_full_disk_is_waited_for(rt: HostRuntime) {
    let heard = Heard::new();
    let disk = SmallDisk::new(&rt, 5, 2);
    let mut file = PatientFile::new(disk, 0, Syncs::Group, &heard, &rt);
    holds(&rt, file.write_at(0, b"abcd").is_ok());
    holds(&rt, file.write_at(4, b"efgh").is_ok());
    equal(&rt, file.file().bytes.as_slice(), b"abcdefgh".as_slice());
    equal(&rt, file.file().cut, (5, 4));
    equal(&rt, heard.waits.load(Ordering::SeqCst), 1);
    equal(&rt, heard.goes_on.load(Ordering::SeqCst), 1);
}

#[test]
fn a_group_is_synced_or_never(rt: HostRuntime) {
    let heard = Heard::new();
    let mut file = PatientFile::new(SmallDisk::new(&rt, 9, 0), 0, Syncs::Group, &heard, &rt);
    holds(&rt, file.sync().is_ok());
    equal(&rt, file.file().syncs, 1);
    let mut file = PatientFile::new(SmallDisk::new(&rt, 9, 0), 0, Syncs::Never, &heard, &rt);
    holds(&rt, file.sync().is_ok());
    equal(&rt, file.file().syncs, 0);
}

// A day since 1970 reads so.
fn reads<R: Abort>(rt: &R, alloc: Global, day: u64, wanted: &[u8]) {
    let date = date_of(alloc, day).expect(rt, "memory");
    equal(rt, date.as_slice(), wanted);
}

#[test]
fn a_date_is_its_day(rt: HostRuntime) {
    let alloc = rt.alloc();
    reads(&rt, alloc, 0, b"19700101");
    reads(&rt, alloc, 20_645, b"20260711");
    reads(&rt, alloc, u64::MAX, b"99991231");
    equal(&rt, day_of("20260711"), Some(20_645));
    equal(&rt, day_of("20240229"), Some(19_782));
    equal(&rt, day_of("20230229"), None);
    equal(&rt, day_of("19691231"), None);
    equal(&rt, day_of("2026071"), None);
}

// The digest of a setup's text is this.
fn digests<R: Abort>(rt: &R, alloc: Global, text: Option<&[u8]>, wanted: &[u8]) {
    let digest = digest_of(alloc, text).expect(rt, "memory");
    equal(rt, digest.as_slice(), wanted);
}

#[test]
fn a_digest_is_that_of_the_standard(rt: HostRuntime) {
    let alloc = rt.alloc();
    // FIPS 180-4's own example, the message "abc".
    let abc = b"ba7816bf8f01cfea414140de5dae2223b00361a396177a9cb410ff61f20015ad";
    digests(&rt, alloc, Some(b"abc"), abc);
    digests(&rt, alloc, None, b"standard");
}
