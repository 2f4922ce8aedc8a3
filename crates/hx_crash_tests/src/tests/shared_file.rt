//! A file in memory that a test looks at when the journal over it is gone.

use hx_journal::{DeviceError, MemoryFile, RawFile};
use std::alloc::{AllocError, Global};
use std::cell::RefCell;
use std::ops::Range;
use std::process::Abort;
use std::rc::Rc;

/// A file in memory with several owners: a journal, and the test.
#[derive(Drop)]
pub struct SharedFile {
    file: Rc<RefCell<MemoryFile>>,
    // What its calls answer once they fail.
    fault: DeviceError,
}

impl SharedFile {
    /// A file with these bytes, all of them on the disk. After this number of calls each one answers this fault, and
    /// does nothing.
    pub fn new(
        alloc: Global,
        bytes: &[u8],
        calls: u64,
        fault: DeviceError,
    ) -> Result<SharedFile, AllocError> {
        let file = MemoryFile::new(alloc, bytes, calls)?;
        Ok(SharedFile {
            file: Rc::new(alloc, RefCell::new(file))?,
            fault,
        })
    }

    /// The same file once more.
    pub fn again(&self) -> Result<SharedFile, AllocError> {
        Ok(SharedFile {
            file: self.file.clone()?,
            fault: self.fault,
        })
    }

    /// What a crash now may leave; the first is what was synced. If something was written since, it may be there whole,
    /// or cut in the middle, or without its first or its last half.
    pub fn left<R: Abort>(&self, rt: &R, alloc: Global) -> Vec<Vec<u8>> {
        let Ok(file) = self.file.try_borrow() else {
            panic!(rt; "the file is in use");
        };
        let (synced, written) = (file.stable_len(), file.bytes().len());
        let mut left = Vec::new(alloc);
        put_torn(rt, alloc, &mut left, &file, synced, 0..0);
        if synced < written {
            let middle = synced + (written - synced) / 2;
            put_torn(rt, alloc, &mut left, &file, written, 0..written);
            put_torn(rt, alloc, &mut left, &file, middle, 0..middle);
            put_torn(rt, alloc, &mut left, &file, written, 0..middle);
            put_torn(rt, alloc, &mut left, &file, written, middle..written);
        }
        left
    }
}

// One more that a crash may leave: of this length, with this part of what was written.
fn put_torn<R: Abort>(
    rt: &R,
    alloc: Global,
    left: &mut Vec<Vec<u8>>,
    file: &MemoryFile,
    len: usize,
    part: Range<usize>,
) {
    let torn = file.torn(alloc, len, part).expect(rt, "a file");
    left.push(torn).expect(rt, "a place");
}

impl RawFile for SharedFile {
    fn write_at(&mut self, at: usize, bytes: &[u8]) -> Result<(), DeviceError> {
        match self.file.try_borrow_mut() {
            Ok(mut file) => first_fault(file.write_at(at, bytes), self.fault),
            Err(_) => Err(DeviceError::Failed),
        }
    }

    fn cut(&mut self, len: usize) -> Result<(), DeviceError> {
        match self.file.try_borrow_mut() {
            Ok(mut file) => first_fault(file.cut(len), self.fault),
            Err(_) => Err(DeviceError::Failed),
        }
    }

    fn sync(&mut self) -> Result<(), DeviceError> {
        match self.file.try_borrow_mut() {
            Ok(mut file) => first_fault(file.sync(), self.fault),
            Err(_) => Err(DeviceError::Failed),
        }
    }
}

// A call that fails answers this fault.
fn first_fault(answer: Result<(), DeviceError>, fault: DeviceError) -> Result<(), DeviceError> {
    match answer {
        Err(DeviceError::Failed) => Err(fault),
        other => other,
    }
}
