//! A file in memory, for tests: it can fail at a call, and be torn.
use crate::{DeviceError, RawFile};
use std::alloc::{AllocError, Global};
use std::ops::Range;

/// What the file has, what it had at its last sync, and how many calls succeed from now on.
#[derive(Drop)]
pub struct MemoryFile {
    alloc: Global,
    bytes: Vec<u8>,
    stable: Vec<u8>,
    calls: u64,
}

impl MemoryFile {
    /// A file with these bytes, all of them on the disk. After this number of calls each one fails.
    pub fn new(alloc: Global, bytes: &[u8], calls: u64) -> Result<MemoryFile, AllocError> {
        Ok(MemoryFile {
            alloc,
            bytes: bytes.to_vec(alloc)?,
            stable: bytes.to_vec(alloc)?,
            calls,
        })
    }

    /// What is in the file, synced or not.
    pub fn bytes(&self) -> &[u8] {
        &self.bytes
    }

    /// One of the files that a crash may leave: a number of bytes, of which those in the range are as
    /// they were written and the others as they were at the last sync. A byte that is not there is
    /// zero.
    pub fn torn(
        &self,
        alloc: Global,
        len: usize,
        written: Range<usize>,
    ) -> Result<Vec<u8>, AllocError> {
        let mut image = Vec::new(alloc);
        for i in 0..len {
            let from = if written.contains(&i) {
                &self.bytes
            } else {
                &self.stable
            };
            image.push(byte(from, i))?;
        }
        Ok(image)
    }

    /// How long the file was at the last sync.
    pub fn stable_len(&self) -> usize {
        self.stable.len()
    }

    fn spend(&mut self) -> Result<(), DeviceError> {
        if self.calls == 0 {
            return Err(DeviceError::Failed);
        }
        self.calls -= 1;
        Ok(())
    }
}

fn byte(bytes: &[u8], i: usize) -> u8 {
    match bytes.get(i) {
        Some(b) => *b,
        None => 0,
    }
}

impl RawFile for MemoryFile {
    fn write_at(&mut self, at: usize, bytes: &[u8]) -> Result<(), DeviceError> {
        self.spend()?;
        let at = at.min(self.bytes.len());
        let mut after = Vec::new(self.alloc);
        if bytes.len() < self.bytes.len() - at {
            after.extend_from_slice(&self.bytes[at + bytes.len()..])?;
        }
        self.bytes.truncate(at);
        self.bytes.extend_from_slice(bytes)?;
        self.bytes.extend_from_slice(&after)?;
        Ok(())
    }

    fn cut(&mut self, len: usize) -> Result<(), DeviceError> {
        self.spend()?;
        self.bytes.truncate(len);
        Ok(())
    }

    fn sync(&mut self) -> Result<(), DeviceError> {
        self.spend()?;
        self.stable.clear();
        self.stable.extend_from_slice(&self.bytes)?;
        Ok(())
    }
}
