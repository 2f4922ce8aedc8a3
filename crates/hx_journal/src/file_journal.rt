//! The journal of a day in a file.
ghost use Rattle.std.specs.Prelude.{◌≡◌, length, true, false, IfErr, OnOk, OnErr, IsErrOf};
ghost use Rattle.hx_disk.specs.Device.{LeavesOnly};
ghost use Rattle.hx_journal.specs.Errors.{IsCause};
ghost use Rattle.hx_journal.specs.Records.{records_of, ReadsAlike};
ghost use Rattle.hx_journal.specs.Files.{stored, appended};

use crate::line_file::LineFile;
use crate::mark::spell_mark;
use crate::{Device, Journal, JournalError};
use std::alloc::Global;
use std::marker::Model;

/// The journal of a day in a file: a first line that says of which day, and blocks of records, each with a line after
/// it that has its sum.
#[derive(Drop)]
pub struct FileJournal<D: Device> {
    pub(crate) lines: LineFile<D>,
    // How many records are on the disk.
    pub(crate) records: usize,
    // The sum of the last block.
    pub(crate) sum: u32,
    // The line that ends a block. Its memory is reused from one block to the next.
    pub(crate) mark: Vec<u8>,
}

impl<D: Device> Model for FileJournal<D> {
    ghost use Rattle.std.specs.Prelude.{◌≡◌, true};
    ghost use Rattle.hx_journal.specs.Files.{LineFileState};
    ghost use Rattle.hx_journal.specs.Blocks.{IsSealed};

    ghost Value = { LineFileState D };

    ghost view = { λ j. j.lines };

    ghost invariant = { λ j. j.lines.is_open ≡ true → IsSealed D.seen j.lines j.records };
}

impl<D: Device> Journal for FileJournal<D> {
    ghost use Rattle.hx_journal.specs.Blocks.{left_of};

    ghost appended = { λ j. records_of (appended D.seen j) };

    ghost durable = { λ j. records_of (stored D.seen j) };

    ghost is_open = { λ j. j.is_open };

    ghost faults = { λ j. D.faults j.device };

    ghost moment = { λ j. D.moment j.device };

    ghost left_since = { λ j t records. left_of (D.left_since j.device) t records };

    fn append(&mut self, bytes: &[u8]) -> Result<(), JournalError> {
        self.lines.append(bytes)
    }

    fn sync(&mut self) -> Result<(), JournalError> {
        if !self.lines.is_open() {
            return Err(JournalError::Closed);
        }
        let records = self.lines.waiting();
        if records == 0 {
            return self.lines.sync();
        }
        let first = self.records as u64 + 1;
        let sum = spell_mark(&mut self.mark, first, self.lines.group(), self.sum)?;
        self.lines.append(&self.mark)?;
        self.lines.sync()?;
        self.records += records;
        self.sum = sum;
        Ok(())
    }

    fn is_quick(&self) -> bool {
        false
    }

    fn stands(&self) {
        let _ = &self.records;
        self.lines.stands();
    }
}

impl<D: Device> FileJournal<D> {
    /// How many records are on the disk.
    pub fn count(&self) -> usize
        ensures { self.now.is_open ≡ true → result ≡ length (records_of (stored D.seen self.now)) }
    {
        self.records
    }

    /// How many records wait for the next sync.
    pub fn waiting(&self) -> usize
        ensures { self.now.is_open ≡ true → result ≡ length self.now.waiting }
    {
        self.lines.waiting()
    }

    /// Whether no sync has failed.
    pub fn is_open(&self) -> bool
        ensures { result ≡ self.now.is_open }
    {
        self.lines.is_open()
    }

    /// Writes `len` zeros after the blocks and syncs, so that the blocks to come lie in a file that needs no growth:
    /// their syncs are cheaper then. After a device's `Err` the journal is closed.
    pub fn zeros_ahead(&mut self, alloc: Global, len: usize) -> Result<(), JournalError>
        ensures same { OnOk result ((self.new.is_open ≡ true)
            × (stored D.seen self.new ≡ stored D.seen self.old)
            × (self.new.waiting ≡ self.old.waiting)) }
        ensures was_open { OnOk result (self.old.is_open ≡ true) }
        ensures refused { OnErr result (self.new.is_open ≡ true → self.new ≡ self.old) }
        ensures closed { IsErrOf result JournalError.Closed → self.old.is_open ≡ false }
        ensures cause { IfErr result (λ e.
            IsCause (D.faults self.old.device) (D.faults self.new.device) e) }

        // After a crash at any moment the same records are read.
        ensures any_moment { self.old.is_open ≡ true → LeavesOnly D.moment D.left_since
            self.old.device self.new.device (ReadsAlike (D.seen self.old.device)) }
    {
        self.lines.zeros_ahead(alloc, len)?;
        Ok(())
    }

    /// The file.
    pub fn device(&self) -> &D
        ensures { result.now ≡ self.now.device }
    {
        self.lines.device()
    }
}
