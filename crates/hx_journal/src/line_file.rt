//! A file of lines, which outlives a crash.
ghost use Rattle.std.specs.Prelude.{◌≡◌, ◌+◌, ◌<◌, ◌≤◌, ◌^◌, ◌++◌, [], ◌∷◌, List, ℕ, length, take, slice_index, true, false, IfOk, IfErr, OnOk, OnErr, IsErrOf, vec_len};
ghost use Rattle.hx_disk.specs.Device.{Only, LeavesOnly};
ghost use Rattle.hx_journal.specs.Lines.{IsLine, text_of, lines_of};
ghost use Rattle.hx_journal.specs.Errors.{IsCause};
ghost use Rattle.hx_journal.specs.Files.{IsAtRest, stored, appended, HasBetween, HasThose, HasFromTo};

use crate::{Device, DeviceError, JournalError};
use std::alloc::{AllocError, Global};
use std::marker::Model;

/// No offset in a file is larger.
pub const MOST_BYTES: usize = 1 << 62;

/// The lines of a file, and those that wait for the next sync.
#[derive(Drop)]
pub struct LineFile<D: Device> {
    device: D,
    // The lines of the file end here; zeros may stand after them.
    end: usize,
    // The text of the lines that wait. Its memory is reused from one group to the next.
    group: Vec<u8>,
    count: usize,
    waiting: usize,
    is_open: bool,
}

impl<D: Device> Model for LineFile<D> {
    ghost use Rattle.std.specs.Prelude.{◌≡◌, true};
    ghost use Rattle.hx_journal.specs.Lines.{lines_of};
    ghost use Rattle.hx_journal.specs.Files.{LineFileState, IsSettled};

    ghost Value = { LineFileState D };

    ghost view = { λ j. record {
      device = j.device;
      waiting = lines_of j.group.items;
      is_open = j.is_open;
    } };

    ghost invariant = { λ j. j.is_open ≡ true → IsSettled D.seen D.may_leave D.faults
        j.device j.end j.group.items j.count j.waiting };
}

impl<D: Device> LineFile<D> {
    /// Opens a file of which all is on the disk. What stands after an offset, up to which it has whole lines, `count`
    /// of them, is cut off. `Err` gives the file back.
    pub fn open(
        alloc: Global,
        mut device: D,
        end: usize,
        count: usize,
    ) -> Result<LineFile<D>, (DeviceError, D)>
        requires small { end ≤ 2 ^ 62 }
        requires inside { end ≤ length (D.seen device) }
        requires front { take end (D.seen device) ≡ text_of (lines_of (take end (D.seen device))) }
        requires count { count ≡ length (lines_of (take end (D.seen device))) }
        requires durable { Only (D.seen device) (D.may_leave device) }
        requires well { D.faults device ≡ 0 }

        ensures open { IfOk result (λ r. r.is_open ≡ true) }
        ensures stored { IfOk result (λ r.
            stored D.seen r ≡ lines_of (take end (D.seen device))) }
        ensures waiting { IfOk result (λ r. r.waiting ≡ []) }

        // A crash at any moment leaves these lines, and nothing but a beginning of what was there.
        ensures any_moment { IfOk result (λ r. LeavesOnly D.moment D.left_since device r.device
            (HasFromTo (lines_of (take end (D.seen device))) (lines_of (D.seen device)))) }
        ensures any_moment_err { IfErr result (λ e. LeavesOnly D.moment D.left_since device e.1
            (HasFromTo (lines_of (take end (D.seen device))) (lines_of (D.seen device)))) }

        ensures failed { IfErr result (λ e.
            e.0 ≡ DeviceError.Failed → D.faults device < D.faults e.1) }
        ensures no_room { IfErr result (λ e.
            e.0 ≡ DeviceError.NoRoom → D.faults device < D.faults e.1) }
    {
        if let Err(error) = repair(&mut device, end) {
            return Err((error, device));
        }
        Ok(LineFile {
            device,
            end,
            group: Vec::new(alloc),
            count,
            waiting: 0,
            is_open: true,
        })
    }

    /// Adds a line to those that wait. It makes the room first, and touches no disk.
    pub fn append(&mut self, bytes: &[u8]) -> Result<(), JournalError>
        requires { IsLine bytes.now }

        ensures disk { self.new.device ≡ self.old.device }
        ensures same { self.new.is_open ≡ self.old.is_open }
        ensures added { OnOk result ((self.old.is_open ≡ true)
            × (self.new.waiting ≡ self.old.waiting ++ bytes.now ∷ [])) }
        ensures refused { OnErr result (self.new.waiting ≡ self.old.waiting) }

        ensures closed { IsErrOf result JournalError.Closed → self.old.is_open ≡ false }
        ensures failed { IsErrOf result JournalError.Failed → ⊥ }
        ensures no_room { IsErrOf result JournalError.NoRoom → ⊥ }
        ensures full { IsErrOf result JournalError.Full
            → 2 ^ 62 ≤ length (D.seen self.old.device)
            + length (text_of self.old.waiting) + length bytes.now }
    {
        if !self.is_open {
            return Err(JournalError::Closed);
        }
        let free = MOST_BYTES - self.end - self.group.len();
        if free <= bytes.len() {
            return Err(JournalError::Full);
        }
        push_line(&mut self.group, bytes)?;
        self.waiting += 1;
        Ok(())
    }

    /// Brings the lines that wait to the disk, by one write and one sync. At Ok each crash from
    /// then on leaves all of them. After an `Err` the file refuses everything: a sync that failed
    /// is not tried again.
    pub fn sync(&mut self) -> Result<(), JournalError>
        ensures synced { OnOk result ((self.new.is_open ≡ true)
            × (stored D.seen self.new ≡ appended D.seen self.old) × (self.new.waiting ≡ [])) }
        ensures was_open { OnOk result (self.old.is_open ≡ true) }
        ensures durable { OnOk result
            (Only (D.seen self.new.device) (D.may_leave self.new.device)) }
        ensures refused { OnErr result (self.new.is_open ≡ false) }

        // A crash at any moment of the call leaves a beginning of all lines, with at least those
        // that were stored.
        ensures any_moment { self.old.is_open ≡ true → LeavesOnly D.moment D.left_since
            self.old.device self.new.device (HasBetween D.seen self.old) }
        ensures closed { self.old.is_open ≡ false
            → (self.new.device ≡ self.old.device) × IsErrOf result JournalError.Closed }

        ensures cause { IfErr result (λ e.
            IsCause (D.faults self.old.device) (D.faults self.new.device) e) }
        ensures open { IsErrOf result JournalError.Closed → self.old.is_open ≡ false }
        ensures full { IsErrOf result JournalError.Full → ⊥ }
    {
        if !self.is_open {
            return Err(JournalError::Closed);
        }
        if self.group.is_empty() {
            return Ok(());
        }
        self.is_open = false;
        store(&mut self.device, self.end, &self.group)?;
        self.end += self.group.len();
        self.count += self.waiting;
        self.group.clear();
        self.waiting = 0;
        self.is_open = true;
        Ok(())
    }

    /// Writes `len` zeros after the lines and syncs, so that the groups to come lie in a file that needs no growth:
    /// their syncs are cheaper then. No lines change. After a device's `Err` the file refuses everything.
    pub fn zeros_ahead(&mut self, alloc: Global, len: usize) -> Result<(), JournalError>
        ensures same { OnOk result ((self.new.is_open ≡ true)
            × (stored D.seen self.new ≡ stored D.seen self.old)
            × (self.new.waiting ≡ self.old.waiting)) }
        ensures was_open { OnOk result (self.old.is_open ≡ true) }
        ensures refused { OnErr result (self.new.is_open ≡ true → self.new ≡ self.old) }

        // A crash at any moment leaves the lines that were stored.
        ensures any_moment { self.old.is_open ≡ true → LeavesOnly D.moment D.left_since
            self.old.device self.new.device (HasThose (D.seen self.old.device)) }
        ensures closed { self.old.is_open ≡ false
            → (self.new.device ≡ self.old.device) × IsErrOf result JournalError.Closed }

        ensures cause { IfErr result (λ e.
            IsCause (D.faults self.old.device) (D.faults self.new.device) e) }
        ensures open { IsErrOf result JournalError.Closed → self.old.is_open ≡ false }
        ensures full { IsErrOf result JournalError.Full → ⊥ }
    {
        if !self.is_open {
            return Err(JournalError::Closed);
        }
        let zeros = vec![in alloc; 0u8; len]?;
        self.is_open = false;
        lay(&mut self.device, self.end, &zeros)?;
        self.is_open = true;
        Ok(())
    }

    /// What stands in an open file is on the disk: a crash leaves just these lines. It does
    /// nothing.
    pub fn stands(&self)
        ensures durable { self.now.is_open ≡ true
            → Only (D.seen self.now.device) (D.may_leave self.now.device) }
        ensures well { self.now.is_open ≡ true → D.faults self.now.device ≡ 0 }
    {
        let _ = &self.device;
    }

    /// Whether nothing has failed.
    pub fn is_open(&self) -> bool
        ensures { result ≡ self.now.is_open }
    {
        self.is_open
    }

    /// How many lines are on the disk.
    pub fn count(&self) -> usize
        ensures { self.now.is_open ≡ true → result ≡ length (stored D.seen self.now) }
    {
        self.count
    }

    /// How many lines wait for the next sync.
    pub fn waiting(&self) -> usize
        ensures count { self.now.is_open ≡ true → result ≡ length self.now.waiting }
        ensures small { self.now.is_open ≡ true → length (stored D.seen self.now)
            + length self.now.waiting ≤ 2 ^ 62 }
    {
        self.waiting
    }

    /// The text of the lines that wait.
    pub fn group(&self) -> &[u8]
        ensures { self.now.is_open ≡ true → result.now ≡ text_of self.now.waiting }
    {
        &self.group
    }

    /// The file.
    pub fn device(&self) -> &D
        ensures { result.now ≡ self.now.device }
    {
        &self.device
    }

    /// The file, given out.
    pub fn into_device(self) -> D
        ensures { result ≡ self.device }
    {
        self.device
    }
}

/// Cuts a file of which all is on the disk after an offset, up to which it has whole lines, and syncs the cut. That has
/// to be so before anything is written there: what stood after the offset would come back between the bytes of the next
/// group.
pub(crate) fn repair<D: Device>(file: &mut D, end: usize) -> Result<(), DeviceError>
    requires inside { end ≤ length (D.seen file.old) }
    requires front { take end (D.seen file.old)
        ≡ text_of (lines_of (take end (D.seen file.old))) }
    requires durable { Only (D.seen file.old) (D.may_leave file.old) }
    requires well { D.faults file.old ≡ 0 }

    ensures seen { OnOk result (D.seen file.new ≡ take end (D.seen file.old)) }
    ensures at_rest { OnOk result (IsAtRest (D.seen file.new) end) }
    ensures stored { OnOk result
        (lines_of (D.seen file.new) ≡ lines_of (take end (D.seen file.old))) }
    ensures durable { OnOk result (Only (D.seen file.new) (D.may_leave file.new)) }
    ensures well { OnOk result (D.faults file.new ≡ 0) }
    ensures any_moment { LeavesOnly D.moment D.left_since file.old file.new
        (HasFromTo (lines_of (take end (D.seen file.old))) (lines_of (D.seen file.old))) }
    ensures failed { IsErrOf result DeviceError.Failed
        → D.faults file.old < D.faults file.new }
    ensures no_room { IsErrOf result DeviceError.NoRoom
        → D.faults file.old < D.faults file.new }
{
    file.cut(end)?;
    file.sync()?;
    Ok(())
}

// Writes text after the lines of a file, and syncs.
fn store<D: Device>(device: &mut D, end: usize, text: &[u8]) -> Result<(), DeviceError>
    requires at_rest { IsAtRest (D.seen device.old) end }
    requires durable { Only (D.seen device.old) (D.may_leave device.old) }
    requires well { D.faults device.old ≡ 0 }
    requires lines { text.now ≡ text_of (lines_of text.now) }

    ensures at_rest { OnOk result (IsAtRest (D.seen device.new) (end + length text.now)) }
    ensures stored { OnOk result (lines_of (D.seen device.new)
        ≡ lines_of (D.seen device.old) ++ lines_of text.now) }
    ensures durable { OnOk result (Only (D.seen device.new) (D.may_leave device.new)) }
    ensures well { OnOk result (D.faults device.new ≡ 0) }
    ensures any_moment { LeavesOnly D.moment D.left_since device.old device.new (HasFromTo
        (lines_of (D.seen device.old)) (lines_of (D.seen device.old) ++ lines_of text.now)) }
    ensures failed { IsErrOf result DeviceError.Failed
        → D.faults device.old < D.faults device.new }
    ensures no_room { IsErrOf result DeviceError.NoRoom
        → D.faults device.old < D.faults device.new }
{
    device.write_at(end, text)?;
    device.sync()?;
    Ok(())
}

// Writes zeros after the lines of a file, and syncs.
fn lay<D: Device>(disk: &mut D, end: usize, zeros: &[u8]) -> Result<(), DeviceError>
    requires at_rest { IsAtRest (D.seen disk.old) end }
    requires durable { Only (D.seen disk.old) (D.may_leave disk.old) }
    requires well { D.faults disk.old ≡ 0 }
    requires zeros { (i : ℕ) → slice_index zeros.now i ≡ 0 }

    ensures at_rest { OnOk result (IsAtRest (D.seen disk.new) end) }
    ensures stored { OnOk result (HasThose (D.seen disk.old) (D.seen disk.new)) }
    ensures durable { OnOk result (Only (D.seen disk.new) (D.may_leave disk.new)) }
    ensures well { OnOk result (D.faults disk.new ≡ 0) }
    ensures any_moment { LeavesOnly D.moment D.left_since disk.old disk.new
        (HasThose (D.seen disk.old)) }
    ensures failed { IsErrOf result DeviceError.Failed
        → D.faults disk.old < D.faults disk.new }
    ensures no_room { IsErrOf result DeviceError.NoRoom
        → D.faults disk.old < D.faults disk.new }
{
    disk.write_at(end, zeros)?;
    disk.sync()?;
    Ok(())
}

/// Adds a line, or nothing.
pub fn push_line(lines: &mut Vec<u8>, line: &[u8]) -> Result<(), AllocError>
    ensures ok { OnOk result (lines.new.items ≡ lines.old.items ++ line.now ++ 10 ∷ []) }
    ensures err { OnErr result (lines.new.items ≡ lines.old.items) }
{
    lines.reserve(line.len() + 1)?;
    lines.extend_from_slice(line)?;
    lines.push(b'\n')?;
    Ok(())
}
