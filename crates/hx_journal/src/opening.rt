//! How a journal is opened: its blocks are read and checked, and a torn end is cut off.
ghost use Rattle.std.specs.Prelude.{◌≡◌, ◌↔◌, ◌≤◌, ◌^◌, [], ◌∷◌, List, ℕ, length, take, true, IsTrue, IfOk, IfErr, OnOk};
ghost use mathlib.Core.List.{IsPrefix};
ghost use Rattle.hx_disk.specs.Device.{Only, LeavesOnly};
ghost use Rattle.hx_journal.specs.Lines.{text_of, lines_of};
ghost use Rattle.hx_journal.specs.Records.{sealed, recovered, ReadsAlike};
ghost use Rattle.hx_journal.specs.Errors.{IsCause};
ghost use Rattle.hx_journal.specs.Files.{stored, HasFromTo};
ghost use Rattle.hx_journal.specs.Openings.{IsOpened, IsRefusal, NamesOther, IsOpenCause};

use crate::blocks::check;
use crate::line_file::{LineFile, MOST_BYTES};
use crate::measure::measure;
use crate::open_error::OpenError;
use crate::sum::crc32;
use crate::tape::tape_of;
use crate::{Device, FileJournal, Head, JournalError};
use hx_units::split_once;
use std::alloc::Global;

impl<D: Device> FileJournal<D> {
    /// Opens a file of which all is on the disk, with its bytes, as the journal of a day: gives it with its records, as
    /// a tape. A file that is new, or whose first line was torn, gets its first line. What a crash left after the last
    /// whole block is cut off, since no sync of it was answered. A crash at any moment of the call changes nothing of
    /// what is read. `Err` gives the file back.
    ///
    /// Errors: `Damaged` if the file is not as the journal wrote it, before its torn end, and
    /// `OtherHead` if it is that of another day; then nothing was written. `Journal` if
    /// memory lacks or the device failed.
    pub fn open(
        alloc: Global,
        device: D,
        text: &[u8],
        head: &Head,
    ) -> Result<(FileJournal<D>, Vec<u8>), (OpenError, D)>
        requires read { text.now ≡ D.seen device }
        requires durable { Only (D.seen device) (D.may_leave device) }
        requires well { D.faults device ≡ 0 }

        ensures opened { IfOk result (λ r.
            IsOpened D.seen (D.seen device) head.now r.1.items r.0) }

        // After a crash at any moment the same records are read.
        ensures any_moment { IfOk result (λ r. LeavesOnly D.moment D.left_since
            device r.0.device (ReadsAlike (D.seen device))) }
        ensures any_moment_err { IfErr result (λ e. LeavesOnly D.moment D.left_since
            device e.1 (ReadsAlike (D.seen device))) }

        ensures untouched { IfErr result (λ e. IsRefusal e.0 → e.1 ≡ device) }
        ensures other { IfErr result (λ e. NamesOther (D.seen device) head.now e.0) }
        ensures cause { IfErr result (λ e. IsOpenCause (D.faults device) (D.faults e.1) e.0) }
    {
        let (end, count) = measure(text);
        if end == 0 {
            begin(alloc, device, text, head)
        } else {
            resume(alloc, device, text, end, count, head)
        }
    }
}

// Makes a journal of a file that has no whole block.
fn begin<D: Device>(
    alloc: Global,
    device: D,
    text: &[u8],
    head: &Head,
) -> Result<(FileJournal<D>, Vec<u8>), (OpenError, D)>
    requires empty { sealed (lines_of (D.seen device)) ≡ [] }
    requires durable { Only (D.seen device) (D.may_leave device) }
    requires well { D.faults device ≡ 0 }

    ensures opened { IfOk result (λ r. IsOpened D.seen (D.seen device) head.now r.1.items r.0) }
    ensures any_moment { IfOk result (λ r. LeavesOnly D.moment D.left_since
        device r.0.device (ReadsAlike (D.seen device))) }
    ensures any_moment_err { IfErr result (λ e. LeavesOnly D.moment D.left_since
        device e.1 (ReadsAlike (D.seen device))) }
    ensures untouched { IfErr result (λ e. IsRefusal e.0 → e.1 ≡ device) }
    ensures other { IfErr result (λ e. NamesOther (D.seen device) head.now e.0) }
    ensures cause { IfErr result (λ e. IsOpenCause (D.faults device) (D.faults e.1) e.0) }
{
    if !head.may_be_torn_to(text) {
        return Err((OpenError::Damaged { at: 0 }, device));
    }
    let sum = crc32(0, head.line());
    let mut lines = match LineFile::open(alloc, device, 0, 0) {
        Ok(lines) => lines,
        Err((error, device)) => return Err((OpenError::Journal(JournalError::from(error)), device)),
    };
    if let Err(error) = write_head(&mut lines, head) {
        return Err((OpenError::Journal(error), lines.into_device()));
    }
    let journal = FileJournal {
        lines,
        records: 0,
        sum,
        mark: Vec::new(alloc),
    };
    Ok((journal, Vec::new(alloc)))
}

// Writes the first line.
fn write_head<D: Device>(lines: &mut LineFile<D>, head: &Head) -> Result<(), JournalError>
    requires open { lines.old.is_open ≡ true }
    requires empty { stored D.seen lines.old ≡ [] }
    requires waiting { lines.old.waiting ≡ [] }

    ensures open { OnOk result (lines.new.is_open ≡ true) }
    ensures stored { OnOk result (stored D.seen lines.new ≡ head.now ∷ []) }
    ensures waiting { OnOk result (lines.new.waiting ≡ []) }
    ensures any_moment { LeavesOnly D.moment D.left_since lines.old.device lines.new.device
        (HasFromTo [] (head.now ∷ [])) }
    ensures cause { IfErr result (λ e.
        IsCause (D.faults lines.old.device) (D.faults lines.new.device) e) }
{
    lines.stands();
    lines.append(head.line())?;
    lines.sync()
}

// Goes on with a file that has whole blocks up to an offset, `count` lines.
fn resume<D: Device>(
    alloc: Global,
    device: D,
    text: &[u8],
    end: usize,
    count: usize,
    head: &Head,
) -> Result<(FileJournal<D>, Vec<u8>), (OpenError, D)>
    requires read { text.now ≡ D.seen device }
    requires inside { end ≤ length text.now }
    requires front { take end text.now ≡ text_of (sealed (lines_of text.now)) }
    requires count { count ≡ length (sealed (lines_of text.now)) }
    requires durable { Only (D.seen device) (D.may_leave device) }
    requires well { D.faults device ≡ 0 }

    ensures opened { IfOk result (λ r. IsOpened D.seen (D.seen device) head.now r.1.items r.0) }
    ensures any_moment { IfOk result (λ r. LeavesOnly D.moment D.left_since
        device r.0.device (ReadsAlike (D.seen device))) }
    ensures any_moment_err { IfErr result (λ e. LeavesOnly D.moment D.left_since
        device e.1 (ReadsAlike (D.seen device))) }
    ensures untouched { IfErr result (λ e. IsRefusal e.0 → e.1 ≡ device) }
    ensures other { IfErr result (λ e. NamesOther (D.seen device) head.now e.0) }
    ensures cause { IfErr result (λ e. IsOpenCause (D.faults device) (D.faults e.1) e.0) }
{
    let Blocks { tape, records, sum } = match examine(alloc, text, end, head) {
        Ok(found) => found,
        Err(error) => return Err((error, device)),
    };
    match LineFile::open(alloc, device, end, count) {
        Ok(lines) => {
            let mark = Vec::new(alloc);
            let journal = FileJournal {
                lines,
                records,
                sum,
                mark,
            };
            Ok((journal, tape))
        }
        Err((error, device)) => Err((OpenError::Journal(JournalError::from(error)), device)),
    }
}

// The blocks of a file: their records as a tape, how many these are, and the sum of the last block.
#[derive(Drop)]
struct Blocks {
    tape: Vec<u8>,
    records: usize,
    sum: u32,
}

// Reads the blocks up to an offset, and checks that they are those of this day, as they were written, and that no whole
// block stands after them.
fn examine(alloc: Global, text: &[u8], end: usize, head: &Head) -> Result<Blocks, OpenError>
    requires inside { end ≤ length text.now }
    requires front { take end text.now ≡ text_of (sealed (lines_of text.now)) }

    ensures small { OnOk result (end ≤ 2 ^ 62) }
    ensures head { OnOk result (IsPrefix (head.now ∷ []) (sealed (lines_of text.now))) }
    ensures tape { IfOk result (λ r. r.tape.items ≡ text_of (recovered text.now)) }
    ensures count { IfOk result (λ r. r.records ≡ length (recovered text.now)) }
    ensures other { IfErr result (λ e. NamesOther text.now head.now e) }
    ensures cause { (before now : ℕ) → IfErr result (λ e. IsOpenCause before now e) }
{
    if end > MOST_BYTES {
        return Err(OpenError::Journal(JournalError::Full));
    }
    let blocks = &text[..end];
    let Some((first, rest)) = split_once(blocks, b'\n') else {
        return Err(OpenError::Damaged { at: 0 });
    };
    if !is_head(first, head) {
        return Err(OpenError::of_head(head.other_part(first)));
    }
    let sum = match check(alloc, first, rest, &text[end..]) {
        Ok(sum) => sum,
        Err(error) => return Err(error),
    };
    let (tape, records) = tape_of(alloc, blocks)?;
    Ok(Blocks { tape, records, sum })
}

// Whether a line is this head.
fn is_head(line: &[u8], head: &Head) -> bool
    ensures { IsTrue result ↔ (line.now ≡ head.now) }
{
    line == head.line()
}
