//! A cut of what stands after the last whole block.
ghost use Rattle.std.specs.Prelude.{◌≡◌, ◌↔◌, ◌+◌, ◌<◌, ◌≤◌, length, take, IfOk, IfSome, IsSome, IsNone};
ghost use mathlib.Core.List.{IsPrefix};
ghost use Rattle.hx_disk.specs.Device.{Only, LeavesOnly};
ghost use Rattle.hx_journal.specs.Lines.{text_of, lines_of};
ghost use Rattle.hx_journal.specs.Records.{sealed, recovered};
ghost use Rattle.hx_journal.specs.Surveys.{before_damage};

use crate::fault::ToolError;
use hx_journal::{Device, DeviceError, Survey, cut_off};

/// What was cut off a journal.
#[derive(Clone, Copy, Debug, PartialEq, Eq)]
pub struct Cut {
    /// The byte where the file ends now.
    pub at: usize,
    /// How many bytes were cut.
    pub bytes: usize,
    /// How many blocks among them were whole by themselves.
    pub blocks: usize,
}

/// Cuts what stands after the whole blocks that a survey of a file found, and syncs the cut; or
/// nothing, if there are zeros at most. A crash at any moment of the call leaves these blocks.
///
/// Errors: `NoJournal` if the file does not begin as a journal does; then nothing was cut.
/// `Journal` if the file failed.
pub fn cut_after<D: Device>(
    file: &mut D,
    text: &[u8],
    survey: &Survey<'_>,
) -> Result<Option<Cut>, ToolError>
    requires read { text.now ≡ D.seen file.old }
    requires inside { survey.now.end ≤ length text.now }
    requires front { take survey.now.end text.now
        ≡ text_of (sealed (lines_of (before_damage text.now survey.now.damage))) }
    requires durable { Only (D.seen file.old) (D.may_leave file.old) }
    requires well { D.faults file.old ≡ 0 }

    ensures nothing { (result ≡ Ok None)
        ↔ (IsNone survey.now.damage × (survey.now.torn ≡ 0)) }
    ensures no_journal { (result ≡ Err ToolError.NoJournal)
        ↔ (IsSome survey.now.damage × IsNone survey.now.head) }
    ensures same { result ≡ Ok None → file.new ≡ file.old }
    ensures refused { result ≡ Err ToolError.NoJournal → file.new ≡ file.old }
    ensures cut { IfOk result (λ o. IfSome o (λ cut. (cut.at ≡ survey.now.end)
        × (cut.at + cut.bytes ≡ length text.now)
        × (D.seen file.new ≡ take cut.at text.now))) }
    ensures retained { IfOk result (λ o. recovered (D.seen file.new)
        ≡ recovered (before_damage text.now survey.now.damage)) }
    ensures any_moment { LeavesOnly D.moment D.left_since file.old file.new (λ c.
        IsPrefix (recovered (before_damage text.now survey.now.damage)) (recovered c)) }
    ensures cause { result ≡ Err ToolError.Journal → D.faults file.old < D.faults file.new }
{
    if survey.damage.is_none() && survey.torn == 0 {
        return Ok(None);
    }
    if survey.damage.is_some() && survey.head.is_none() {
        return Err(ToolError::NoJournal);
    }
    match cut_off(file, text, survey) {
        Ok(()) => Ok(Some(Cut {
            at: survey.end,
            bytes: text.len() - survey.end,
            blocks: survey.whole_after,
        })),
        Err(DeviceError::Memory) => Err(ToolError::NoMemory),
        Err(_) => Err(ToolError::Journal),
    }
}
