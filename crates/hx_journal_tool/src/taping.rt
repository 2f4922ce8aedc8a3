//! The history of a journal, as a tape.
ghost use Rattle.std.specs.Prelude.{◌≡◌, ℕ, take, OnOk, IfErr};
ghost use Rattle.std.specs.Io.KnownBytes.{Appends};
ghost use Rattle.hx_journal.specs.Lines.{text_of};
ghost use Rattle.hx_journal.specs.Records.{recovered};

use crate::fault::ToolError;
use hx_journal::survey_of;
use std::alloc::Global;
use std::io::Write;

/// Writes the records of the whole blocks of a journal whose file has these bytes, as a tape. If
/// it is damaged, those in front of the damage are written, and the error names its byte.
pub fn write_tape<W: Write>(alloc: Global, text: &[u8], writer: &mut W) -> Result<(), ToolError>
    ensures whole { OnOk result (Appends (W.contents writer.old) (W.contents writer.new)
        (text_of (recovered text.now))) }
    ensures damaged { IfErr result (λ e. (at : ℕ) → e ≡ ToolError.Damaged at
        → Appends (W.contents writer.old) (W.contents writer.new)
        (text_of (recovered (take at text.now)))) }
{
    let survey = survey_of(alloc, text)?;
    if writer.write_all(&survey.tape).is_err() || writer.flush().is_err() {
        return Err(ToolError::Write);
    }
    match survey.damage {
        Some(at) => Err(ToolError::Damaged { at }),
        None => Ok(()),
    }
}
