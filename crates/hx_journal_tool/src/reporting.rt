//! How far a journal goes.

use crate::fault::ToolError;
use crate::words::Reported;
use hx_journal::{Survey, survey_of};
use std::alloc::Global;
use std::io::Write;

/// Writes how far the journal goes whose file has these bytes: a fact on each line. If it is
/// damaged, all of that is written, and the error names the byte.
pub fn report<W: Write>(alloc: Global, text: &[u8], writer: &mut W) -> Result<(), ToolError> {
    let survey = survey_of(alloc, text)?;
    if write!(writer, "{}", Reported(&survey)).is_err() || writer.flush().is_err() {
        return Err(ToolError::Write);
    }
    sound(&survey)
}

// The error at a damage.
fn sound(survey: &Survey<'_>) -> Result<(), ToolError> {
    match survey.damage {
        Some(at) => Err(ToolError::Damaged { at }),
        None => Ok(()),
    }
}
