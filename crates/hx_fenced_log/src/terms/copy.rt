//! A copy of a log: the texts of its records, concatenated.
ghost use Rattle.std.specs.Prelude.{◌≡◌, ◌≤◌, ℕ, List, length, drop, IfOk, IfErr, IfSome, IfNone};
ghost use Rattle.hx_fenced_log.specs.Records.{Record};
ghost use Rattle.hx_fenced_log.specs.Copies.{BeginsNone, IsCut, AreAllWhole, IsRecordsFault, AreTaken};
ghost use Rattle.hx_fenced_log.specs.declared.terms.copy.RecordsError.TheVariants.{NoMemory};

use crate::terms::lines::is_mark;
use crate::{LogRecord, TextError, read_record};
use hx_units::split_once;
use std::alloc::{AllocError, AllocFailed, Global};

/// The records in front of a text that are known to be whole, since another begins after each.
#[derive(Drop)]
pub struct WholeRecords {
    /// The records.
    pub records: Vec<LogRecord>,
    /// How many bytes of the text they take.
    pub len: usize,
}

/// Why a text has no such records.
#[derive(Clone, Copy, Debug, PartialEq, Eq, Drop)]
pub enum RecordsError {
    /// After the first `index` records, what stands in front of the next one is none.
    Damaged {
        /// How many there are.
        index: u64,
        /// What is wrong with it.
        error: TextError,
    },
    /// A growth was refused.
    NoMemory,
}

impl From<AllocError> for RecordsError {
    ghost from_gives = { λ _ e. e ≡ NoMemory };

    fn from(_error: AllocError) -> RecordsError {
        RecordsError::NoMemory
    }
}

impl<T: Drop> From<AllocFailed<T>> for RecordsError {
    ghost from_gives = { λ _ e. e ≡ NoMemory };

    fn from(_error: AllocFailed<T>) -> RecordsError {
        RecordsError::NoMemory
    }
}

/// The records in front of a text after each of which another begins. The last record of a text is none of them: if the
/// text was cut off, it may lack lines.
///
/// Errors: the first thing that is wrong, from the front on; `NoMemory` of any text.
pub fn read_records(alloc: Global, text: &[u8]) -> Result<WholeRecords, RecordsError>
    ensures ok { IfOk result (λ found.
        AreAllWhole text.now found.records.items (drop found.len text.now)) }
    ensures len { IfOk result (λ found. found.len ≤ length text.now) }
    ensures fault { IfErr result (IsRecordsFault text.now) }
    ensures only { (rs : List Record) (rest : List ℕ) → AreAllWhole text.now rs rest
        → AreTaken result rs }
{
    read_all(alloc, text)
}

// The records, or what is wrong.
fn read_all(alloc: Global, text: &[u8]) -> Result<WholeRecords, RecordsError>
    ensures ok { IfOk result (λ found.
        AreAllWhole text.now found.records.items (drop found.len text.now)) }
    ensures len { IfOk result (λ found. found.len ≤ length text.now) }
    ensures fault { IfErr result (IsRecordsFault text.now) }
{
    let mut records = Vec::new(alloc);
    let mut rest = text;
    while let Some((piece, others)) = first_record(rest) {
        match read_record(alloc, piece) {
            Ok(found) => records.push(found)?,
            Err(TextError::NoMemory) => return Err(RecordsError::NoMemory),
            Err(error) => {
                let index = records.len() as u64;
                return Err(RecordsError::Damaged { index, error });
            }
        }
        rest = others;
    }
    let len = text.len() - rest.len();
    Ok(WholeRecords { records, len })
}

// What stands in front of the second record of a text, and the rest; none if no second one begins.
fn first_record(text: &[u8]) -> Option<(&[u8], &[u8])>
    ensures some { IfSome result (λ p. IsCut text.now p.0.now p.1.now) }
    ensures none { IfNone result (BeginsNone text.now) }
{
    let mut len = 0usize;
    let mut rest = text;
    while let Some((line, others)) = split_once(rest, b'\n') {
        len += line.len() + 1;
        if is_mark(others) {
            return Some((&text[..len], others));
        }
        rest = others;
    }
    None
}
