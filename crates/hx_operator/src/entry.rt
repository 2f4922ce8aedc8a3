//! The lines of a schedule.
ghost use Rattle.std.specs.Prelude.{◌≡◌};
ghost use Rattle.hx_operator.specs.Schedules.{entry_of, index_of, fault_later};

use crate::marks::{before_comment, has_word, next_word};
use crate::names::code_of;
use crate::times::time_of;
use thiserror::Error;

// The nanoseconds of a second.
const SECOND: u64 = 1_000_000_000;

/// A code of the hours at its time.
#[derive(Clone, Copy, Debug, PartialEq, Eq)]
pub struct Entry {
    /// When it is due, in nanoseconds since midnight, UTC.
    pub time: u64,
    /// The code (ITCH 5.0, System Event Message).
    pub code: u8,
}

/// What is wrong with a line of a schedule.
#[derive(Clone, Copy, Debug, PartialEq, Eq, Drop, Error)]
pub enum Wrong {
    /// Its first word is no time of the day.
    #[error("no time: HH:MM:SS, with Z or an offset as +02:00")]
    NoTime,
    /// By its offset the time is of another day, UTC.
    #[error("of another day in UTC")]
    OtherDay,
    /// Nothing follows the time.
    #[error("a code is missing")]
    MissingCode,
    /// What follows the time is no code of the hours.
    #[error("no code: O, S, Q, M, E or C")]
    NoCode,
    /// More follows the code.
    #[error("too many words")]
    TooMany,
    /// The code is not after that of the line before: O, S, Q, M, E, C.
    #[error("out of the order O, S, Q, M, E, C")]
    OutOfOrder,
    /// The time is before that of the line before.
    #[error("before the line before it")]
    Early,
}

/// What a line says: an entry, or nothing.
pub(crate) fn entry_of(line: &[u8]) -> Result<Option<Entry>, Wrong>
    ensures { result ≡ entry_of line.now }
{
    let Some((time, rest)) = next_word(before_comment(line)) else {
        return Ok(None);
    };
    let Some((code, rest)) = next_word(rest) else {
        return Err(Wrong::MissingCode);
    };
    if has_word(rest) {
        return Err(Wrong::TooMany);
    }
    let time = time_of(time)? * SECOND;
    let Some(code) = code_of(code) else {
        return Err(Wrong::NoCode);
    };
    Ok(Some(Entry { time, code }))
}

/// The index of a code in the order of the day: 0 to 5, and 6 of no code.
pub(crate) fn index_of(code: u8) -> u8
    ensures { result ≡ index_of code }
{
    match code {
        b'O' => 0,
        b'S' => 1,
        b'Q' => 2,
        b'M' => 3,
        b'E' => 4,
        b'C' => 5,
        _ => 6,
    }
}

/// What is wrong with an entry after another one.
pub(crate) fn fault_later(last: Entry, next: Entry) -> Option<Wrong>
    ensures { result ≡ fault_later last next }
{
    if index_of(next.code) <= index_of(last.code) {
        return Some(Wrong::OutOfOrder);
    }
    if next.time < last.time {
        return Some(Wrong::Early);
    }
    None
}
