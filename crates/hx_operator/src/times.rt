//! Times of the day in text.
ghost use Rattle.std.specs.Prelude.{◌≡◌, ◌+◌, ◌<◌, ◌≤◌, true, false, length, slice_index, MatchOption, MatchBool, IfOk};
ghost use Rattle.hx_operator.specs.Times.{number_at, is_number_at, begins_with_clock, clock_seconds, has_offset, offset_seconds, shifted, time_of};

use crate::entry::Wrong;

// Seconds of a day.
const DAY: u64 = 86_400;

// A number below a bound, in two digits.
fn number_at(text: &[u8], index: usize, bound: u64) -> Option<u64>
    requires { index + 1 < length text.now }
    ensures { MatchOption result (is_number_at bound text.now index ≡ false)
        (λ n. (is_number_at bound text.now index ≡ true)
        × (n ≡ number_at text.now index) × (n < bound)) }
{
    let (tens, ones) = (text[index], text[index + 1]);
    if !tens.is_ascii_digit() || !ones.is_ascii_digit() {
        return None;
    }
    let number = 10 * u64::from(tens - b'0') + u64::from(ones - b'0');
    (number < bound).then_some(number)
}

// The seconds since midnight of HH:MM:SS in front of a text.
fn clock_of(text: &[u8]) -> Option<u64>
    ensures { MatchOption result (begins_with_clock text.now ≡ false)
        (λ n. (begins_with_clock text.now ≡ true)
        × (n ≡ clock_seconds text.now) × (n < 86400)) }
{
    if text.len() < 8 || text[2] != b':' || text[5] != b':' {
        return None;
    }
    let hours = number_at(text, 0, 24)?;
    let minutes = number_at(text, 3, 60)?;
    let seconds = number_at(text, 6, 60)?;
    Some(3600 * hours + 60 * minutes + seconds)
}

// The seconds of +HH:MM or -HH:MM after it.
fn offset_of(text: &[u8]) -> Option<u64>
    ensures { MatchOption result (has_offset text.now ≡ false)
        (λ n. (has_offset text.now ≡ true)
        × (n ≡ offset_seconds text.now) × (n < 86400)) }
{
    if text.len() != 14 || (text[8] != b'+' && text[8] != b'-') || text[11] != b':' {
        return None;
    }
    let hours = number_at(text, 9, 24)?;
    let minutes = number_at(text, 12, 60)?;
    Some(3600 * hours + 60 * minutes)
}

// The time in UTC of a clock that is ahead of it, or lags it.
fn shifted(is_ahead: bool, offset: u64, seconds: u64) -> Result<u64, Wrong>
    requires offset { offset < 86400 }
    requires seconds { seconds < 86400 }
    ensures { result ≡ shifted is_ahead offset seconds }
{
    if is_ahead {
        return seconds.checked_sub(offset).ok_or(Wrong::OtherDay);
    }
    if seconds + offset >= DAY {
        return Err(Wrong::OtherDay);
    }
    Ok(seconds + offset)
}

/// The seconds since midnight in UTC of a time in text.
pub(crate) fn time_of(text: &[u8]) -> Result<u64, Wrong>
    ensures value { result ≡ time_of text.now }
    ensures range { IfOk result (λ seconds. seconds < 86400) }
{
    let Some(seconds) = clock_of(text) else {
        return Err(Wrong::NoTime);
    };
    if text.len() == 8 || (text.len() == 9 && text[8] == b'Z') {
        return Ok(seconds);
    }
    let Some(offset) = offset_of(text) else {
        return Err(Wrong::NoTime);
    };
    shifted(text[8] == b'+', offset, seconds)
}
