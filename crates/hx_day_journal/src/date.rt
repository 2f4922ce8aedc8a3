//! The date of a day, as a journal's first line has it.

use jiff_core::civil::Date;
use std::alloc::{AllocError, Global};

// How many digits a date has: four of the year, two of the month, two of the day.
const DIGITS: usize = 8;

// The digit of a number at an index, counted from the last.
fn digit(number: u32, index: u32) -> u8 {
    let mut rest = number;
    for _ in 0..index {
        rest /= 10;
    }
    b'0' + (rest % 10) as u8
}

/// The date of a day since 1970, as `YYYYMMDD`; that of the last date there is if the number is greater.
pub fn date_of(alloc: Global, day: u64) -> Result<Vec<u8>, AllocError> {
    let date = match Date::from_unix_epoch_day(i64::try_from(day).unwrap_or(i64::MAX)) {
        Ok(date) => date,
        Err(_) => Date::MAX,
    };
    let year = u32::from(date.year.unsigned_abs());
    let number = year * 10_000 + u32::from(date.month) * 100 + u32::from(date.day);
    let mut text = Vec::with_capacity(alloc, DIGITS)?;
    for index in 0..DIGITS {
        text.push(digit(number, (DIGITS - 1 - index) as u32))?;
    }
    Ok(text)
}

/// The day since 1970 of a date `YYYYMMDD`; none if it is no date, or one before 1970.
pub fn day_of(text: &str) -> Option<u64> {
    if text.len() != DIGITS {
        return None;
    }
    let year = text.get(..4)?.parse::<i16>().ok()?;
    let month = text.get(4..6)?.parse::<i8>().ok()?;
    let day = text.get(6..)?.parse::<i8>().ok()?;
    let date = Date::new(year, month, day).ok()?;
    u64::try_from(date.to_unix_epoch_day()).ok()
}
