//! Lines of a tape.

use hx_market::{Bytes, Event, decode_operator};
use memchr::memchr;
use std::alloc::{AllocError, Global};
use std::test::Fail;

/// The first line of a text, without its line feed, and the text after it.
pub fn split_line(text: &[u8]) -> Option<(&[u8], &[u8])> {
    let at = memchr(b'\n', text)?;
    Some((&text[..at], &text[at + 1..]))
}

/// The event of a line.
pub fn event_of(alloc: Global, line: &[u8]) -> Result<Event, Fail> {
    let text = str::from_utf8(line)?;
    let (time, others) = text.split_once(' ').ok_or("no time")?;
    let (member, digits) = others.split_once(' ').ok_or("no member")?;
    let time = time.parse::<u64>()?;
    let member = member.parse::<u16>()?;
    let bytes = hex::decode(alloc, digits)?;
    if member == 0 {
        return Ok(decode_operator(time, &bytes).ok_or("no event")?);
    }
    Ok(Event::Message {
        member,
        time,
        bytes: Bytes::of(alloc, &bytes)?,
    })
}

/// The events of a tape.
pub fn events_of(alloc: Global, tape: &[u8]) -> Result<Vec<Event>, Fail> {
    let mut events = Vec::new(alloc);
    let mut rest = tape;
    for _ in 0..u64::MAX {
        let Some((line, others)) = split_line(rest) else {
            break;
        };
        events.push(event_of(alloc, line)?)?;
        rest = others;
    }
    Ok(events)
}

/// The lines of a text that begin so, or those that do not.
pub fn lines_that(
    alloc: Global,
    text: &[u8],
    beginning: &[u8],
    begin: bool,
) -> Result<Vec<u8>, AllocError> {
    let mut chosen = Vec::new(alloc);
    let mut rest = text;
    for _ in 0..u64::MAX {
        let Some((line, others)) = split_line(rest) else {
            break;
        };
        if line.starts_with(beginning) == begin {
            chosen.extend_from_slice(line)?;
            chosen.push(b'\n')?;
        }
        rest = others;
    }
    Ok(chosen)
}

/// How many lines of a text begin so.
pub fn count_lines(text: &[u8], beginning: &[u8]) -> u64 {
    let mut count = 0;
    let mut rest = text;
    for _ in 0..u64::MAX {
        let Some((line, others)) = split_line(rest) else {
            break;
        };
        if line.starts_with(beginning) && count < u64::MAX {
            count += 1;
        }
        rest = others;
    }
    count
}

/// The text after `but` lines at its front.
pub fn last_lines(text: &[u8], but: u64) -> &[u8] {
    let mut rest = text;
    for _ in 0..but {
        if let Some((_, others)) = split_line(rest) {
            rest = others;
        }
    }
    rest
}

/// `count` lines at the front of a text.
pub fn first_lines(text: &[u8], count: u64) -> &[u8] {
    &text[..text.len().saturating_sub(last_lines(text, count).len())]
}

/// `count` bytes at the front of a text, or all if it is shorter.
pub fn front(text: &[u8], count: usize) -> &[u8] {
    &text[..count.min(text.len())]
}
