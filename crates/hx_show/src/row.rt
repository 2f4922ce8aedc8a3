//! The words of a line: time, sender or receiver, and message.
ghost use Rattle.std.specs.Prelude.{◌≡◌, ◌++◌, OnOk, IfOk};
ghost use Rattle.hx_show.specs.Columns.{column, time_width};
ghost use Rattle.hx_show.specs.Units.{time_of_day};
ghost use Rattle.hx_show.specs.Lines.{sender, sent_message, feed_row, reply_row, line_words, digits_words, shown_parsed, shown_unreadable, shown_line};

use crate::choice::Choice;
use crate::columns::{TIME_WIDTH, WHO_WIDTH, put_column};
use crate::feed::{feed_time, put_feed};
use crate::inbound::put_inbound;
use crate::line::{Head, Parsed, line_of};
use crate::operator::{put_event, put_unreadable};
use crate::outbound::{outbound_time, put_outbound};
use crate::reading::bytes_of;
use crate::units::{put_number, put_time};
use hx_itch::{Feed, decode};
use hx_ouch::{Outbound, decode_in, decode_out};
use hx_rules::decode_operator;
use hx_units::NoMemory;
use std::alloc::{AllocError, Global};

// Appends the column of a time.
fn put_when(alloc: Global, out: &mut Vec<u8>, time: u64) -> Result<(), AllocError>
    ensures { OnOk result
        (out.new.items ≡ out.old.items ++ column time_width (time_of_day time)) }
{
    let mut text = Vec::new(alloc);
    put_time(&mut text, time)?;
    put_column(out, TIME_WIDTH, &text)
}

// The sender of an event: the operator has number 0.
fn sender(alloc: Global, member: u64) -> Result<Vec<u8>, AllocError>
    ensures { IfOk result (λ who. who.items ≡ sender member) }
{
    if member == 0 {
        return Vec::from_slice(alloc, b"operator");
    }
    let mut who = Vec::from_slice(alloc, b"member ")?;
    put_number(&mut who, member)?;
    Ok(who)
}

// Appends what was sent.
fn put_sent(out: &mut Vec<u8>, time: u64, member: u64, bytes: &[u8]) -> Result<(), AllocError>
    ensures { OnOk result
        (out.new.items ≡ out.old.items ++ sent_message time member bytes.now) }
{
    if member == 0 {
        return match decode_operator(time, bytes) {
            Some(event) => put_event(out, &event),
            None => put_unreadable(out),
        };
    }
    match decode_in(bytes) {
        Some(message) => put_inbound(out, &message),
        None => put_unreadable(out),
    }
}

// Appends a message of the feed, which has its time in itself.
fn put_feed_row(
    alloc: Global,
    out: &mut Vec<u8>,
    who: &[u8],
    message: Option<Feed>,
) -> Result<(), AllocError>
    ensures { OnOk result (out.new.items ≡ out.old.items ++ feed_row who.now message) }
{
    let Some(message) = message else {
        put_column(out, TIME_WIDTH, b"")?;
        put_column(out, WHO_WIDTH, who)?;
        return put_unreadable(out);
    };
    put_when(alloc, out, feed_time(&message))?;
    put_column(out, WHO_WIDTH, who)?;
    put_feed(out, &message)
}

// Appends a reply, which has its time in itself.
fn put_reply_row(
    alloc: Global,
    out: &mut Vec<u8>,
    who: &[u8],
    message: Option<Outbound>,
) -> Result<(), AllocError>
    ensures { OnOk result (out.new.items ≡ out.old.items ++ reply_row who.now message) }
{
    let Some(message) = message else {
        put_column(out, TIME_WIDTH, b"")?;
        put_column(out, WHO_WIDTH, who)?;
        return put_unreadable(out);
    };
    put_when(alloc, out, outbound_time(&message))?;
    put_column(out, WHO_WIDTH, who)?;
    put_outbound(out, &message)
}

// Appends the words of a line with these bytes.
fn put_line(alloc: Global, out: &mut Vec<u8>, head: Head, bytes: &[u8]) -> Result<(), AllocError>
    ensures { OnOk result (out.new.items ≡ out.old.items ++ line_words head bytes.now) }
{
    match head {
        Head::Sent { time, member } => {
            put_when(alloc, out, time)?;
            put_column(out, WHO_WIDTH, &sender(alloc, member)?)?;
            put_sent(out, time, member, bytes)
        }
        Head::OfFeed { number } => {
            let mut who = Vec::from_slice(alloc, b"feed ")?;
            put_number(&mut who, number)?;
            put_feed_row(alloc, out, &who, decode(bytes))
        }
        Head::ToMember { member, number } => {
            let mut who = Vec::from_slice(alloc, b"member ")?;
            put_number(&mut who, member)?;
            who.extend_from_slice(b" reply ")?;
            put_number(&mut who, number)?;
            put_reply_row(alloc, out, &who, decode_out(bytes))
        }
    }
}

// Appends the words of a line with these digits.
fn put_digits(alloc: Global, out: &mut Vec<u8>, head: Head, digits: &[u8]) -> Result<(), NoMemory>
    ensures { OnOk result (out.new.items ≡ out.old.items ++ digits_words head digits.now) }
{
    let Some(bytes) = bytes_of(alloc, digits)? else {
        return Ok(out.extend_from_slice(b"unreadable line")?);
    };
    Ok(put_line(alloc, out, head, &bytes)?)
}

// Appends what is shown of a line that is one.
fn show_parsed(
    alloc: Global,
    out: &mut Vec<u8>,
    choice: &Choice,
    line: &Parsed<'_>,
) -> Result<(), NoMemory>
    ensures { OnOk result (out.new.items ≡ out.old.items
        ++ shown_parsed choice.now
        (record { head = line.now.head; digits = line.now.digits.now })) }
{
    if !choice.has(line.head) {
        return Ok(());
    }
    put_digits(alloc, out, line.head, line.digits)?;
    out.push(b'\n')?;
    Ok(())
}

/// Appends what is shown of a line, with its line feed. It takes memory.
pub fn show_line(
    alloc: Global,
    out: &mut Vec<u8>,
    choice: &Choice,
    line: &[u8],
) -> Result<(), NoMemory>
    ensures { OnOk result (out.new.items ≡ out.old.items ++ shown_line choice.now line.now) }
{
    match line_of(line) {
        Some(line) => show_parsed(alloc, out, choice, &line),
        None => Ok(match choice {
            Choice::All => out.extend_from_slice(b"unreadable line\n")?,
            Choice::Feed | Choice::Member(_) => (),
        }),
    }
}
