//! What a line of a tape, or of the output of a replay, says.
ghost use Rattle.std.specs.Prelude.{◌≡◌, Some, None, IfSome, IfNone};
ghost use Rattle.hx_show.specs.Lines.{feed_line, reply_line, tape_line, line_of_words, line_of};

use crate::reading::{cut, number_of};

/// What a line is.
#[derive(Clone, Copy)]
pub enum Head {
    /// A line of a tape: the time, in nanoseconds since midnight, and the sender; the operator has number 0.
    Sent { time: u64, member: u64 },
    /// A message of the feed.
    OfFeed { number: u64 },
    /// A reply to a member.
    ToMember { member: u64, number: u64 },
}

/// What a line is, and the digits of its message.
#[derive(Clone, Copy)]
pub struct Parsed<'a> {
    pub head: Head,
    pub digits: &'a [u8],
}

// Message n of the feed.
fn feed_line<'a>(number: &[u8], digits: &'a [u8]) -> Option<Parsed<'a>>
    ensures some { IfSome result (λ p. feed_line number.now digits.now
        ≡ Some (record { head = p.head; digits = p.digits.now })) }
    ensures none { IfNone result (feed_line number.now digits.now ≡ None) }
{
    let number = number_of(number)?;
    Some(Parsed {
        head: Head::OfFeed { number },
        digits,
    })
}

// Reply n to a member.
fn reply_line<'a>(member: &[u8], number: &[u8], digits: &'a [u8]) -> Option<Parsed<'a>>
    ensures some { IfSome result (λ p. reply_line member.now number.now digits.now
        ≡ Some (record { head = p.head; digits = p.digits.now })) }
    ensures none { IfNone result (reply_line member.now number.now digits.now ≡ None) }
{
    let member = number_of(member)?;
    let number = number_of(number)?;
    Some(Parsed {
        head: Head::ToMember { member, number },
        digits,
    })
}

// A line of a tape.
fn tape_line<'a>(time: &[u8], member: &[u8], digits: &'a [u8]) -> Option<Parsed<'a>>
    ensures some { IfSome result (λ p. tape_line time.now member.now digits.now
        ≡ Some (record { head = p.head; digits = p.digits.now })) }
    ensures none { IfNone result (tape_line time.now member.now digits.now ≡ None) }
{
    let time = number_of(time)?;
    let member = number_of(member)?;
    if member >= 10_000 {
        return None;
    }
    Some(Parsed {
        head: Head::Sent { time, member },
        digits,
    })
}

// A line of these three words, of which the last may be more.
fn line_of_words<'a>(first: &[u8], second: &[u8], others: &'a [u8]) -> Option<Parsed<'a>>
    ensures some { IfSome result (λ p. line_of_words first.now second.now others.now
        ≡ Some (record { head = p.head; digits = p.digits.now })) }
    ensures none { IfNone result (line_of_words first.now second.now others.now ≡ None) }
{
    if first == b"F".as_slice() {
        return feed_line(second, others);
    }
    if first == b"M".as_slice() {
        let (number, digits) = cut(others)?;
        return reply_line(second, number, digits);
    }
    tape_line(first, second, others)
}

/// What a line is, if it is one.
pub fn line_of(line: &[u8]) -> Option<Parsed<'_>>
    ensures some { IfSome result (λ p. line_of line.now
        ≡ Some (record { head = p.head; digits = p.digits.now })) }
    ensures none { IfNone result (line_of line.now ≡ None) }
{
    let (first, rest) = cut(line)?;
    let (second, others) = cut(rest)?;
    line_of_words(first, second, others)
}
