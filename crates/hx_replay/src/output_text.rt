//! The output lines of events, one after the other. A line is written in its final position, from its end on.
ghost use Rattle.std.specs.Prelude.{◌≡◌, ◌≤◌, ◌<◌, ◌^◌, ◌+◌, ◌*◌, ◌++◌, ◌∷◌, [], ℕ, OnOk, IfOk, OnErr, length, drop, take, codes};
ghost use Rattle.std.specs.Fmt.{decimal};
ghost use Rattle.hex.specs.Hex.{encode_lower};
ghost use Rattle.hx_itch.specs.Message.{feed_time};
ghost use Rattle.hx_units.specs.Letters.{space, line_feed};
ghost use Rattle.hx_replay.specs.Output.{feed_line, reply_line};

use hx_itch::{Feed, encode};
use hx_ouch::{Outbound, encode_out};
use hx_tape_lines::{digit_count, write_bytes};
use hx_units::MemberNo;
use itoa::write_digits;
use std::alloc::{AllocError, Global};
use std::marker::Model;

/// Output lines that are spelled. Contracts see their text.
#[derive(Drop)]
pub struct OutputText {
    // The text, and after it bytes that are of no use: if they are enough, a line takes no memory.
    bytes: Vec<u8>,
    // Where the text ends.
    end: usize,
}

impl Model for OutputText {
    ghost use Rattle.std.specs.Prelude.{◌≤◌, ℕ, List, length, take};

    ghost Value = { List ℕ };

    ghost view = { λ l. take l.end l.bytes.items };

    ghost invariant = { λ l. l.end ≤ length l.bytes.items };
}

impl OutputText {
    /// None yet.
    pub(crate) fn new(alloc: Global) -> OutputText
        ensures { result ≡ [] }
    {
        OutputText {
            bytes: Vec::new(alloc),
            end: 0,
        }
    }

    /// Their text.
    pub fn text(&self) -> &[u8]
        ensures { result.now ≡ self.now }
    {
        &self.bytes[..self.end]
    }

    /// How long it is.
    pub(crate) fn len(&self) -> usize
        ensures { result ≡ length self.now }
    {
        self.end
    }

    /// Lets them go. Their memory stays for others.
    pub fn clear(&mut self)
        ensures { self.new ≡ [] }
    {
        self.end = 0;
    }

    /// Appends the line of message `number` of the feed.
    pub(crate) fn add_feed_line(&mut self, number: u64, message: &Feed) -> Result<(), AllocError>
        requires { feed_time message.now < 2 ^ 48 }
        ensures ok { OnOk result (self.new ≡ self.old ++ feed_line number message.now) }
        ensures err { OnErr result (self.new ≡ self.old) }
    {
        let message = encode(message);
        self.end = append_feed_line(&mut self.bytes, self.end, number, message.as_slice())?;
        Ok(())
    }

    /// Appends the line of reply `number` to a member.
    pub(crate) fn add_reply_line(
        &mut self,
        member: MemberNo,
        number: u64,
        reply: &Outbound,
    ) -> Result<(), AllocError>
        ensures ok { OnOk result (self.new ≡ self.old ++ reply_line member number reply.now) }
        ensures err { OnErr result (self.new ≡ self.old) }
    {
        let reply = encode_out(reply);
        let member = u64::from(member.get());
        self.end = append_reply_line(&mut self.bytes, self.end, member, number, reply.as_slice())?;
        Ok(())
    }
}

// Has the list reach as far as `end`.
fn reach(bytes: &mut Vec<u8>, end: usize) -> Result<(), AllocError>
    ensures room { OnOk result (end ≤ length bytes.new.items) }
    ensures longer { length bytes.old.items ≤ length bytes.new.items }
    ensures retained { (n : ℕ) → n ≤ length bytes.old.items
        → take n bytes.new.items ≡ take n bytes.old.items }
{
    if bytes.len() < end {
        bytes.resize(end, b'\n')?;
    }
    Ok(())
}

// Writes the line of a message of the feed after the text that ends at an offset, and returns where it ends now.
#[tactic(auto, using(hx_tape_lines::proofs::Lines::decimal_fits))]
fn append_feed_line(
    bytes: &mut Vec<u8>,
    start: usize,
    number: u64,
    message: &[u8],
) -> Result<usize, AllocError>
    requires within { start ≤ length bytes.old.items }
    requires short { length message.now ≤ 80 }
    ensures end { IfOk result (λ end. end ≤ length bytes.new.items) }
    ensures ok { IfOk result (λ end. take end bytes.new.items ≡ take start bytes.old.items
        ++ (codes "F " ++ (decimal number
        ++ (space ∷ (encode_lower message.now ++ line_feed ∷ []))))) }
    ensures err { OnErr result (take start bytes.new.items ≡ take start bytes.old.items) }
    ensures longer { start ≤ length bytes.new.items }
{
    let end = start + digit_count(number) + 2 * message.len() + 4;
    reach(bytes, end)?;
    fill_feed_line(&mut bytes[start..end], number, message);
    Ok(end)
}

// Writes the line of a reply after the text that ends at an offset, and returns where it ends now.
#[tactic(auto, using(hx_tape_lines::proofs::Lines::decimal_fits))]
fn append_reply_line(
    bytes: &mut Vec<u8>,
    start: usize,
    member: u64,
    number: u64,
    reply: &[u8],
) -> Result<usize, AllocError>
    requires within { start ≤ length bytes.old.items }
    requires short { length reply.now ≤ 80 }
    ensures end { IfOk result (λ end. end ≤ length bytes.new.items) }
    ensures ok { IfOk result (λ end. take end bytes.new.items ≡ take start bytes.old.items
        ++ (codes "M " ++ (decimal member ++ (space ∷ (decimal number
        ++ (space ∷ (encode_lower reply.now ++ line_feed ∷ []))))))) }
    ensures err { OnErr result (take start bytes.new.items ≡ take start bytes.old.items) }
    ensures longer { start ≤ length bytes.new.items }
{
    let end = start + digit_count(member) + digit_count(number) + 2 * reply.len() + 5;
    reach(bytes, end)?;
    fill_reply_line(&mut bytes[start..end], member, number, reply);
    Ok(end)
}

// Writes a byte before the offset `end`, and returns the byte's offset.
fn put(byte: u8, line: &mut [u8], end: usize) -> usize
    requires { (0 < end) × (end ≤ length line.old) }
    ensures index { result + 1 ≡ end }
    ensures written { drop result line.new ≡ byte ∷ drop end line.old }
{
    line[end - 1] = byte;
    end - 1
}

// Writes the line of a message of the feed into a slice of its length.
fn fill_feed_line(line: &mut [u8], number: u64, message: &[u8])
    requires { length line.old ≡ length (decimal number) + 2 * length message.now + 4 }
    ensures { line.new ≡ codes "F " ++ (decimal number
        ++ (space ∷ (encode_lower message.now ++ line_feed ∷ []))) }
{
    let at = put(b'\n', line, line.len());
    let at = write_bytes(message, line, at);
    let at = put(b' ', line, at);
    let at = write_digits(number, line, at);
    let at = put(b' ', line, at);
    put(b'F', line, at);
}

// Writes the line of a reply into a slice of its length.
fn fill_reply_line(line: &mut [u8], member: u64, number: u64, reply: &[u8])
    requires { length line.old
        ≡ length (decimal member) + length (decimal number) + 2 * length reply.now + 5 }
    ensures { line.new ≡ codes "M " ++ (decimal member ++ (space ∷ (decimal number
        ++ (space ∷ (encode_lower reply.now ++ line_feed ∷ []))))) }
{
    let at = put(b'\n', line, line.len());
    let at = write_bytes(reply, line, at);
    let at = put(b' ', line, at);
    let at = write_digits(number, line, at);
    let at = put(b' ', line, at);
    let at = write_digits(member, line, at);
    let at = put(b' ', line, at);
    put(b'M', line, at);
}
