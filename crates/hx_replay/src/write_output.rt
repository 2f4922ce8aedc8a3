//! Output, spelled and written.
ghost use Rattle.std.specs.Prelude.{◌≡◌, ◌++◌, ◌∷◌, ℕ, List, Option, OnOk, OnErr, IfOk, IfErr};
ghost use Rattle.std.specs.Io.KnownBytes.{Appends};
ghost use Rattle.hx_units.specs.Cuts.{Lacks};
ghost use Rattle.hx_units.specs.Writing.{Writes};
ghost use Rattle.hx_replay.specs.Run.{Progress, Faults, Stops};
ghost use Rattle.hx_replay.specs.Gathering.{Gathers, IsUnwritten};
ghost use Rattle.hx_replay.specs.Marks.{lines_of, HaveRoomForTimes};
ghost use Rattle.hx_replay.specs.Seen.{texts_of};
ghost use Rattle.hx_replay.specs.declared.unwritten.Mark.{Mark};
ghost use Rattle.hx_replay.specs.declared.fault.TapeError.TheVariants as fault;

use crate::fault::TapeError;
use crate::output_text::OutputText;
use crate::replaying::write_many;
use crate::unwritten::{Mark, Marked, Unwritten};
use hx_itch::Feed;
use hx_ouch::Outbound;
use hx_units::{MemberNo, write_whole};
use std::alloc::AllocError;
use std::io::Write;

// Spells the line that a mark marks, and returns what is left of the messages of the feed and of the replies.
#[inline(always)]
fn spell_next<'a>(
    mark: &Mark,
    feed: &'a [Feed],
    replies: &'a [(MemberNo, Outbound)],
    lines: &mut OutputText,
) -> Result<(&'a [Feed], &'a [(MemberNo, Outbound)]), AllocError>
    requires { HaveRoomForTimes feed.now }
    ensures ok { IfOk result (λ left. (marks : List Mark) → (now : List ℕ)
        × (texts_of (lines_of (mark.now ∷ marks) feed.now replies.now)
        ≡ now ++ texts_of (lines_of marks left.0.now left.1.now))
        × (lines.new ≡ lines.old ++ now)) }
    ensures times { IfOk result (λ left. HaveRoomForTimes left.0.now) }
    ensures err { OnErr result (lines.new ≡ lines.old) }
{
    match mark.get() {
        Marked::OfFeed(number) => {
            let Some((message, others)) = feed.split_first() else {
                return Ok((feed, replies));
            };
            lines.add_feed_line(number, message)?;
            Ok((others, replies))
        }
        Marked::OfMember(number) => {
            let Some(((member, reply), others)) = replies.split_first() else {
                return Ok((feed, replies));
            };
            lines.add_reply_line(*member, number, reply)?;
            Ok((feed, others))
        }
    }
}

/// Spells the lines of output after those that wait, and writes them if they are many. If it fails, a front of them was
/// written.
pub fn spell_output<W: Write>(
    output: &Unwritten,
    lines: &mut OutputText,
    writer: &mut W,
) -> Result<(), TapeError>
    ensures ok { OnOk result (Writes
        (W.contents writer.old) (W.contents writer.new) (lines.old ++ output.now) lines.new) }
    ensures err { OnErr result ((rest : List ℕ) × Writes
        (W.contents writer.old) (W.contents writer.new) (lines.old ++ output.now) rest) }
    ensures fault { IfErr result IsUnwritten }
{
    let (marks, mut feed, mut replies) = output.parts();
    for mark in marks {
        let left = spell_next(mark, feed, replies, lines)?;
        feed = left.0;
        replies = left.1;
        write_many(writer, lines)?;
    }
    Ok(())
}

/// Spells the lines of output, and writes them. If it fails, a front of them was written.
pub fn write_outcome<W: Write>(
    output: &Unwritten,
    lines: &mut OutputText,
    writer: &mut W,
) -> Result<(), TapeError>
    ensures ok { OnOk result
        (Appends (W.contents writer.old) (W.contents writer.new) output.now) }
    ensures err { OnErr result (
        (rest : List ℕ) × Writes (W.contents writer.old) (W.contents writer.new) output.now rest) }
    ensures fault { IfErr result IsUnwritten }
{
    lines.clear();
    spell_output(output, lines, writer)?;
    write_whole(writer, lines.text())?;
    Ok(())
}

/// Writes the output of the lines before one that fails, and returns its fault, or the reason why that was not written.
pub fn write_before<W: Write>(
    error: TapeError,
    output: &Unwritten,
    lines: &mut OutputText,
    writer: &mut W,
) -> TapeError
    ensures { (c d : Progress) (text gathered rest l others : List ℕ) (w : Option (List ℕ))
        → Gathers c d text w (W.contents writer.old) gathered rest
        → rest ≡ l ++ 10 ∷ others → Lacks 10 l → Faults d l error
        → ((error ≡ fault.NoMemory → ⊥) → output.now ≡ gathered)
        → Stops ⊥ c text w (W.contents writer.new) result }
{
    if let TapeError::NoMemory = error {
        return error;
    }
    match write_outcome(output, lines, writer) {
        Ok(()) => error,
        Err(unwritten) => unwritten,
    }
}
