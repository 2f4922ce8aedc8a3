//! The output of events, with its numbers, before it is spelled.
ghost use Rattle.std.specs.Prelude.{◌≡◌, ◌<◌, ◌≤◌, ◌+◌, ◌^◌, ◌++◌, [], ℕ, None, IfOk, OnOk, IfErr, length, slice_index};
ghost use Rattle.std.specs.Vec.{vec_len, vec_capacity};
ghost use Rattle.hx_market.specs.Refusals.{refusal, or_no_memory};
ghost use Rattle.hx_market.specs.Steps.{step};
ghost use Rattle.hx_rules.specs.declared.fault.PrepareError.TheVariants as refused;
ghost use Rattle.hx_replay.specs.declared.unwritten.Marked.TheVariants as marked;
ghost use Rattle.hx_replay.specs.Marks.{lines_of, feed_marks, reply_marks, HaveRoomForTimes};
ghost use Rattle.hx_replay.specs.Output.{feed_lines, reply_lines, counts_after};
ghost use Rattle.hx_replay.specs.Seen.{texts_of};

use hx_book::Book;
use hx_itch::Feed;
use hx_market::{Event, Market, Output, PrepareError};
use hx_ouch::Outbound;
use hx_units::MemberNo;
use std::alloc::{AllocError, Global};
use std::marker::Model;

/// Which list holds the next message of the output, and its number.
#[derive(Clone, Copy)]
pub enum Marked {
    /// Among the messages of the feed.
    OfFeed(u64),
    /// Among the replies.
    OfMember(u64),
}

/// The same in one word, which lists of them hold: twice the number, and one more if it is that of a reply.
#[derive(Clone, Copy)]
pub struct Mark {
    word: u64,
}

impl Model for Mark {
    ghost use Rattle.hx_replay.specs.declared.unwritten.Marked.{Marked};
    ghost use Rattle.hx_replay.specs.MarkWords.{marked_by, word_of};

    ghost Value = { Marked };

    ghost view = { λ m. marked_by m.word };

    ghost inverse = { λ marked. record { word = word_of marked } };
}

impl Mark {
    /// The mark of a message of the feed.
    #[inline(always)]
    pub fn of_feed(number: u64) -> Mark
        requires { number < 2 ^ 63 }
        ensures { result ≡ marked.OfFeed number }
    {
        Mark { word: number * 2 }
    }

    /// The mark of a reply to a member.
    #[inline(always)]
    pub fn of_member(number: u64) -> Mark
        requires { number < 2 ^ 63 }
        ensures { result ≡ marked.OfMember number }
    {
        Mark {
            word: number * 2 + 1,
        }
    }

    /// What it marks.
    #[inline(always)]
    pub fn get(self) -> Marked
        ensures { result ≡ self }
    {
        if self.word % 2 == 0 {
            return Marked::OfFeed(self.word / 2);
        }
        Marked::OfMember(self.word / 2)
    }
}

/// The amount of an event's output.
#[derive(Clone, Copy)]
pub(crate) struct OutputCounts {
    /// The messages of the feed.
    pub(crate) feed: u64,
    /// The replies.
    pub(crate) replies: u64,
}

/// Lines of output before they are spelled: the messages, and their numbers. Contracts see their text.
pub struct Unwritten {
    // The market writes its output into these lists; it stays in them.
    output: Output,
    marks: Vec<Mark>,
}

// By hand, so that when a value is dropped its owner's proof sees one call.
impl Drop for Unwritten {
    fn drop(self) {
        let Unwritten {
            output: _,
            marks: _,
        } = self;
    }
}

impl Model for Unwritten {
    ghost use Rattle.std.specs.Prelude.{ℕ, List};
    ghost use Rattle.hx_replay.specs.Seen.{texts_of};
    ghost use Rattle.hx_replay.specs.Marks.{lines_of, AreMarked, HaveRoomForTimes};

    ghost Value = { List ℕ };

    ghost view = { λ m. texts_of
        (lines_of m.marks.items m.output.feed.items m.output.replies.items) };

    ghost invariant = { λ m. AreMarked m.marks.items m.output.feed.items m.output.replies.items
        × HaveRoomForTimes m.output.feed.items };
}

// Marks messages of the feed, after `before` earlier ones. There is room for the marks.
fn mark_feed(marks: &mut Vec<Mark>, before: u64, feed: &[Feed])
    requires numbers { before + length feed.now < 2 ^ 63 }
    requires room { vec_len marks.old + length feed.now ≤ vec_capacity marks.old }
    ensures marked { marks.new.items ≡ marks.old.items ++ feed_marks before feed.now }
    ensures room { (vec_len marks.new ≡ vec_len marks.old + length feed.now)
        × (vec_capacity marks.new ≡ vec_capacity marks.old) }
{
    let mut number = before;
    for _ in feed {
        number += 1;
        marks.push_reserved(Mark::of_feed(number));
    }
}

// Marks replies, given the number of earlier ones of each member. There is room for the marks.
fn mark_replies(marks: &mut Vec<Mark>, counts: &mut [u64], replies: &[(MemberNo, Outbound)])
    requires numbered { length counts.old ≡ 4096 }
    requires numbers { (member : ℕ)
        → slice_index counts.old member + length replies.now < 2 ^ 63 }
    requires room { vec_len marks.old + length replies.now ≤ vec_capacity marks.old }
    ensures marks { marks.new.items ≡ marks.old.items ++ reply_marks counts.old replies.now }
    ensures counts { counts.new ≡ counts_after counts.old replies.now }
{
    for (member, _) in replies {
        let count = &mut counts[member.get() as usize];
        *count += 1;
        marks.push_reserved(Mark::of_member(*count));
    }
}

// Marks the output of an event.
fn mark_output(
    marks: &mut Vec<Mark>,
    before: u64,
    counts: &mut [u64],
    feed: &[Feed],
    replies: &[(MemberNo, Outbound)],
) -> Result<(), AllocError>
    requires feed { before + length feed.now < 2 ^ 63 }
    requires numbered { length counts.old ≡ 4096 }
    requires numbers { (member : ℕ)
        → slice_index counts.old member + length replies.now < 2 ^ 63 }
    ensures marks { OnOk result (marks.new.items
        ≡ marks.old.items
        ++ (feed_marks before feed.now ++ reply_marks counts.old replies.now)) }
    ensures counts { OnOk result (counts.new ≡ counts_after counts.old replies.now) }
{
    marks.reserve(feed.len() + replies.len())?;
    mark_feed(marks, before, feed);
    mark_replies(marks, counts, replies);
    Ok(())
}

// Lets all messages go, and their marks.
fn forget(output: &mut Output, marks: &mut Vec<Mark>)
    ensures feed { output.new.feed.items ≡ [] }
    ensures replies { output.new.replies.items ≡ [] }
    ensures marks { marks.new.items ≡ [] }
{
    output.feed.clear();
    output.replies.clear();
    marks.clear();
}

// Moves all messages after others, and their marks.
fn append_all(
    output: &mut Output,
    marks: &mut Vec<Mark>,
    others: &mut Output,
    other_marks: &mut Vec<Mark>,
) -> Result<(), AllocError>
    ensures feed { OnOk result
        (output.new.feed.items ≡ output.old.feed.items ++ others.old.feed.items) }
    ensures replies { OnOk result
        (output.new.replies.items ≡ output.old.replies.items ++ others.old.replies.items) }
    ensures marks { OnOk result (marks.new.items ≡ marks.old.items ++ other_marks.old.items) }
    ensures feed_left { OnOk result (others.new.feed.items ≡ []) }
    ensures replies_left { OnOk result (others.new.replies.items ≡ []) }
    ensures marks_left { OnOk result (other_marks.new.items ≡ []) }
{
    output.feed.append(&mut others.feed)?;
    output.replies.append(&mut others.replies)?;
    marks.append(other_marks)
}

impl Unwritten {
    /// None yet.
    pub fn new(alloc: Global) -> Unwritten
        ensures { result ≡ [] }
    {
        Unwritten {
            output: Output {
                feed: Vec::new(alloc),
                replies: Vec::new(alloc),
            },
            marks: Vec::new(alloc),
        }
    }

    /// Their marks, and what these mark: messages of the feed, and replies.
    pub(crate) fn parts(&self) -> (&[Mark], &[Feed], &[(MemberNo, Outbound)])
        ensures text { texts_of (lines_of result.0.now result.1.now result.2.now) ≡ self.now }
        ensures times { HaveRoomForTimes result.1.now }
    {
        (&self.marks, &self.output.feed, &self.output.replies)
    }

    /// Lets them go. Their memory stays for others.
    pub fn clear(&mut self)
        ensures { self.new ≡ [] }
    {
        forget(&mut self.output, &mut self.marks);
    }

    /// Takes all of others after these, by one copy for each list. When out of memory, it drops them all.
    pub fn take_all(&mut self, others: &mut Unwritten) -> Result<(), AllocError>
        ensures ok { OnOk result (self.new ≡ self.old ++ others.old) }
        ensures empty { OnOk result (others.new ≡ []) }
    {
        match append_all(
            &mut self.output,
            &mut self.marks,
            &mut others.output,
            &mut others.marks,
        ) {
            Ok(()) => Ok(()),
            Err(error) => {
                forget(&mut self.output, &mut self.marks);
                forget(&mut others.output, &mut others.marks);
                Err(error)
            }
        }
    }

    /// Has a market apply an event, and appends its output, given the number of earlier messages of the feed, and of
    /// replies of each member, which it advances. If the market refuses the event, the earlier output stays.
    pub(crate) fn apply<B: Book + Drop>(
        &mut self,
        market: &mut Market<B>,
        event: &Event,
        before: u64,
        counts: &mut [u64],
    ) -> Result<OutputCounts, PrepareError>
        requires feed { before < 2 ^ 62 }
        requires numbered { length counts.old ≡ 4096 }
        requires each { (member : ℕ) → slice_index counts.old member < 2 ^ 62 }
        ensures setup { market.new.setup ≡ market.old.setup }
        ensures passes { OnOk result
            (refusal market.old.setup market.old.market.recorded event.now ≡ None) }
        ensures market { OnOk result (market.new.market
            ≡ (step market.old.setup market.old.market event.now).market) }
        ensures output { OnOk result (self.new
            ≡ self.old
            ++ (feed_lines before (step market.old.setup market.old.market event.now).output.feed
            ++ reply_lines counts.old
            (step market.old.setup market.old.market event.now).output.replies)) }
        ensures counted { OnOk result (counts.new
            ≡ counts_after counts.old
            (step market.old.setup market.old.market event.now).output.replies) }
        ensures feed_count { IfOk result (λ c. c.feed
            ≡ length (step market.old.setup market.old.market event.now).output.feed) }
        ensures reply_count { IfOk result (λ c. c.replies
            ≡ length (step market.old.setup market.old.market event.now).output.replies) }
        ensures few { IfOk result (λ c. (c.feed < 2 ^ 62) × (c.replies < 2 ^ 62)) }
        ensures refused { IfErr result (λ e. e
            ≡ or_no_memory (refusal market.old.setup market.old.market.recorded event.now)) }
        ensures retained { IfErr result (λ e. (e ≡ refused.NoMemory → ⊥) → self.new ≡ self.old) }
    {
        let (feed_from, replies_from) = (self.output.feed.len(), self.output.replies.len());
        market.apply(event, &mut self.output)?;
        let (_, feed) = self.output.feed.split_at(feed_from);
        let (_, replies) = self.output.replies.split_at(replies_from);
        let count = OutputCounts {
            feed: feed.len() as u64,
            replies: replies.len() as u64,
        };
        match mark_output(&mut self.marks, before, counts, feed, replies) {
            Ok(()) => Ok(count),
            Err(_) => {
                forget(&mut self.output, &mut self.marks);
                Err(PrepareError::NoMemory)
            }
        }
    }
}
