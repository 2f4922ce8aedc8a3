//! A day in words as it is written line by line, with the output of each event, and the numbers that it draws.

use hx_testing::Day;
use std::alloc::{AllocError, Global};
use std::fmt::Display;
use std::test::Fail;

/// The words of a day so far, and how many numbers of each kind were drawn.
#[derive(Drop)]
pub struct Script {
    alloc: Global,
    words: String,
    // The time of the last line, in nanoseconds since midnight. A line comes a nanosecond after the one before.
    time: u64,
    /// Public references.
    pub references: u64,
    /// Match numbers.
    pub matches: u64,
    // Messages of the feed.
    feed: u64,
    // Replies to each member, by its number.
    replies: Vec<u64>,
    // Private references of each member, by its number.
    privates: Vec<u64>,
    // Whether something is missing: a line that found no memory, or a number that is no member's.
    lacks: bool,
}

// Draws the next number of a member; none if there is no such member.
fn draw(counts: &mut [u64], member: usize) -> Option<u64> {
    let count = counts.get_mut(member)?;
    *count = count.saturating_add(1);
    Some(*count)
}

impl Script {
    /// Before the first line of a day, with members up to this number.
    pub fn new(alloc: Global, members: u16) -> Result<Script, AllocError> {
        let counts = usize::from(members) + 1;
        Ok(Script {
            alloc,
            words: String::new(alloc),
            time: 0,
            references: 0,
            matches: 0,
            feed: 0,
            replies: vec![in alloc; 0; counts]?,
            privates: vec![in alloc; 0; counts]?,
            lacks: false,
        })
    }

    /// The next line of the tape, of a member, or of the operator: 0.
    pub fn send<D: Display + Drop>(&mut self, member: usize, sent: D) {
        self.time = self.time.saturating_add(1);
        let time = self.time;
        let written = writeln!(self.words, "{time} {member} {sent}");
        self.lacks |= written.is_err();
    }

    /// Lets this time pass until the next line, in nanoseconds.
    pub fn pass(&mut self, nanoseconds: u64) {
        self.time = self.time.saturating_add(nanoseconds);
    }

    /// The next message of the feed.
    pub fn publish<D: Display + Drop>(&mut self, outputs: D) {
        self.feed = self.feed.saturating_add(1);
        let number = self.feed;
        let written = writeln!(self.words, "  F {number} {outputs}");
        self.lacks |= written.is_err();
    }

    /// The next reply to a member.
    pub fn reply<D: Display + Drop>(&mut self, member: usize, outputs: D) {
        let number = draw(&mut self.replies, member);
        let number = self.drawn(number);
        let written = writeln!(self.words, "  M {member} {number} {outputs}");
        self.lacks |= written.is_err();
    }

    /// The next public reference.
    pub fn reference(&mut self) -> u64 {
        self.references = self.references.saturating_add(1);
        self.references
    }

    /// The number of a member's next private reference.
    pub fn private(&mut self, member: usize) -> u64 {
        let number = draw(&mut self.privates, member);
        self.drawn(number)
    }

    // A number that was drawn; 0 if there is none, and then it is missing.
    fn drawn(&mut self, number: Option<u64>) -> u64 {
        self.lacks |= number.is_none();
        number.unwrap_or(0)
    }

    /// The bytes of the day, if nothing is missing.
    pub fn day(&self) -> Result<Day, Fail> {
        if self.lacks {
            return Err("a line, or a member".into());
        }
        Day::of(self.alloc, &self.words)
    }
}
