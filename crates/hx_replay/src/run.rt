//! A replay as it goes: its market, and what was counted.
ghost use Rattle.std.specs.Prelude.{◌≡◌, ◌<◌, ◌^◌, ◌+◌, ◌++◌, [], ℕ, List, IfOk, IfErr, OnOk, replicate};
ghost use Rattle.hx_replay.specs.declared.fault.TapeError.TheVariants as fault;
ghost use Rattle.hx_tape_lines.specs.Events.{IsKnown, event_of};
ghost use Rattle.hx_tape_lines.specs.Text.{Entry, line};
ghost use Rattle.hx_replay.specs.Run.{fault_of, counts_of, start, Applies, Faults, IsFew};

use crate::buffers::LineBuffers;
use crate::fault::TapeError;
use crate::unwritten::{OutputCounts, Unwritten};
use hx_book::Book;
use hx_market::{Event, Market, PrepareError};
use hx_members::Setup;
use hx_tape_lines::Kind;
use hx_units::NoMemory;
use std::alloc::{AllocError, Global};
use std::marker::Model;

/// What a replay counted.
#[derive(Clone, Copy, Debug, PartialEq, Eq)]
pub struct Counts {
    /// The events.
    pub events: u64,
    /// The messages of the feed.
    pub feed: u64,
    /// The replies.
    pub replies: u64,
}

impl Counts {
    // The counts after one event more, with its output.
    fn after(self, output: OutputCounts) -> Counts
        requires events { self.events < 2 ^ 63 }
        requires feed { self.feed + output.feed < 2 ^ 64 }
        requires replies { self.replies + output.replies < 2 ^ 64 }
        ensures { result ≡ record {
          events = self.events + 1;
          feed = self.feed + output.feed;
          replies = self.replies + output.replies;
        } }
    {
        Counts {
            events: self.events + 1,
            feed: self.feed + output.feed,
            replies: self.replies + output.replies,
        }
    }
}

/// A replay as it goes. Contracts see its progress.
pub struct Run<B: Book> {
    market: Market<B>,
    counts: Counts,
    // How many replies went to each member number.
    replies: Vec<u64>,
    // The result of prefetching: it only keeps the reads from being optimized away.
    prefetched: u64,
    alloc: Global,
}

// By hand, so that when a value is dropped its owner's proof sees one call.
impl<B: Book + Drop> Drop for Run<B> {
    fn drop(self) {
        let Run {
            market: _,
            counts: _,
            replies: _,
            prefetched: _,
            alloc: _,
        } = self;
    }
}

impl<B: Book> Model for Run<B> {
    ghost use Rattle.hx_replay.specs.Run.{Progress};

    ghost Value = { Progress };

    ghost view = { λ r. record {
      setup = r.market.setup;
      market = r.market.market;
      events = r.counts.events;
      feed = r.counts.feed;
      replies = r.counts.replies;
      counts = r.replies.items;
    } };
}

// The counts of no reply to any member number.
fn no_replies(alloc: Global) -> Result<Vec<u64>, AllocError>
    ensures { IfOk result (λ counts. counts.items ≡ replicate 4096 0) }
{
    vec![in alloc; 0; 4096]
}

/// The fault of the line of this number, if the market refuses its event.
pub fn fault_of(line: u64, error: PrepareError) -> TapeError
    ensures { result ≡ fault_of line error }
{
    let kind = match error {
        PrepareError::NoMemory => return TapeError::NoMemory,
        PrepareError::Limit { .. } => Kind::Limit,
        PrepareError::NoMember => Kind::Member,
        PrepareError::BadTime => Kind::Time,
    };
    TapeError::Line { line, kind }
}

impl<B: Book + Drop> Run<B> {
    /// A replay at its start, over an empty book.
    pub fn new(alloc: Global, setup: Setup, book: B) -> Result<Self, NoMemory>
        requires { B.orders book ≡ [] }
        ensures { IfOk result (λ run. run ≡ start setup) }
    {
        Ok(Run {
            market: Market::new(alloc, setup, book)?,
            counts: Counts {
                events: 0,
                feed: 0,
                replies: 0,
            },
            replies: no_replies(alloc)?,
            prefetched: 0,
            alloc,
        })
    }

    /// What was counted.
    pub fn counts(&self) -> Counts
        ensures { result ≡ counts_of self.now }
    {
        self.counts
    }

    /// Looks at the next events before their turn, so that what they need is in the processor's cache then. Nothing changes.
    pub fn prefetch(&mut self, events: &[Event])
        ensures { self.new ≡ self.old }
    {
        self.prefetched = self.prefetched.wrapping_add(self.market.prefetch(events));
    }

    /// Applies the next line, and appends its output lines to those in the buffers. If the line fails, those before it
    /// stay.
    pub(crate) fn apply(&mut self, text: &[u8], buffers: &mut LineBuffers) -> Result<(), TapeError>
        requires events { self.old.events < 2 ^ 48 }
        requires few { IsFew self.old }
        ensures ok { OnOk result ((written : List ℕ)
            × Applies self.old self.new text.now written
            × (buffers.new.lines ≡ buffers.old.lines ++ written)) }
        ensures faults { IfErr result (Faults self.old text.now) }
        ensures retained { IfErr result (λ e. (e ≡ fault.NoMemory → ⊥)
            → buffers.new.lines ≡ buffers.old.lines) }
    {
        let line = self.counts.events + 1;
        let bad = TapeError::Line {
            line,
            kind: Kind::Bad,
        };
        let Some(event) = buffers.read(self.alloc, text)? else {
            return Err(bad);
        };
        self.apply_event(&event, &mut buffers.lines)?;
        buffers.keep_index(event);
        Ok(())
    }

    /// Applies the event of the next line, and appends its output lines to others. If the line fails, the others stay,
    /// except when out of memory.
    pub fn apply_event(&mut self, event: &Event, lines: &mut Unwritten) -> Result<(), TapeError>
        requires events { self.old.events < 2 ^ 48 }
        requires few { IsFew self.old }
        ensures ok { OnOk result ((e : Entry) → IsKnown e → event.now ≡ event_of e
            → (written : List ℕ) × Applies self.old self.new (line e) written
            × (lines.new ≡ lines.old ++ written)) }
        ensures faults { IfErr result (λ x. (e : Entry) → IsKnown e → event.now ≡ event_of e
            → Faults self.old (line e) x) }
        ensures retained { IfErr result (λ e. (e ≡ fault.NoMemory → ⊥) → lines.new ≡ lines.old) }
    {
        let before = self.counts.feed;
        match lines.apply(&mut self.market, event, before, &mut self.replies) {
            Ok(output) => {
                self.counts = self.counts.after(output);
                Ok(())
            }
            Err(error) => Err(fault_of(self.counts.events + 1, error)),
        }
    }
}
