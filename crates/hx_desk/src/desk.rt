//! The desk.
ghost use Rattle.std.specs.Prelude.{◌≡◌, ◌<◌, ◌≤◌, ◌++◌, ◌^◌, [], length, take, drop, IfOk, IfErr, OnOk, OnErr};
ghost use mathlib.Core.List.{IsPrefix};
ghost use Rattle.hx_blog.specs.Feed.{feed};
ghost use Rattle.hx_units.specs.Fields.{texts};
ghost use Rattle.hx_desk.specs.Rows.{row_of, from_number, page};
ghost use Rattle.hx_desk.specs.Entries.{entry_of, ledger};
ghost use Rattle.hx_desk.specs.InStep.{IsMark, AreAnswered};
ghost use Rattle.hx_desk.specs.Desks.{AreRepliesAt, IsStanding, TellsNoSecret, Grows, Releases, Submits, Restores, IsResumed, Faults, reserved_from, start_of, is_over, published_of, published_market};
ghost use Rattle.hx_desk.specs.Known.{CatchesUp};

use crate::commit::commit_entry;
use crate::entry::{Done, Entry};
use crate::fault::DeskError;
use crate::mark::Mark;
use crate::rows::Rows;
use arrayvec::ArrayVec;
use hx_blog::{Log, NamesEntries, Reader, Receipt, Writer};
use hx_levels::LevelBook;
use hx_market::{Event, Market};
use hx_members::{Seed, Setup};
use hx_units::{MemberNo, NoMemory};
use std::alloc::Global;
use std::marker::{Brand, Model};
use std::mem::swap;

// The number of hours codes of a day: `O`, `S`, `Q`, `M`, `E`, `C` (ITCH 5.0, System Event Message).
const HOURS_CODES: u8 = 6;

// The number of reserved slots that this event may not take.
fn reserved_from(reserved: u64, event: &Event) -> u64
    ensures { result ≡ reserved_from reserved event.now }
{
    match event {
        Event::Tick { .. } | Event::Hours { .. } => 0,
        Event::Message { .. } | Event::Halt { .. } | Event::Break { .. } => reserved,
    }
}

/// The market with its history, the writer of the log, and the replies to each member. Its entries are first admitted,
/// then sealed, several at once, as the batch that the journal writes, and then published.
#[derive(Drop)]
pub struct Desk {
    market: Market<LevelBook>,
    writer: Writer<Entry>,
    history: Vec<Entry>,
    rows: Rows,
    // The end of the published entries, and the end of the sealed ones.
    published_end: Mark,
    sealed: Mark,
    // The members of the replies to the sealed entries, and those of the replies to the entries after them.
    writing: Vec<MemberNo>,
    waiting: Vec<MemberNo>,
    // The number of slots of the log that are reserved for the codes of the hours and for ticks.
    reserved: u64,
    alloc: Global,
}

impl Model for Desk {
    ghost use Rattle.hx_desk.specs.Desks.{DeskState, desk_of};
    ghost use Rattle.hx_desk.specs.InStep.{AreInStep};

    ghost Value = { DeskState };

    ghost view = { λ d. desk_of d.writer d.market d.history.items d.rows d.published_end d.sealed
        d.reserved };

    ghost invariant = { λ d. AreInStep d.market.setup d.market.market d.writer.published
        d.writer.staged d.history.items d.rows.rows d.rows.published_end d.published_end d.sealed
        d.writing.items d.waiting.items };
}

// Publishes what is staged up to the second mark, with one store.
fn publish_up_to<N: NamesEntries<Entry>>(
    writer: &mut Writer<Entry>,
    log: &Log<Entry>,
    market: &Market<LevelBook>,
    history: &[Entry],
    published_end: Mark,
    sealed: Mark,
)
    requires log { writer.old.log ≡ log.now }
    requires published_end { IsMark market.now.setup history.now published_end }
    requires sealed { IsMark market.now.setup history.now sealed }
    requires order { published_end.entries ≤ sealed.entries }
    requires published { writer.old.published
        ≡ ledger market.now.setup (take published_end.entries history.now) }
    requires staged { feed writer.old.published ++ writer.old.staged
        ≡ feed (ledger market.now.setup history.now) }
    requires entries { N.entries ≡ drop published_end.entries
        (take sealed.entries (ledger market.now.setup history.now)) }
    requires left { N.left
        ≡ feed (drop sealed.entries (ledger market.now.setup history.now)) }
    ensures log { writer.new.log ≡ writer.old.log }
    ensures published { writer.new.published
        ≡ ledger market.now.setup (take sealed.entries history.now) }
    ensures staged { feed writer.new.published ++ writer.new.staged
        ≡ feed (ledger market.now.setup history.now) }
{
    let count = sealed.messages - published_end.messages;
    writer.publish_first::<N>(log, count);
}

// Appends members to a list.
fn list_members(listed: &mut Vec<MemberNo>, members: &[MemberNo]) -> Result<(), NoMemory>
    ensures ok { OnOk result (listed.new.items ≡ listed.old.items ++ members.now) }
    ensures err { OnErr result (listed.new.items ≡ listed.old.items) }
{
    listed.extend_from_slice(members)?;
    Ok(())
}

impl Desk {
    /// A desk at its start, for a log to which nothing was written, with the fixed seed. Fails with `NoMemory` if there
    /// is no memory for the market or the rows.
    pub fn new(alloc: Global, setup: Setup, writer: Writer<Entry>) -> Result<Desk, NoMemory>
        requires { (writer.published ≡ []) × (writer.staged ≡ []) }
        ensures { IfOk result (λ desk. desk ≡ start_of writer.log setup) }
    {
        Desk::seeded(alloc, setup, writer, Seed::Fixed)
    }

    /// A desk at its start, for a log to which nothing was written, whose table of tokens has this seed. Fails with
    /// `NoMemory` if there is no memory for the market or the rows.
    pub fn seeded(
        alloc: Global,
        setup: Setup,
        writer: Writer<Entry>,
        seed: Seed,
    ) -> Result<Desk, NoMemory>
        requires { (writer.published ≡ []) × (writer.staged ≡ []) }
        ensures { IfOk result (λ desk. desk ≡ start_of writer.log setup) }
    {
        let market = Market::seeded(alloc, setup, LevelBook::new(alloc), seed)?;
        let start = Mark {
            entries: 0,
            messages: 0,
            phase: market.phase(),
        };
        Ok(Desk {
            market,
            writer,
            history: Vec::new(alloc),
            rows: Rows::new(alloc)?,
            published_end: start,
            sealed: start,
            writing: Vec::new(alloc),
            waiting: Vec::new(alloc),
            reserved: 0,
            alloc,
        })
    }

    /// Reserves this number of slots of the log, the last ones, for the codes of the hours and for ticks: from now on
    /// no other event is given one of them.
    pub fn keep(&mut self, slots: u64)
        ensures { self.new ≡ record self.old { reserved = slots } }
    {
        self.reserved = slots;
    }

    /// Gives a caller's proof the invariants of a desk; it does nothing.
    pub fn stands(&self)
        ensures standing { IsStanding self.now }
        ensures secret { TellsNoSecret self.now }
    {
        let _ = &self.history;
    }

    /// Prefetches what the first sixteen of these coming events are about, so that their memory is in the cache when
    /// they are admitted (`Market::prefetch`). No clause says anything about the result, which has no use but to be
    /// computed.
    pub fn prefetch(&self, events: &[Event]) -> u64 {
        self.market.prefetch(events)
    }

    /// Returns the number of orders that the market has passed over one by one (`Market::passed_over`): what incoming
    /// orders with a minimum have cost besides their executions. No clause says anything about it.
    pub fn passed_over(&self) -> u64 {
        self.market.passed_over()
    }

    // Records an event: all growths are made before anything changes.
    fn record(&mut self, log: &Log<Entry>, pass: u16, event: &Event) -> Result<Done, DeskError>
        requires { self.old.log ≡ log.now }
        ensures ok { IfOk result (Grows self.old self.new (entry_of pass event.now)) }
        ensures err { OnErr result (self.new ≡ self.old) }
        ensures refused { IfErr result (Faults self.old event.now) }
    {
        let prepared = self.market.prepare(event)?;
        let needed = prepared.feed_count();
        let free = self
            .writer
            .free(log)
            .saturating_sub(reserved_from(self.reserved, event));
        if free < needed {
            return Err(DeskError::Full { free, needed });
        }
        let entry = Entry {
            pass,
            event: event.copy()?,
        };
        self.history.reserve(1).map_err(|_| NoMemory)?;
        self.rows.reserve(prepared.reply_members())?;
        list_members(&mut self.waiting, prepared.reply_members())?;
        let done = Done {
            place: self.history.len() as u64 + 1,
            first: self.writer.reached() + 1,
            count: needed,
        };
        commit_entry(
            &mut self.market,
            &mut self.writer,
            &mut self.history,
            &mut self.rows,
            log,
            prepared,
            entry,
        );
        Ok(done)
    }

    /// Admits an event for a pass: one step of the market. Nothing of it is published yet: its messages of the feed are
    /// staged, and the replies to it are in their rows. If it is refused, nothing changes. The refusals come in the
    /// order `BadTime`, `NoMember`, `Limit`, and then `NoMemory` or `Full`, whichever is met first.
    pub fn admit(&mut self, log: &Log<Entry>, pass: u16, event: &Event) -> Result<Done, DeskError>
        requires { self.old.log ≡ log.now }
        ensures ok { IfOk result (Grows self.old self.new (entry_of pass event.now)) }
        ensures err { OnErr result (self.new ≡ self.old) }
        ensures refused { IfErr result (Faults self.old event.now) }

        // Ok or not: the market is the run of the history, the log has the published entries with their feed, and each
        // row is its member's replies to these; and they disclose nothing of quiet chains.
        ensures standing { IsStanding self.new }
        ensures secret { TellsNoSecret self.new }
    {
        let done = self.record(log, pass, event);
        self.stands();
        done
    }

    /// Seals all waiting entries: they are the batch that the journal writes next. No other batch may be sealed and not
    /// yet published.
    pub fn seal(&mut self)
        requires { self.old.sealed ≡ self.old.published_end }
        ensures { self.new ≡ record self.old { sealed = length self.old.history } }
    {
        self.sealed = Mark {
            entries: self.history.len() as u64,
            messages: self.writer.reached(),
            phase: self.market.phase(),
        };
        swap(&mut self.writing, &mut self.waiting);
    }

    // Publishes the sealed entries.
    fn tell(&mut self, log: &Log<Entry>)
        requires { self.old.log ≡ log.now }
        ensures { Releases self.old self.new }
    {
        publish_up_to::<Brand>(
            &mut self.writer,
            log,
            &self.market,
            &self.history,
            self.published_end,
            self.sealed,
        );
        self.rows.tell(&self.writing);
        self.writing.clear();
        self.published_end = self.sealed;
    }

    /// Publishes the sealed entries, once they are durable: their messages of the feed with one store, and the replies
    /// to them in their members' rows. It takes no memory, and cannot fail.
    pub fn release(&mut self, log: &Log<Entry>)
        requires { self.old.log ≡ log.now }
        ensures released { Releases self.old self.new }
        ensures standing { IsStanding self.new }
        ensures secret { TellsNoSecret self.new }
    {
        self.tell(log);
        self.stands();
    }

    /// Records an event for a pass, and publishes it at once: one step of the market, whose messages of the feed are
    /// published, and whose replies stand in their members' rows. No other entry may wait to be published. If the event
    /// is refused, nothing changes. The refusals come in the order `BadTime`, `NoMember`, `Limit`, and then `NoMemory`
    /// or `Full`, whichever is met first.
    pub fn submit(&mut self, log: &Log<Entry>, pass: u16, event: &Event) -> Result<Done, DeskError>
        requires log { self.old.log ≡ log.now }
        requires settled { self.old.published_end ≡ length self.old.history }
        ensures ok { IfOk result (Submits self.old self.new (entry_of pass event.now)) }
        ensures err { OnErr result (self.new ≡ self.old) }
        ensures refused { IfErr result (Faults self.old event.now) }
        ensures standing { IsStanding self.new }
        ensures secret { TellsNoSecret self.new }
    {
        self.stands();
        let done = self.admit(log, pass, event)?;
        self.seal();
        self.release(log);
        Ok(done)
    }

    /// Records an event of a history that is durable already, under no pass, and publishes it at once. No other entry
    /// may wait to be published. If the event is refused, nothing changes.
    pub fn restore(&mut self, log: &Log<Entry>, event: &Event) -> Result<(), DeskError>
        requires log { self.old.log ≡ log.now }
        requires settled { self.old.published_end ≡ length self.old.history }
        ensures ok { OnOk result (Restores self.old self.new event.now) }
        ensures err { OnErr result (self.new ≡ self.old) }
        ensures refused { IfErr result (Faults self.old event.now) }
    {
        self.stands();
        self.admit(log, 0, event)?;
        self.seal();
        self.release(log);
        Ok(())
    }

    /// A desk that resumes from a durable history: it has recorded these events, in this order, and published them.
    pub fn resume(
        alloc: Global,
        setup: Setup,
        writer: Writer<Entry>,
        seed: Seed,
        log: &Log<Entry>,
        events: &[Event],
    ) -> Result<Desk, DeskError>
        requires empty { (writer.published ≡ []) × (writer.staged ≡ []) }
        requires log { writer.log ≡ log.now }
        ensures { IfOk result (λ desk. IsResumed log.now setup events.now desk) }
    {
        let mut desk = Desk::seeded(alloc, setup, writer, seed)?;
        for event in events {
            desk.restore(log, event)?;
        }
        desk.stands();
        Ok(desk)
    }

    /// Why an event is refused if there is no memory for it: as `submit` would refuse it, or when out of memory.
    pub fn refuse(&mut self, event: &Event) -> DeskError
        ensures same { self.new ≡ self.old }
        ensures refused { Faults self.old event.now result }
    {
        match self.market.prepare(event) {
            Ok(_) => DeskError::NoMemory,
            Err(error) => DeskError::from(error),
        }
    }

    /// The members of the replies to the entries that wait to be sealed, each once per reply.
    pub fn waiting_members(&self) -> &[MemberNo]
        ensures { AreAnswered self.now.setup (take self.now.sealed self.now.history)
            self.now.history result.now }
    {
        &self.waiting
    }

    /// The members of the replies to the sealed entries, each once per reply.
    pub fn writing_members(&self) -> &[MemberNo]
        ensures { AreAnswered self.now.setup (take self.now.published_end self.now.history)
            (take self.now.sealed self.now.history) result.now }
    {
        &self.writing
    }

    /// The number of published replies to a member.
    pub fn reply_count(&self, member: MemberNo) -> u64
        ensures count { result ≡ length (row_of self.now.rows member) }
        ensures few { result < 2 ^ 63 }
        ensures range { member < 4096 }
    {
        self.rows.count(member)
    }

    /// The published replies to a member, from this number on, which counts from 1; 0 is read as 1. The call takes
    /// memory only if there are replies.
    pub fn replies_from(
        &self,
        member: MemberNo,
        from: u64,
    ) -> Result<Vec<ArrayVec<u8, 80>>, NoMemory>
        ensures replies { IfOk result (λ rows.
            AreRepliesAt self.now member (from_number from) (texts rows.items)) }
        ensures memory { IfErr result (λ _.
            0 < length (from_number from (row_of self.now.rows member))) }
        ensures few { length (row_of self.now.rows member) < 2 ^ 63 }
        ensures range { member < 4096 }
    {
        self.rows.from(member, from)
    }

    /// At most `most` replies to a member, from this number on. The call takes memory only if there are replies.
    pub fn replies_page(
        &self,
        member: MemberNo,
        from: u64,
        most: u64,
    ) -> Result<Vec<ArrayVec<u8, 80>>, NoMemory>
        ensures replies { IfOk result (λ rows.
            AreRepliesAt self.now member (page from most) (texts rows.items)) }
        ensures memory { IfErr result (λ _.
            0 < length (page from most (row_of self.now.rows member))) }
        ensures few { length (row_of self.now.rows member) < 2 ^ 63 }
        ensures range { member < 4096 }
    {
        self.rows.page(member, from, most)
    }

    /// Whether hours code `C`, the last of the day, is among the entries released so far.
    pub fn ended(&self) -> bool
        ensures { result ≡ is_over (published_market self.now) }
    {
        self.published_end.phase >= HOURS_CODES
    }

    /// The number of entries of the history, published or not.
    pub fn history_len(&self) -> u64
        ensures { result ≡ length self.now.history }
    {
        self.history.len() as u64
    }

    /// The number of published entries.
    pub fn published_len(&self) -> u64
        ensures { result ≡ self.now.published_end }
    {
        self.published_end.entries
    }

    /// The number of entries that are published or sealed.
    pub fn sealed_len(&self) -> u64
        ensures { result ≡ self.now.sealed }
    {
        self.sealed.entries
    }

    /// The number of published feed messages.
    pub fn feed_count(&self) -> u64
        ensures { result ≡ length (feed self.now.published) }
    {
        self.writer.count()
    }

    /// A copy of the published part of the history.
    pub fn copy_history(&self) -> Result<Vec<Entry>, NoMemory>
        ensures { IfOk result (λ history. history.items ≡ published_of self.now) }
    {
        let published_end = &self.history[..self.published_end.entries as usize];
        let mut history = Vec::with_capacity(self.alloc, published_end.len())?;
        for entry in published_end {
            let pass = entry.pass;
            let event = entry.event.copy()?;
            history.push(Entry { pass, event })?;
        }
        Ok(history)
    }

    /// Gives out the history and the writer of the log.
    pub fn into_parts(self) -> (Vec<Entry>, Writer<Entry>)
        ensures history { result.0.items ≡ self.history }
        ensures published { (result.1.log ≡ self.log) × (result.1.published ≡ self.published) }
        ensures whole { self.published_end ≡ length self.history → result.1.staged ≡ [] }
    {
        let Desk {
            market: _,
            writer,
            history,
            rows: _,
            published_end: _,
            sealed: _,
            writing: _,
            waiting: _,
            reserved: _,
            alloc: _,
        } = self;
        (history, writer)
    }

    /// Confirms a receipt: what it knows is a beginning of what is published.
    pub fn confirm(&mut self, log: &Log<Entry>, receipt: Receipt<Entry>)
        requires log { self.old.log ≡ log.now }
        requires receipt { receipt.log ≡ log.now }
        ensures same { self.new ≡ self.old }
        ensures begins { IsPrefix receipt.known self.old.published }
    {
        self.writer.confirm(log, receipt);
    }

    /// Renews a receipt: from now on it is for all that is published, of which it knew a beginning.
    pub fn renew(&mut self, log: &Log<Entry>, receipt: &mut Receipt<Entry>)
        requires log { self.old.log ≡ log.now }
        requires receipt { receipt.old.log ≡ log.now }
        ensures same { self.new ≡ self.old }
        ensures begins { IsPrefix receipt.old.known self.old.published }
        ensures receipt { receipt.new ≡ record { log = self.old.log; known = self.old.published } }
    {
        receipt.catch_up(log, &mut self.writer);
    }

    /// The reader loads the count, and knows from now on all that is published.
    pub fn inform(&mut self, log: &Log<Entry>, reader: &mut Reader<Entry>)
        requires log { self.old.log ≡ log.now }
        requires reader { reader.old.log ≡ log.now }
        ensures same { self.new ≡ self.old }
        ensures known { reader.new.known ≡ self.old.published }
        ensures reader { CatchesUp reader.old reader.new }
    {
        reader.catch_up(log, &mut self.writer);
    }
}
