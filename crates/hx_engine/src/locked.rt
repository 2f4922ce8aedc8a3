//! The state under the lock.
ghost use Rattle.std.specs.Prelude.{◌≡◌, ◌+◌, ◌<◌, ◌≤◌, [], ◌∷◌, ◌++◌, length, map, nat_lt, take, drop, Some, None, Err, IfOk, IfErr, IfSome, OnOk, OnErr, MatchBool};
ghost use Rattle.hx_tape_lines.specs.Text.{record_of};
ghost use mathlib.Core.List.{IsPrefix};
ghost use Rattle.hx_blog.specs.Feed.{feed};
ghost use Rattle.hx_desk.specs.Entries.{entry_of, restored};
ghost use Rattle.std.proofs.Props.{props};
ghost use Rattle.hx_desk.specs.Desks.{Grows, Faults, IsResumed};
ghost use Rattle.hx_engine.specs.Journals.{unspoken, lines};
ghost use Rattle.hx_engine.specs.Passes.{sent_by};
ghost use Rattle.hx_engine.specs.Exchanges.{DoneAt, LastDone, AreAdmittedUpTo, IsRefusedOutright, Settles};

use crate::answers::{SubmitError, refused};
use crate::batch_write::{BatchWrite, WrittenBatch};
use crate::entered::Entered;
use crate::journal_writer::JournalWriter;
use crate::spelled::Records;
use crate::venue::Venue;
use hx_blog::{Log, NamesEntries, Receipt, Writer};
use hx_desk::{Desk, DeskError, Done, Entry};
use hx_journal::{Journal, JournalError};
use hx_market::Event;
use std::alloc::Global;
use std::marker::Brand;
use std::mem::replace;
use std::sync::ledger::{Book, Share};

// The number of events that are prefetched before the first of them is admitted.
const AT_ONCE: usize = 16;

// The number of orders that the market may pass over before the events of one pass give the lock back.
const TURN: u64 = 4_096;

/// Which threads have news, besides the members that were answered.
#[derive(Clone, Copy)]
pub struct PublishedNews {
    /// The publisher: messages of the feed were published.
    pub is_feed: bool,
    /// Every thread: nothing more is published, since the day is over or the journal has failed.
    pub is_last: bool,
}

impl PublishedNews {
    /// Every thread has news: the journal has failed.
    pub fn last() -> PublishedNews {
        PublishedNews {
            is_feed: true,
            is_last: true,
        }
    }
}

/// The desk of a venue, with the book that counts each of its entries once, and the journal while no thread writes to
/// it.
#[derive(Drop)]
pub struct Held<V: Venue, J: Journal> {
    /// The desk.
    pub desk: Desk,
    /// The number of entries that all passes sent.
    pub book: Book<V>,
    /// The share of no pass.
    pub spare: Share<V>,
    // The writer of the log of the admitted entries, and a receipt for the durable entries.
    pub register: Writer<Entry>,
    pub durable: Receipt<Entry>,
    // The records of the entries that are not sealed.
    pub records: Records,
    pub journal_writer: Option<JournalWriter<V, J>>,
    // Why the journal failed, if it did.
    pub failed: Option<JournalError>,
    // The sum of what was prefetched: nobody reads it.
    pub prefetched: u64,
    pub alloc: Global,
    pub ghost named: { desk.log ≡ V.log },
    pub ghost of_setup: { desk.setup ≡ V.setup },
    pub ghost counted: { length desk.history ≡ length V.before + book.total },
    pub ghost began: { take (length V.before) (take desk.published_end desk.history) ≡ restored V.before },
    pub ghost no_parts: { spare.parts ≡ 0 },
    pub ghost no_amount: { spare.amount ≡ 0 },
    pub ghost registered: { register ≡ record {
      log = V.admitted;
      published = unspoken desk.history;
      staged = [];
    } },
    pub ghost covered: { durable ≡ record {
      log = V.durable;
      known = unspoken (take desk.published_end desk.history);
    } },
    pub ghost spelled: { records ≡ lines record_of (drop desk.sealed desk.history) },
    pub ghost home: { IfSome journal_writer (λ k.
        (k.writer.published ≡ unspoken (take desk.published_end desk.history))
        × (desk.sealed ≡ desk.published_end)) } by { Prim.hlevel props },
}

// Publishes an entry of a pass in the log of the admitted entries.
fn write_down<N: NamesEntries<Entry>>(
    register: &mut Writer<Entry>,
    log: &Log<Entry>,
    pass: u16,
    event: &Event,
)
    requires log { register.old.log ≡ log.now }
    requires staged { register.old.staged ≡ [] }
    requires entries { N.entries ≡ unspoken (entry_of pass event.now ∷ []) }
    requires left { N.left ≡ [] }
    ensures { register.new ≡ record register.old {
      published = register.old.published
          ++ unspoken (entry_of pass event.now ∷ []);
    } }
{
    register.publish_first::<N>(log, 0);
}

impl<V: Venue, J: Journal + Drop> Held<V, J> {
    /// The state under the lock at the start of an exchange that resumes from events, which its desk has recorded and
    /// its journal holds.
    pub fn open(
        alloc: Global,
        desk: Desk,
        book: Book<V>,
        spare: Share<V>,
        register: Writer<Entry>,
        durable: Receipt<Entry>,
        journal_writer: JournalWriter<V, J>,
    ) -> Held<V, J>
        requires desk { IsResumed V.log V.setup V.before desk }
        requires book { book.total ≡ 0 }
        requires spare { (spare.parts ≡ 0) × (spare.amount ≡ 0) }
        requires register { register ≡ record {
          log = V.admitted;
          published = unspoken (restored V.before);
          staged = [];
        } }
        requires durable { durable ≡ record { log = V.durable; known = unspoken (restored V.before) } }
        requires journal_writer { journal_writer.writer.published ≡ unspoken (restored V.before) }
    {
        Held {
            desk,
            book,
            spare,
            register,
            durable,
            records: Records::new(alloc),
            journal_writer: Some(journal_writer),
            failed: None,
            prefetched: 0,
            alloc,
        }
    }

    /// Whether the journal is there and touches no disk.
    pub fn is_quick(&self) -> bool {
        self.journal_writer
            .as_ref()
            .is_some_and(|journal_writer| journal_writer.is_quick())
    }

    /// Which threads have news since `seen` messages of the feed were published.
    pub fn news_since(&self, seen: u64) -> PublishedNews
        ensures { result.is_feed ≡ nat_lt seen (length (feed self.now.desk.published)) }
    {
        PublishedNews {
            is_feed: self.desk.feed_count() > seen,
            is_last: self.desk.ended() || self.failed.is_some(),
        }
    }

    /// The number of events that are admitted and not yet published.
    pub fn ahead_len(&self) -> u64 {
        self.desk
            .history_len()
            .saturating_sub(self.desk.published_len())
    }

    /// Admits an event for a pass, with its record, and counts it in its share.
    pub fn admit(
        &mut self,
        log: &Log<Entry>,
        admitted: &Log<Entry>,
        pass: u16,
        share: &mut Share<V>,
        event: &Event,
        written: &[u8],
    ) -> Result<Done, DeskError>
        requires log { log.now ≡ V.log }
        requires admitted { admitted.now ≡ V.admitted }
        requires share { 0 < share.old.parts }
        requires written { written.now ≡ record_of event.now }
        ensures ok { IfOk result (Grows self.old.desk self.new.desk (entry_of pass event.now)) }
        ensures err { OnErr result (self.new.desk ≡ self.old.desk) }
        ensures refused { IfErr result (Faults self.old.desk event.now) }
        ensures counted { OnOk result (share.new.amount ≡ share.old.amount + 1) }
        ensures uncounted { OnErr result (share.new.amount ≡ share.old.amount) }
        ensures parts { share.new.parts ≡ share.old.parts }
    {
        let Held {
            desk,
            book,
            register,
            records,
            ..
        } = self;
        desk.stands();
        let before = records.len();
        let Ok(()) = records.push(written) else {
            return Err(desk.refuse(event));
        };
        let done = match desk.admit(log, pass, event) {
            Ok(done) => done,
            Err(error) => {
                records.truncate(before);
                return Err(error);
            }
        };
        write_down::<Brand>(register, admitted, pass, event);
        book.add(share, 1);
        Ok(done)
    }

    /// Admits an event for a pass, with its record.
    fn enter(
        &mut self,
        log: &Log<Entry>,
        admitted: &Log<Entry>,
        pass: u16,
        share: &mut Share<V>,
        event: &Event,
        written: &[u8],
    ) -> Result<Done, SubmitError>
        requires log { log.now ≡ V.log }
        requires admitted { admitted.now ≡ V.admitted }
        requires share { 0 < share.old.parts }
        requires written { written.now ≡ record_of event.now }
        ensures history { OnOk result (self.new.desk.history
            ≡ self.old.desk.history ++ entry_of pass event.now ∷ []) }
        ensures err { OnErr result (self.new.desk.history ≡ self.old.desk.history) }
        ensures done { IfOk result (DoneAt V.setup self.old.desk.history event.now) }
        ensures counted { OnOk result (share.new.amount ≡ share.old.amount + 1) }
        ensures uncounted { OnErr result (share.new.amount ≡ share.old.amount) }
        ensures parts { share.new.parts ≡ share.old.parts }
        ensures outright { IsRefusedOutright V.setup event.now result }
    {
        self.desk.stands();
        match self.admit(log, admitted, pass, share, event, written) {
            Ok(done) => Ok(done),
            Err(error) => Err(refused(error, false)),
        }
    }

    /// Why an event is refused that cannot be admitted, since the exchange has stopped or there is no memory for it.
    pub fn refuse(&mut self, event: &Event, stopped: bool) -> SubmitError
        ensures desk { self.new.desk ≡ self.old.desk }
        ensures outright { IsRefusedOutright V.setup event.now (Err result) }
    {
        refused(self.desk.refuse(event), stopped || self.failed.is_some())
    }

    // Prefetches what the events from an index on are about, if all events that were prefetched before are admitted.
    fn prefetch(&mut self, events: &[Event], index: usize)
        requires { index ≤ length events.now }
        ensures { self.new.desk ≡ self.old.desk }
    {
        if index % AT_ONCE == 0 {
            self.prefetched = self
                .prefetched
                .wrapping_add(self.desk.prefetch(&events[index..]));
        }
    }

    // The number of orders that the market has passed over since that number was `before`.
    fn passed_since(&self, before: u64) -> u64 {
        self.desk.passed_over().wrapping_sub(before)
    }

    /// Admits events for a pass, with their records, one after another, up to the first that is refused. It stops early
    /// after an event by which the market has passed over `TURN` orders or more.
    pub fn enter_all(
        &mut self,
        log: &Log<Entry>,
        admitted: &Log<Entry>,
        pass: u16,
        share: &mut Share<V>,
        events: &[Event],
        written: &Records,
    ) -> Entered
        requires some { 0 < length events.now }
        requires log { log.now ≡ V.log }
        requires admitted { admitted.now ≡ V.admitted }
        requires share { 0 < share.old.parts }
        requires written { written.now ≡ map record_of events.now }
        ensures history { self.new.desk.history
            ≡ self.old.desk.history ++ sent_by pass (take result.count events.now) }
        ensures place { 0 < result.count
            → result.last.place ≡ length self.old.desk.history + result.count }
        ensures last { LastDone V.setup pass self.old.desk.history
            (take result.count events.now) result.last }
        ensures counted { share.new.amount ≡ share.old.amount + result.count }
        ensures parts { share.new.parts ≡ share.old.parts }
        ensures outright { AreAdmittedUpTo V.setup events.now result.count result.refused }
    {
        let mut last = Done {
            place: 0,
            first: 0,
            count: 0,
        };
        let before = self.desk.passed_over();
        for i in 0..events.len() {
            self.prefetch(events, i);
            match self.enter(log, admitted, pass, share, &events[i], written.get(i)) {
                Ok(done) => last = done,
                Err(error) => {
                    let passed = self.passed_since(before);
                    return Entered::but_for(i, last, error, passed);
                }
            }
            let passed = self.passed_since(before);
            if passed >= TURN {
                return Entered::up_to(i + 1, last, passed);
            }
        }
        Entered::up_to(events.len(), last, self.passed_since(before))
    }

    /// Takes the journal, and the batch that is written next, if the journal is there.
    pub fn begin(&mut self, admitted: &Log<Entry>) -> Option<BatchWrite<V, J>>
        requires admitted { admitted.now ≡ V.admitted }
        ensures desk { self.new.desk.history ≡ self.old.desk.history }
    {
        let Held {
            desk,
            register,
            records,
            journal_writer,
            alloc,
            ..
        } = self;
        let journal_writer = journal_writer.take()?;
        desk.stands();
        desk.seal();
        let records = replace(records, Records::new(*alloc));
        Some(BatchWrite {
            journal_writer,
            records,
            knows: register.receipt(admitted),
            end: desk.sealed_len(),
        })
    }

    /// Takes the journal back, and publishes the batch that it holds now. If this is not the batch that was taken,
    /// which cannot be, the exchange stops.
    pub fn publish_batch(
        &mut self,
        log: &Log<Entry>,
        admitted: &Log<Entry>,
        durable: &Log<Entry>,
        written_batch: WrittenBatch<V, J>,
    )
        requires log { log.now ≡ V.log }
        requires admitted { admitted.now ≡ V.admitted }
        requires durable { durable.now ≡ V.durable }
    {
        let WrittenBatch {
            journal_writer,
            room,
            knows,
            end,
        } = written_batch;
        if self.journal_writer.is_some() || self.desk.sealed_len() != end {
            self.failed = Some(JournalError::Closed);
            return;
        }
        self.records.reuse(room);
        self.register.confirm(admitted, knows);
        self.tell(log, durable, journal_writer);
    }

    // Publishes what the journal holds.
    fn tell(&mut self, log: &Log<Entry>, durable: &Log<Entry>, journal_writer: JournalWriter<V, J>)
        requires log { log.now ≡ V.log }
        requires durable { durable.now ≡ V.durable }
        requires keeps { journal_writer.writer.published
            ≡ unspoken (take self.old.desk.sealed self.old.desk.history) }
    {
        let mut journal_writer = journal_writer;
        let Held {
            desk,
            durable: receipt,
            journal_writer: home,
            ..
        } = self;
        desk.stands();
        desk.release(log);
        journal_writer.renew(durable, receipt);
        *home = Some(journal_writer);
    }

    /// Whether the entry with this position in the history is published. If it is, a pass that knows of its admission
    /// knows from then on all that is published.
    pub fn settle(
        &mut self,
        log: &Log<Entry>,
        admitted: &Log<Entry>,
        knows: &mut Receipt<Entry>,
        entered: &mut Receipt<Entry>,
        position: u64,
    ) -> bool
        requires log { log.now ≡ V.log }
        requires admitted { admitted.now ≡ V.admitted }
        requires knows { knows.old.log ≡ V.log }
        requires entered { entered.old.log ≡ V.admitted }
        ensures published_end { MatchBool result
            (Settles V.setup position entered.old.known knows.old.known knows.new.known)
            (knows.new ≡ knows.old) }
        ensures log { knows.new.log ≡ V.log }
        ensures entered { entered.new ≡ entered.old }
    {
        if self.desk.published_len() < position {
            return false;
        }
        let mine = entered.again(admitted);
        self.recall(admitted, mine);
        self.desk.stands();
        self.desk.renew(log, knows);
        true
    }

    // Writes and publishes the waiting entries, if the journal touches no disk.
    fn commit_at_once(&mut self, log: &Log<Entry>, admitted: &Log<Entry>, durable: &Log<Entry>)
        requires log { log.now ≡ V.log }
        requires admitted { admitted.now ≡ V.admitted }
        requires durable { durable.now ≡ V.durable }
    {
        let Some(batch_write) = self.begin(admitted) else {
            return;
        };
        match batch_write.write_batch(durable) {
            Ok(written_batch) => self.publish_batch(log, admitted, durable, written_batch),
            Err((_journal, error)) => self.failed = Some(error),
        }
    }

    /// Writes and publishes the waiting entries under the lock, if the journal touches no disk. Returns a receipt for
    /// all that is published, if the entry with this position in the history is.
    pub fn publish_at_once(
        &mut self,
        log: &Log<Entry>,
        admitted: &Log<Entry>,
        durable: &Log<Entry>,
        knows: &mut Receipt<Entry>,
        entered: &mut Receipt<Entry>,
        position: u64,
    ) -> Option<Receipt<Entry>>
        requires log { log.now ≡ V.log }
        requires admitted { admitted.now ≡ V.admitted }
        requires durable { durable.now ≡ V.durable }
        requires knows { knows.old.log ≡ V.log }
        requires entered { entered.old.log ≡ V.admitted }
        ensures published_end { IfSome result (λ r. (r.log ≡ V.log)
            × Settles V.setup position entered.old.known knows.old.known r.known) }
        ensures same { (knows.new ≡ knows.old) × (entered.new ≡ entered.old) }
    {
        if !self.is_quick() {
            return None;
        }
        self.commit_at_once(log, admitted, durable);
        let mut published_end = knows.again(log);
        if self.settle(log, admitted, &mut published_end, entered, position) {
            return Some(published_end);
        }
        None
    }

    /// The receipt knows from now on the whole history, published or not.
    pub fn note(&mut self, admitted: &Log<Entry>, entered: &mut Receipt<Entry>)
        requires admitted { admitted.now ≡ V.admitted }
        requires entered { entered.old.log ≡ V.admitted }
        ensures desk { self.new.desk ≡ self.old.desk }
        ensures entered { entered.new ≡ record {
          log = V.admitted;
          known = unspoken self.old.desk.history;
        } }
    {
        entered.catch_up(admitted, &mut self.register);
    }

    /// What a receipt knows of the history is a beginning of it.
    pub fn recall(&mut self, admitted: &Log<Entry>, entered: Receipt<Entry>)
        requires admitted { admitted.now ≡ V.admitted }
        requires entered { entered.log ≡ V.admitted }
        ensures desk { self.new.desk ≡ self.old.desk }
        ensures begins { IsPrefix entered.known (unspoken self.old.desk.history) }
    {
        self.register.confirm(admitted, entered);
    }
}
