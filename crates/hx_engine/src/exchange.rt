//! The exchange: a desk under a lock.
ghost use Rattle.std.specs.Prelude.{◌≡◌, ◌⊎◌, ℕ, List, [], false, true, IfOk, IfErr, IfSome, OnErr, OnOk};
ghost use Rattle.hx_tape_lines.specs.Text.{record_of};
ghost use mathlib.Core.List.{IsPrefix};
ghost use Rattle.hx_journal.specs.Crashes.{IsBetween};
ghost use Rattle.hx_desk.specs.declared.entry.Entry.{Entry};
ghost use Rattle.hx_desk.specs.Entries.{restored, ledger};
ghost use Rattle.hx_desk.specs.Known.{CatchesUp, IsWhole, history_of};
ghost use Rattle.hx_engine.specs.Exchanges.{LearnsMore, IsAudit};
ghost use Rattle.hx_engine.specs.Finish.{is_any_waiting, AreAllOnce, IsMissing, IsFinished};
ghost use Rattle.hx_engine.specs.Journals.{lines, unspoken, IsLeft};

use crate::answers::{Audit, FinishError, Finished};
use crate::journal_writer::JournalWriter;
use crate::locked::Held;
use crate::pass::Pass;
use crate::pass_count::PassCount;
use crate::returned_passes::{is_any_waiting, missing, take_all_back};
use crate::venue::Venue;
use hx_blog::{Log, Reader, Receipt};
use hx_desk::Entry;
use hx_journal::{Journal, JournalError};
use hx_units::NoMemory;
use hx_wake::{Waker, Wakers};
use std::alloc::Global;
use std::sync::atomic::{AtomicBool, AtomicU64};
use std::sync::{Condvar, Mutex, Wait};

/// A desk under a lock, with the log that everybody may read, and a journal: nothing is published before the journal
/// has made it durable.
pub struct Exchange<V: Venue, J: Journal> {
    pub(crate) log: Log<Entry>,
    // The logs of the admitted and of the durable entries, which have no messages.
    pub(crate) admitted: Log<Entry>,
    pub(crate) durable: Log<Entry>,
    pub(crate) desk: Mutex<Held<V, J>>,
    // Notified after each batch that is published, and if the journal fails.
    pub(crate) recorded: Condvar,
    // The wakers of the passes' sessions, and that of the publisher of the feed.
    pub(crate) wakers: Wakers,
    pub(crate) feed_waker: Waker,
    // Whether the publisher has news for which its waker has not been used.
    pub(crate) is_feed_due: AtomicBool,
    // The number of threads that have events to record under the lock, whether they wait for it or hold it.
    pub(crate) entering: AtomicU64,
    pub(crate) passes: PassCount<V>,
    // At most this number of events may be admitted and not yet published.
    pub(crate) ahead: u64,
    // For how many nanoseconds a session rests for each order that the market passed over for it.
    pub(crate) rest: u64,
    pub(crate) alloc: Global,
    pub ghost named: { log ≡ V.log },
    pub ghost admitted_named: { admitted ≡ V.admitted },
    pub ghost durable_named: { durable ≡ V.durable },
}

// Written out, so that an owner's proof sees one call when a value is dropped.
impl<V: Venue, J: Journal + Drop> Drop for Exchange<V, J> {
    fn drop(self) {
        let Exchange {
            log: _,
            admitted: _,
            durable: _,
            desk: _,
            recorded: _,
            wakers: _,
            feed_waker: _,
            is_feed_due: _,
            entering: _,
            passes: _,
            ahead: _,
            rest: _,
            alloc: _,
        } = self;
    }
}

// Takes out the journal, which holds the records of all that is published.
fn journal_of<V: Venue, J: Journal + Drop>(journal_writer: Option<JournalWriter<V, J>>) -> Option<J>
    ensures { (h : List Entry) → IfSome journal_writer (λ k. k.writer.published ≡ unspoken h)
        → IfSome result (λ j. (J.appended j ≡ lines record_of h) × (J.durable j ≡ J.appended j)
        × (J.is_open j ≡ true)
        × ((records : List (List ℕ)) → J.left_since j (J.moment j) records
        → IsBetween (J.durable j) records (J.appended j))) }
{
    match journal_writer {
        Some(journal_writer) => {
            let JournalWriter {
                journal,
                writer: _,
                of: _,
            } = journal_writer;
            journal.stands();
            Some(journal)
        }
        None => None,
    }
}

impl<V: Venue, J: Journal + Drop> Exchange<V, J> {
    /// Ends the exchange, if each of its passes is handed in exactly once, and all that they submitted is published. A
    /// reader's receipt can be confirmed by the writer that this call returns: what the reader knew is a beginning of
    /// the history with its feed.
    pub fn finish(self, passes: Vec<Pass<V>>) -> Result<Finished<J>, FinishError<V, J>>
        ensures ok { IfOk result (λ f.
            IsFinished V.setup V.before passes.items f.history.items f.feed) }
        ensures once { OnOk result (AreAllOnce V.parts passes.items) }
        ensures idle { OnOk result (is_any_waiting passes.items ≡ false) }
        ensures published { IfOk result (λ f. (f.log ≡ V.log) × (f.writer ≡ record {
          log = V.log;
          published = ledger V.setup f.history.items;
          staged = [];
        })) }
        ensures durable { IfOk result (λ f. IfSome f.journal (λ j.
            (J.appended j ≡ lines record_of f.history.items) × (J.durable j ≡ J.appended j)
            × (J.is_open j ≡ true))) }
        ensures err { IfErr result (λ e.
            ((number : ℕ) × IsMissing V.parts passes.items number
            × (e ≡ FinishError.Missing number self passes))
            ⊎ (AreAllOnce V.parts passes.items × (is_any_waiting passes.items ≡ true)
            × (e ≡ FinishError.Stopped self passes))) }
    {
        if let Some(number) = missing(&passes, self.passes.get()) {
            return Err(FinishError::Missing {
                number,
                exchange: self,
                passes,
            });
        }
        if is_any_waiting(&passes) {
            return Err(FinishError::Stopped {
                exchange: self,
                passes,
            });
        }
        let Exchange {
            log,
            admitted: _,
            durable: _,
            desk,
            recorded: _,
            wakers: _,
            feed_waker: _,
            is_feed_due: _,
            entering: _,
            passes: _,
            ahead: _,
            rest: _,
            alloc: _,
        } = self;
        let Held {
            mut desk,
            mut book,
            mut spare,
            journal_writer,
            ..
        } = desk.into_inner();
        take_all_back(&mut desk, &log, &mut spare, passes);
        book.audit(&mut spare);
        desk.stands();
        let feed = desk.feed_count();
        let (history, writer) = desk.into_parts();
        Ok(Finished {
            history,
            feed,
            log,
            writer,
            journal: journal_of(journal_writer),
        })
    }

    /// The journal, as a crash that ends the exchange here finds it, if no thread is writing to it: what is left of it
    /// are the records of a history that the market accepts, and they begin with those of all that the reader knows.
    pub fn crashed(self, reader: &mut Reader<Entry>) -> Option<J>
        requires { reader.old.log ≡ V.log }
        ensures begins { IfSome result (λ j. (c : List (List ℕ)) → J.left_since j (J.moment j) c
            → IsPrefix (lines record_of (history_of reader.old.known)) c) }
        ensures left { IfSome result (λ j. (c : List (List ℕ)) → J.left_since j (J.moment j) c
            → IsLeft V.setup V.before reader.old.known c) }
    {
        let Exchange {
            log,
            admitted: _,
            durable: _,
            desk,
            recorded: _,
            wakers: _,
            feed_waker: _,
            is_feed_due: _,
            entering: _,
            passes: _,
            ahead: _,
            rest: _,
            alloc: _,
        } = self;
        let Held {
            mut desk,
            journal_writer,
            ..
        } = desk.into_inner();
        let receipt = reader.receipt(&log);
        desk.confirm(&log, receipt);
        desk.stands();
        journal_of(journal_writer)
    }

    /// A copy of the history, which is what the reader and the pass know from then on.
    pub fn audit(
        &self,
        rt: &impl Wait,
        reader: &mut Reader<Entry>,
        pass: &mut Pass<V>,
    ) -> Result<Audit, NoMemory>
        requires { reader.old.log ≡ V.log }
        ensures ok { IfOk result (λ audit.
            IsAudit V.setup audit.history.items reader.new pass.new) }
        ensures reader { CatchesUp reader.old reader.new }
        ensures pass { LearnsMore pass.old pass.new }
    {
        let mut held = self.desk.lock(rt);
        let held = &mut *held;
        held.desk.inform(&self.log, reader);
        held.desk.renew(&self.log, &mut pass.knows);
        held.desk.stands();
        let history = held.desk.copy_history()?;
        Ok(Audit { history })
    }

    /// Reserves this number of slots of the log, the last ones, for the codes of the hours and for ticks: from now on
    /// no other event is given one of them. No clause says what the exchange was then.
    pub fn keep(&self, rt: &impl Wait, slots: u64) {
        let mut held = self.desk.lock(rt);
        held.desk.keep(slots);
    }

    /// Returns a receipt for the durability of all that is published. From now on the reader knows all that is
    /// published, of a history that begins with the events that were durable before. The holder of the journal can show
    /// by the receipt that each crash leaves the records of all that the reader knows.
    pub fn vouch(&self, rt: &impl Wait, reader: &mut Reader<Entry>) -> Receipt<Entry>
        requires { reader.old.log ≡ V.log }
        ensures reader { CatchesUp reader.old reader.new }
        ensures whole { IsWhole V.setup reader.new.known }
        ensures before { IsPrefix (restored V.before) (history_of reader.new.known) }
        ensures durable { result ≡ record {
          log = V.durable;
          known = unspoken (history_of reader.new.known);
        } }
    {
        let mut held = self.desk.lock(rt);
        let held = &mut *held;
        held.desk.inform(&self.log, reader);
        held.desk.stands();
        held.durable.again(&self.durable)
    }

    /// Why the journal failed, if it did: nothing is recorded any more then. No clause says what the exchange was when
    /// it was asked.
    pub fn failure(&self, rt: &impl Wait) -> Option<JournalError> {
        self.desk.lock(rt).failed
    }

    /// The log of the durable entries, to which such receipts belong.
    pub fn durable_log(&self) -> &Log<Entry>
        ensures { result.now ≡ V.durable }
    {
        &self.durable
    }

    /// The log of the feed; no reader of it waits for a lock.
    pub fn feed_log(&self) -> &Log<Entry>
        ensures { result.now ≡ V.log }
    {
        &self.log
    }
}
