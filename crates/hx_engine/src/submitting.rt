//! How events are recorded: they are admitted under the lock, and published once they are durable.
ghost use Rattle.std.specs.Prelude.{◌≡◌, ◌≢◌, ◌⊎◌, ◌↔◌, ◌+◌, ◌-◌, ◌<◌, ◌≤◌, [], ◌∷◌, ◌++◌, length, map, take, drop, Some, Err, IfOk, IfErr, IfSome, OnOk, OnErr, MatchBool};
ghost use Rattle.hx_tape_lines.specs.Text.{record_of};
ghost use Rattle.std.specs.Vec.{vec_len, vec_capacity};
ghost use Rattle.std.specs.Bool.{OnTrue};
ghost use Rattle.std.specs.List.{AllByRecursion};
ghost use Rattle.hx_desk.specs.declared.fault.DeskError.TheVariants.{BadTime, NoMember};
ghost use Rattle.hx_engine.specs.declared.answers.SubmitError.TheVariants.{Refused, Stopped};
ghost use Rattle.hx_engine.specs.Passes.{placed};
ghost use Rattle.hx_engine.specs.Exchanges.{Sends, SendsFirst, SendsTurn, Enters, Settles, Stays, AreAdmittedUpTo, IsRefusedOutright};

use crate::answers::{SubmitError, Submitted};
use crate::batch_write::BatchWrite;
use crate::entered::Entered;
use crate::exchange::Exchange;
use crate::locked::{Held, PublishedNews};
use crate::pass::Pass;
use crate::spelled::Records;
use crate::venue::Venue;
use hx_blog::Receipt;
use hx_desk::{DeskError, Done, Entry};
use hx_journal::Journal;
use hx_market::Event;
use hx_tape_lines::write_record;
use hx_units::NoMemory;
use std::alloc::Global;
use std::mem::replace;
use std::sync::Wait;
use std::sync::atomic::Ordering;
use std::sync::ledger::Share;

// Room for the record of an Enter Order: a time, a member's number, two spaces, and twice 49 digits.
const USUAL_RECORD: usize = 128;

// Whether a refusal rests on events that were recorded: that of a member's limit, and that of a full log.
fn rests_on_others(error: SubmitError) -> bool
    ensures bad_time { OnTrue result (error ≢ Refused BadTime) }
    ensures no_member { OnTrue result (error ≢ Refused NoMember) }
{
    matches!(
        error,
        SubmitError::Refused(DeskError::Limit { .. } | DeskError::Full { .. })
    )
}

// A list of one.
fn one<T: Drop>(alloc: Global, item: T) -> Result<Vec<T>, NoMemory>
    ensures { IfOk result (λ list. list.items ≡ item ∷ []) }
{
    let mut list = Vec::with_capacity(alloc, 1)?;
    list.push_reserved(item);
    Ok(list)
}

// The records of events.
fn spell_all(alloc: Global, events: &[Event]) -> Result<Records, NoMemory>
    ensures { IfOk result (λ written. written ≡ map record_of events.now) }
{
    let bytes = events.len().saturating_mul(USUAL_RECORD);
    let mut written = Records::with_capacity(alloc, events.len(), bytes)?;
    let mut record = Vec::with_capacity(alloc, USUAL_RECORD)?;
    for event in events {
        record.clear();
        write_record(alloc, &mut record, event)?;
        written.push(&record)?;
    }
    Ok(written)
}

// Moves the first `count` events, which were admitted at consecutive positions in the history, the last one at `last`.
fn move_first(sent: &mut Vec<(u64, Event)>, events: &mut Vec<Event>, count: usize, last: u64)
    requires room { vec_len sent.old + count ≤ vec_capacity sent.old }
    requires inside { count ≤ length events.old.items }
    requires last { count ≤ last }
    ensures sent { sent.new.items
        ≡ sent.old.items ++ placed (last - count) (take count events.old.items) }
    ensures rest { events.new.items ≡ drop count events.old.items }
{
    let later = last - count as u64;
    for i in 0..count {
        let event = replace(&mut events[i], Event::Tick { time: 0 });
        sent.push_reserved((later + i as u64 + 1, event));
    }
    events.rotate_left(count);
    events.truncate(events.len() - count);
}

impl<V: Venue, J: Journal + Drop> Exchange<V, J> {
    /// Records an event for a pass, and waits until it is durable and published. Group commit: one of the waiting
    /// threads is the leader, and writes the records of all of them outside the lock. If the event is refused, the pass
    /// is as before.
    pub fn submit(
        &self,
        rt: &impl Wait,
        pass: &mut Pass<V>,
        event: &Event,
    ) -> Result<Done, SubmitError>
        ensures ok { IfOk result (Sends V.setup pass.old pass.new event.now) }
        ensures err { OnErr result (Stays pass.old pass.new) }
        ensures waits { IfErr result (λ e.
            (pass.new.waiting ≡ pass.old.waiting) ⊎ (e ≡ Stopped)) }
        ensures outright { IsRefusedOutright V.setup event.now result }
    {
        let Ok(copy) = event.copy() else {
            return Err(self.refuse(rt, &mut pass.knows, &mut pass.entered, event, false));
        };
        let Ok(events) = one(self.alloc, copy) else {
            return Err(self.refuse(rt, &mut pass.knows, &mut pass.entered, event, false));
        };
        let done = self.submit_all(rt, pass, events);
        self.wake_feed();
        match done {
            Ok(submitted) => Ok(submitted.done),
            Err((error, _)) => Err(error),
        }
    }

    /// Records events for a pass, one after another, and waits until they are durable and published: the same as one
    /// call of `submit` for each event, up to the first that is refused, but with one wait for all. Their records are
    /// spelled before the lock is taken. The call takes one turn at the lock, which ends early if the market has passed
    /// over many orders for the events: the rest then needs another call. An error says why the next event is refused,
    /// and the number of events that are recorded before it. If the journal fails, no event is published, and they wait
    /// for good: such a pass submits nothing more.
    ///
    /// A caller must call `wake_feed` soon after it, and before it waits for anything: if the events are published
    /// under the lock, the publisher of the feed is not woken before that, so that a reply may go out first.
    pub fn submit_all(
        &self,
        rt: &impl Wait,
        pass: &mut Pass<V>,
        events: Vec<Event>,
    ) -> Result<Submitted, (SubmitError, usize)>
        requires { 0 < length events.items }
        ensures ok { IfOk result (λ s.
            SendsTurn V.setup pass.old pass.new events.items s.rest.items s.done) }
        ensures err { IfErr result (λ e. SendsFirst V.setup pass.old pass.new events.items e.1) }
        ensures waits { IfErr result (λ e.
            (pass.new.waiting ≡ pass.old.waiting) ⊎ (e ≡ (Stopped, 0))) }
        ensures outright { IfErr result (λ e.
            AreAdmittedUpTo V.setup events.items e.1 (Some e.0)) }
    {
        let waits = pass.published_end < pass.sent.len();
        let room = pass.sent.reserve(events.len());
        let Ok(written) = spell_all(self.alloc, &events) else {
            let error = self.refuse(rt, &mut pass.knows, &mut pass.entered, &events[0], waits);
            return Err((error, 0));
        };
        if waits || room.is_err() {
            let error = self.refuse(rt, &mut pass.knows, &mut pass.entered, &events[0], waits);
            return Err((error, 0));
        }
        let Entered {
            count,
            last,
            refused,
            passed,
            published_end,
        } = self.enter(
            rt,
            pass.number,
            &mut pass.knows,
            &mut pass.entered,
            &mut pass.share,
            &events,
            written,
        );
        pass.passed = pass.passed.saturating_add(passed);
        let mut events = events;
        if count == 0 {
            return match refused {
                Some(error) => {
                    Err((
                        self.answer(rt, &mut pass.knows, &mut pass.entered, error),
                        0,
                    ))
                }
                None => Ok(Submitted {
                    done: last,
                    rest: events,
                }),
            };
        }
        move_first(&mut pass.sent, &mut events, count, last.place);
        if !self.await_published(
            rt,
            &mut pass.knows,
            &mut pass.entered,
            last.place,
            published_end,
        ) {
            return Err((SubmitError::Stopped, 0));
        }
        pass.published_end = pass.sent.len();
        match refused {
            Some(error) => Err((error, count)),
            None => Ok(Submitted {
                done: last,
                rest: events,
            }),
        }
    }

    // Answers a refusal. A refusal that rests on what others sent, or on earlier events of the pass, is answered once
    // all of these are published: before, a crash might leave less of them.
    fn answer(
        &self,
        rt: &impl Wait,
        knows: &mut Receipt<Entry>,
        entered: &mut Receipt<Entry>,
        error: SubmitError,
    ) -> SubmitError
        requires knows { knows.old.log ≡ V.log }
        requires entered { entered.old.log ≡ V.admitted }
        ensures bad_time { (result ≡ Refused BadTime) ↔ (error ≡ Refused BadTime) }
        ensures no_member { (result ≡ Refused NoMember) ↔ (error ≡ Refused NoMember) }
        ensures same { (knows.new ≡ knows.old) × (entered.new ≡ entered.old) }
    {
        if !rests_on_others(error) {
            return error;
        }
        let position = self.history_len(rt);
        let mut known = knows.again(&self.log);
        let mut mine = entered.again(&self.admitted);
        if self.await_published(rt, &mut known, &mut mine, position, None) {
            return error;
        }
        SubmitError::Stopped
    }

    // The number of entries that were admitted.
    fn history_len(&self, rt: &impl Wait) -> u64 {
        self.desk.lock(rt).desk.history_len()
    }

    // Why an event is refused if there is no memory for it, or if the pass has stopped.
    fn refuse(
        &self,
        rt: &impl Wait,
        knows: &mut Receipt<Entry>,
        entered: &mut Receipt<Entry>,
        event: &Event,
        stopped: bool,
    ) -> SubmitError
        requires knows { knows.old.log ≡ V.log }
        requires entered { entered.old.log ≡ V.admitted }
        ensures outright { IsRefusedOutright V.setup event.now (Err result) }
        ensures same { (knows.new ≡ knows.old) × (entered.new ≡ entered.old) }
    {
        let error = self.look(rt, event, stopped);
        self.answer(rt, knows, entered, error)
    }

    // What the desk says now of an event for which there is no memory, or of an event of a pass that has stopped.
    fn look(&self, rt: &impl Wait, event: &Event, stopped: bool) -> SubmitError
        ensures { IsRefusedOutright V.setup event.now (Err result) }
    {
        let mut held = self.desk.lock(rt);
        let held = &mut *held;
        held.refuse(event, stopped)
    }

    // Admits events, up to the first that is refused. If the journal touches no disk, they are published before the
    // lock is given back.
    fn enter(
        &self,
        rt: &impl Wait,
        number: u16,
        knows: &mut Receipt<Entry>,
        entered: &mut Receipt<Entry>,
        share: &mut Share<V>,
        events: &[Event],
        written: Records,
    ) -> Entered
        requires some { 0 < length events.now }
        requires knows { knows.old.log ≡ V.log }
        requires entered { entered.old.log ≡ V.admitted }
        requires share { 0 < share.old.parts }
        requires written { written ≡ map record_of events.now }
        ensures entered { 0 < result.count → Enters V.setup number (take result.count events.now)
            knows.old.known entered.new.known result.last }
        ensures knows { knows.new ≡ knows.old }
        ensures log { entered.new.log ≡ V.admitted }
        ensures counted { share.new.amount ≡ share.old.amount + result.count }
        ensures parts { share.new.parts ≡ share.old.parts }
        ensures outright { AreAdmittedUpTo V.setup events.now result.count result.refused }
        ensures published_end { IfSome result.published_end (λ r. (r.log ≡ V.log)
            × Settles V.setup result.last.place entered.new.known knows.old.known r.known) }
    {
        self.entering.fetch_add(1, Ordering::SeqCst);
        let mut lock = self.recorded.wait_while(rt, self.desk.lock(rt), |held| {
            held.ahead_len() >= self.ahead && held.failed.is_none()
        });
        let held = &mut *lock;
        if held.failed.is_some() {
            self.entering.fetch_sub(1, Ordering::SeqCst);
            return Entered::none(held.refuse(&events[0], true));
        }
        let known = knows.again(&self.log);
        held.desk.confirm(&self.log, known);
        held.desk.stands();
        let mut made = held.enter_all(&self.log, &self.admitted, number, share, events, &written);
        held.note(&self.admitted, entered);
        let (log, admitted, durable) = (&self.log, &self.admitted, &self.durable);
        let seen = held.desk.feed_count();
        self.wake_at_once(rt, held);
        made.published_end = held.publish_at_once(
            log,
            admitted,
            durable,
            knows,
            entered,
            made.last.place,
        );
        let news = held.news_since(seen);
        drop(lock);
        self.entering.fetch_sub(1, Ordering::SeqCst);
        self.wake(made.published_end.is_some(), news);
        made
    }

    // Wakes for the members whose replies are published at once, if they are.
    fn wake_at_once(&self, rt: &impl Wait, held: &Held<V, J>) {
        if held.is_quick() {
            self.wakers.wake(rt, held.desk.waiting_members());
        }
    }

    // Wakes the threads that wait for a batch, and all others that have news, except the publisher: its wake is due
    // from then on, unless nothing more is published. If nothing was published, there is no news, unless this is the
    // end of all publishing.
    fn wake(&self, is_published: bool, news: PublishedNews) {
        if !is_published && !news.is_last {
            return;
        }
        self.recorded.notify_all();
        if news.is_feed {
            self.is_feed_due.store(true, Ordering::SeqCst);
        }
        if news.is_last {
            self.wake_feed();
            self.wakers.wake_all();
        }
    }

    // Waits until the entry with this position in the history is published, and becomes the leader if there is none;
    // returns false if the journal has failed. If a receipt shows that the entry is published, it does not wait.
    fn await_published(
        &self,
        rt: &impl Wait,
        knows: &mut Receipt<Entry>,
        entered: &mut Receipt<Entry>,
        position: u64,
        published_end: Option<Receipt<Entry>>,
    ) -> bool
        requires knows { knows.old.log ≡ V.log }
        requires entered { entered.old.log ≡ V.admitted }
        requires published_end { IfSome published_end (λ r. (r.log ≡ V.log)
            × Settles V.setup position entered.old.known knows.old.known r.known) }
        ensures published_end { MatchBool result
            (Settles V.setup position entered.old.known knows.old.known knows.new.known)
            (knows.new.known ≡ knows.old.known) }
        ensures logs { (knows.new.log ≡ V.log) × (entered.new.log ≡ V.admitted) }
    {
        if let Some(published_end) = published_end {
            *knows = published_end;
            return true;
        }
        for _ in rt.forever() {
            match self.turn(rt, knows, entered, position) {
                Ok(published_end) => return published_end,
                Err(batch_write) => self.commit(rt, batch_write),
            }
        }
        unreachable!()
    }

    // The next step of a thread whose entry has this position in the history: the entry is published, or the journal has
    // failed, or the thread becomes the leader of this batch.
    fn turn(
        &self,
        rt: &impl Wait,
        knows: &mut Receipt<Entry>,
        entered: &mut Receipt<Entry>,
        position: u64,
    ) -> Result<bool, BatchWrite<V, J>>
        requires knows { knows.old.log ≡ V.log }
        requires entered { entered.old.log ≡ V.admitted }
        ensures published_end { IfOk result (λ published_end. MatchBool published_end
            (Settles V.setup position entered.old.known knows.old.known knows.new.known)
            (knows.new ≡ knows.old)) }
        ensures leader { OnErr result (knows.new ≡ knows.old) }
        ensures log { knows.new.log ≡ V.log }
        ensures entered { entered.new ≡ entered.old }
    {
        let mut held = self.recorded.wait_while(rt, self.desk.lock(rt), |held| {
            held.desk.published_len() < position
                && held.failed.is_none()
                && held.journal_writer.is_none()
        });
        let held = &mut *held;
        if held.settle(&self.log, &self.admitted, knows, entered, position) {
            return Ok(true);
        }
        match held.begin(&self.admitted) {
            Some(batch_write) => Err(batch_write),
            None => Ok(false),
        }
    }

    // Writes a batch outside the lock, then publishes it under the lock, and wakes the waiting threads, the publisher
    // too: others wait for the batch, and their replies are no more urgent than the feed.
    fn commit(&self, rt: &impl Wait, batch_write: BatchWrite<V, J>) {
        let news = match batch_write.write_batch(&self.durable) {
            Ok(written_batch) => {
                let mut held = self.desk.lock(rt);
                let seen = held.desk.feed_count();
                self.wakers.wake(rt, held.desk.writing_members());
                held.publish_batch(&self.log, &self.admitted, &self.durable, written_batch);
                held.news_since(seen)
            }
            Err((_journal, error)) => {
                let mut held = self.desk.lock(rt);
                held.failed = Some(error);
                PublishedNews::last()
            }
        };
        self.wake(true, news);
        self.wake_feed();
    }
}
