//! Passes, through which events are sent.
ghost use Rattle.std.specs.Prelude.{◌≡◌, ◌<◌, ◌≤◌, [], length, IfOk, OnOk};
ghost use Rattle.hx_engine.specs.Opening.{most_passes};
ghost use Rattle.hx_engine.specs.Passes.{new_passes};

use crate::venue::Venue;
use hx_blog::{Log, Receipt, Writer};
use hx_desk::Entry;
use hx_market::Event;
use hx_units::NoMemory;
use std::alloc::Global;
use std::marker::Model;
use std::mem::replace;
use std::sync::ledger::Share;

/// What one client of an exchange sent, and what it knows. Contracts see its number, its events, each with its position in
/// the history, those of its events that were admitted and not published, and the entries that it knows.
#[derive(Drop)]
pub struct Pass<V: Venue> {
    pub(crate) number: u16,
    // Its events that were admitted. The first `published_end` of them are published; the others wait.
    pub(crate) sent: Vec<(u64, Event)>,
    pub(crate) published_end: usize,
    pub(crate) knows: Receipt<Entry>,
    // A receipt for the history up to its last event, published or not.
    pub(crate) entered: Receipt<Entry>,
    pub(crate) share: Share<V>,
    // The number of orders that the market passed over for its events since the last call of `take_passed`.
    pub(crate) passed: u64,
}

impl<V: Venue> Model for Pass<V> {
    ghost use Rattle.std.specs.Prelude.{◌≡◌, ◌<◌, ◌≤◌, length, take, drop};
    ghost use Rattle.hx_desk.specs.Known.{history_of};
    ghost use Rattle.hx_engine.specs.Passes.{PassState, sent_in, AreSomeOf};

    ghost Value = { PassState };

    ghost view = { λ p. record {
      number = p.number;
      sent = take p.published_end p.sent.items;
      waiting = drop p.published_end p.sent.items;
      known = p.knows.known;
    } };

    ghost invariant = { λ p.
        (p.share.parts ≡ 1)
        × (p.share.amount ≡ length p.sent.items)
        × (p.knows.log ≡ V.log)
        × (p.entered.log ≡ V.admitted)
        × (0 < p.number)
        × (p.number ≤ V.parts)
        × AreSomeOf (take p.published_end p.sent.items) (sent_in p.number (history_of p.knows.known))
        × (p.published_end ≤ length p.sent.items) };
}

impl<V: Venue> Pass<V> {
    /// Its number, from 1.
    pub fn number(&self) -> u16
        ensures number { result ≡ self.now.number }
        ensures range { (0 < result) × (result ≤ V.parts) }
    {
        self.number
    }

    /// Its published events, each with its position in the history.
    pub fn sent(&self) -> &[(u64, Event)]
        ensures { result.now ≡ self.now.sent }
    {
        &self.sent[..self.published_end]
    }

    /// The number of its events that were admitted and not published, since the journal failed.
    pub fn waiting_len(&self) -> usize
        ensures { result ≡ length self.now.waiting }
    {
        self.sent.len() - self.published_end
    }

    /// Returns the number of orders that the market passed over for its events since the last call
    /// (`Desk::passed_over`). No clause says anything about it.
    pub fn take_passed(&mut self) -> u64
        ensures { self.new ≡ self.old }
    {
        replace(&mut self.passed, 0)
    }

    /// A receipt for what it knows: a reader that learns it reads at least the feed of all that the pass sent.
    pub fn receipt(&mut self, log: &Log<Entry>) -> Receipt<Entry>
        requires { log.now ≡ V.log }
        ensures same { self.new ≡ self.old }
        ensures receipt { result ≡ record { log = V.log; known = self.old.known } }
    {
        self.knows.again(log)
    }
}

/// The passes of a new exchange, each with one part of the ledger. Each knows what the receipt does: nothing.
pub(crate) fn make_passes<V: Venue>(
    alloc: Global,
    log: &Log<Entry>,
    admitted: &Log<Entry>,
    blank: &mut Receipt<Entry>,
    register: &mut Writer<Entry>,
    spare: &mut Share<V>,
    count: u16,
) -> Result<Vec<Pass<V>>, NoMemory>
    requires log { log.now ≡ V.log }
    requires admitted { admitted.now ≡ V.admitted }
    requires blank { blank.old ≡ record { log = V.log; known = [] } }
    requires register { register.old
        ≡ record { log = V.admitted; published = []; staged = [] } }
    requires spare { (spare.old.parts ≡ count) × (spare.old.amount ≡ 0) }
    requires passes { (count ≡ V.parts) × (count ≤ most_passes) }
    ensures passes { IfOk result (λ passes. passes.items ≡ new_passes count) }
    ensures blank { blank.new ≡ blank.old }
    ensures register { register.new ≡ register.old }
    ensures spare { OnOk result ((spare.new.parts ≡ 0) × (spare.new.amount ≡ 0)) }
{
    let mut passes = Vec::with_capacity(alloc, count as usize)?;
    for before in 0..count {
        let number = before + 1;
        let share = spare.split_off(1, 0);
        let knows = blank.again(log);
        let entered = register.receipt(admitted);
        passes.push(Pass {
            number,
            sent: Vec::new(alloc),
            published_end: 0,
            knows,
            entered,
            share,
            passed: 0,
        })?;
    }
    Ok(passes)
}
