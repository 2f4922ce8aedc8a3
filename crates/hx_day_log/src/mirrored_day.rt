//! A day, and a journal beside its log that is brought up to what is applied of the log.
ghost use Rattle.std.specs.Prelude.{◌≡◌, [], true, drop, IfOk};
ghost use Rattle.hx_tape_lines.specs.Text.{record_of};
ghost use Rattle.hx_desk.specs.Entries.{restored};
ghost use Rattle.hx_engine.specs.Journals.{lines};
ghost use Rattle.hx_fenced_log.specs.Mirrors.{Mirrors};

use crate::fault::DayLogError;
use crate::mirroring::{count_same, keep_records};
use crate::replica::Replica;
use hx_engine::{Applies, Recovered, apply_all};
use hx_journal::Journal;
use hx_market::Event;
use std::alloc::Global;
use std::marker::Model;

/// A day, and a journal beside its log, which had the records of some events before. An event whose record is not the
/// journal's is refused; what the journal lacks is appended, and synced with each reading.
#[derive(Drop)]
pub struct MirroredDay<D: Applies, M: Journal> {
    day: D,
    mirror: M,
    // The events whose records the mirror had before.
    has: Vec<Event>,
    // Whether nothing has failed.
    in_step: bool,
}

impl<D: Applies, M: Journal> Model for MirroredDay<D, M> {
    ghost use Rattle.std.specs.Prelude.{◌≡◌, true};
    ghost use Rattle.hx_day_log.specs.Mirrored.{IsBeside};

    ghost Value = { D };

    ghost view = { λ d. d.day };

    ghost invariant = { λ d. d.in_step ≡ true → IsBeside M.appended M.durable M.is_open
        d.mirror d.has.items (D.applied d.day) };
}

impl<D: Applies + Drop, M: Journal + Drop> MirroredDay<D, M> {
    /// A day without an applied event, and a journal that has the records of these events.
    pub fn new(day: D, beside: Recovered<M>) -> MirroredDay<D, M>
        requires new { D.applied day ≡ [] }
        ensures { result ≡ day }
    {
        let Recovered {
            journal: mirror,
            events: has,
        } = beside;
        MirroredDay {
            day,
            mirror,
            has,
            in_step: true,
        }
    }

    /// The day, and its mirror.
    ///
    /// Errors: `OtherJournal` if the mirror has records after those of the day; `JournalFailed` if something failed
    /// before.
    pub fn into_both(self) -> Result<(D, M), DayLogError>
        ensures day { IfOk result (λ both. both.0 ≡ self) }
        ensures mirror { IfOk result (λ both. Mirrors M.appended M.durable M.is_open both.1
            (lines record_of (restored (D.applied self)))) }
    {
        if !self.in_step {
            return Err(DayLogError::JournalFailed);
        }
        let count = self.day.count();
        if count < self.has.len() as u64 {
            return Err(DayLogError::OtherJournal {
                record: count.saturating_add(1),
            });
        }
        Ok((self.day, self.mirror))
    }
}

impl<D: Applies, M: Journal> Replica for MirroredDay<D, M> {
    ghost applied = { λ d. D.applied d };

    ghost under = { λ d. D.under d };

    /// Applies events, and brings the journal up to them.
    ///
    /// Errors: why one of them is refused; `OtherJournal`; those of the journal.
    fn apply(&mut self, alloc: Global, events: &[Event]) -> Result<(), DayLogError> {
        if !self.in_step {
            return Err(DayLogError::JournalFailed);
        }
        self.in_step = false;
        let rest = rest_of(&self.has, self.day.count());
        let same = count_same(alloc, rest, events)?;
        if same < rest.len().min(events.len()) {
            return Err(DayLogError::OtherJournal {
                record: self
                    .day
                    .count()
                    .saturating_add(same as u64)
                    .saturating_add(1),
            });
        }
        apply_all(&mut self.day, events)?;
        keep_records(alloc, &mut self.mirror, &events[same..])?;
        self.in_step = true;
        Ok(())
    }

    fn count(&self) -> u64 {
        self.day.count()
    }
}

// The events after the first `count`.
fn rest_of(events: &[Event], count: u64) -> &[Event]
    ensures { result.now ≡ drop count events.now }
{
    if count < events.len() as u64 {
        &events[count as usize..]
    } else {
        &events[..0]
    }
}
