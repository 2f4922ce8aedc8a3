//! What a day begins with, and what it leaves.
ghost use Rattle.std.specs.Prelude.{◌≡◌, [], true, IfOk};
ghost use Rattle.hx_tape_lines.specs.Text.{record_of};
ghost use Rattle.hx_desk.specs.Entries.{restored};
ghost use Rattle.hx_engine.specs.Journals.{lines};
ghost use Rattle.hx_serve.specs.DayServices.{endless, AreNone};

use crate::applied_day::AppliedDay;
use crate::day_services::DayServices;
use crate::ending::fault_of_resume;
use crate::fault::ServeError;
use hx_day_context::ServeArgs;
use hx_engine::{Entry, Journal, Recovered, apply_all};
use hx_journal::NullJournal;
use hx_members::{Seed, Setup};
use hx_operator::OperatorSocket;
use std::alloc::Global;

/// What a day begins with: the seed of its table of tokens, and the events of its journal.
pub struct Beginning<J: Journal> {
    /// The seed, which is drawn if strangers trade.
    pub seed: Seed,
    /// The journal and the events of the day before a crash, of which there may be none.
    pub recovered: Recovered<J>,
    /// How many events may wait for the journal, at least one: if that number waits, no event is recorded.
    pub ahead: u64,
    /// What an open day has besides its acceptors.
    pub day_services: DayServices,
}

// By hand, so that when a value is dropped its owner's proof sees one call.
impl<J: Journal + Drop> Drop for Beginning<J> {
    fn drop(self) {
        let Beginning {
            seed: _,
            recovered: _,
            ahead: _,
            day_services: _,
        } = self;
    }
}

impl<J: Journal + Drop> Beginning<J> {
    /// What a day begins with, its events applied under this setup.
    pub(crate) fn apply<'a>(
        self,
        alloc: Global,
        setup: &'a Setup,
        args: &ServeArgs,
    ) -> Result<AppliedBeginning<'a, J>, ServeError>
        ensures setup { IfOk result (λ applied. applied.day.setup ≡ setup.now) }
        ensures events { IfOk result (λ applied.
            applied.day.events ≡ self.recovered.events.items) }
        ensures journal { IfOk result (λ applied. applied.journal ≡ self.recovered.journal) }
        ensures ahead { IfOk result (λ applied. applied.ahead ≡ self.ahead) }
        ensures day_services { IfOk result (λ applied.
            applied.day_services ≡ self.day_services) }
    {
        let Beginning {
            seed,
            recovered,
            ahead,
            day_services,
        } = self;
        let Recovered { journal, events } = recovered;
        let mut day = AppliedDay::new(alloc, setup, args, seed)?;
        if let Err(error) = apply_all(&mut day, &events) {
            return Err(fault_of_resume(error));
        }
        Ok(AppliedBeginning {
            day,
            journal,
            ahead,
            day_services,
        })
    }
}

impl Beginning<NullJournal> {
    /// The beginning of a new day without a journal.
    pub fn without_journal(alloc: Global, seed: Seed) -> Beginning<NullJournal>
        ensures seed { result.seed ≡ seed }
        ensures ahead { result.ahead ≡ endless }
        ensures day_services { AreNone result.day_services }
        ensures events { result.recovered.events.items ≡ [] }
    {
        let recovered = Recovered {
            journal: NullJournal::new(),
            events: Vec::new(alloc),
        };
        Beginning {
            seed,
            recovered,
            ahead: u64::MAX,
            day_services: DayServices::none(),
        }
    }
}

/// What a day begins with, its events applied.
pub struct AppliedBeginning<'a, J: Journal> {
    /// The day so far.
    pub day: AppliedDay<'a>,
    /// The journal, which has the records of the applied events, and no others.
    pub journal: J,
    /// How many events may wait for the journal, at least one: if that number waits, no event is recorded.
    pub ahead: u64,
    /// What an open day has besides its acceptors.
    pub day_services: DayServices,
    pub ghost appended: { J.appended journal ≡ lines record_of (restored day.events) },
    pub ghost durable: { J.durable journal ≡ J.appended journal },
    pub ghost opened: { J.is_open journal ≡ true },
}

// By hand, so that when a value is dropped its owner's proof sees one call.
impl<J: Journal + Drop> Drop for AppliedBeginning<'_, J> {
    fn drop(self) {
        let AppliedBeginning {
            day: _,
            journal: _,
            ahead: _,
            day_services: _,
        } = self;
    }
}

impl<'a, J: Journal + Drop> AppliedBeginning<'a, J> {
    /// The day, its journal, how many events may wait for the journal, and what the day has besides its acceptors.
    pub fn into_parts(self) -> (AppliedDay<'a>, J, u64, DayServices)
        ensures day { result.0 ≡ self.entry.day }
        ensures journal { result.1 ≡ self.entry.journal }
        ensures appended { J.appended result.1 ≡ lines record_of (restored result.0.events) }
        ensures durable { J.durable result.1 ≡ J.appended result.1 }
        ensures opened { J.is_open result.1 ≡ true }
        ensures ahead { result.2 ≡ self.entry.ahead }
        ensures day_services { result.3 ≡ self.entry.day_services }
    {
        let AppliedBeginning {
            day,
            journal,
            ahead,
            day_services,
        } = self;
        (day, journal, ahead, day_services)
    }
}

/// What a day leaves.
pub struct Day {
    /// Its history.
    pub history: Vec<Entry>,
    /// How many messages of the feed it gave.
    pub feed: u64,
    /// The fault that is answered, if there was one.
    pub fault: Option<ServeError>,
    /// The operator's socket, whose file is there until it is closed.
    pub socket: Option<OperatorSocket>,
}

// By hand, so that when a value is dropped its owner's proof sees one call.
impl Drop for Day {
    fn drop(self) {
        let Day {
            history: _,
            feed: _,
            fault: _,
            socket: _,
        } = self;
    }
}
