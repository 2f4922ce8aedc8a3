//! How a day over a log is opened: at once, or by a standby once the active writer is gone.
ghost use Rattle.std.specs.Prelude.{◌≡◌, ◌≢◌, [], None, true, IfOk, OnOk};
ghost use Rattle.hx_tape_lines.specs.Text.{record_of};
ghost use Rattle.hx_desk.specs.Entries.{restored};
ghost use Rattle.hx_engine.specs.Journals.{lines};
ghost use Rattle.hx_fenced_log.specs.JournalStates.{reported, durable, appended, is_open};
ghost use Rattle.hx_day_log.specs.Events.{HasEvents};

use crate::fault::DayLogError;
use crate::replica::{Alone, Replica};
use hx_engine::Recovered;
use hx_fenced_log::{Follower, KeepError, Log, LogError, LogJournal};
use hx_recovery::{Progress, RecoveryError, events_of};
use std::alloc::Global;

// A log is read at most this number of times.
const MOST_READS: u64 = 1_000_000_000_000;

/// What a reading of a log gave.
#[derive(Clone, Copy, Debug, PartialEq, Eq, Drop)]
pub enum News {
    /// Records, of which some may not count.
    Some,
    /// No record stood there.
    None,
    /// No node of the log answered.
    Unreachable,
}

impl News {
    // The news of a reading, by the numbers of records that were read before it and after it.
    pub(crate) fn of(before: u64, after: u64) -> News
        ensures none { result ≡ News.None → before ≡ after }
        ensures some { result ≡ News.Some → before ≢ after }
    {
        if before == after {
            News::None
        } else {
            News::Some
        }
    }
}

/// How a standby watches the active writer.
pub trait Watch {
    /// Waits for a moment, and returns whether the active writer has been gone for too long: the writer of this number,
    /// or 0 if there was none yet. The news are those of the reading before.
    fn is_gone(&mut self, news: News, holder: u64) -> bool;
}

// Why a record is no event, in a text of lines after this number of events.
fn later(events: u64, error: RecoveryError) -> DayLogError {
    match error {
        RecoveryError::NoEvent { record } => DayLogError::NoEvent {
            record: events.saturating_add(record),
        },
        other => DayLogError::from(other),
    }
}

// Reads on, and applies the events of the lines that count.
fn read_on<L: Log, D: Replica, P: Progress>(
    alloc: Global,
    standby: &mut Follower<L>,
    day: &mut D,
    progress: &P,
) -> Result<News, DayLogError>
    requires { HasEvents (reported L.committed standby.old) (D.applied day.old) }
    ensures events { OnOk result
        (HasEvents (reported L.committed standby.new) (D.applied day.new)) }
    ensures under { D.under day.new ≡ D.under day.old }
{
    let before = standby.count_read();
    let text = match standby.read_on(alloc) {
        Ok(text) => text,
        Err(LogError::Unreachable | LogError::Unknown) => return Ok(News::Unreachable),
        Err(error) => return Err(DayLogError::from(error)),
    };
    let more = match events_of(alloc, &text, progress) {
        Ok(more) => more,
        Err(error) => return Err(later(day.count(), error)),
    };
    day.apply(alloc, &more)?;
    Ok(News::of(before, standby.count_read()))
}

/// Opens the log of a day as this writer, from 1 on, who takes over: returns the day, once the events of all lines that
/// count in the log are applied, and the journal of an exchange, which has these. No event was applied to the day
/// before. The writer that was active before is deposed by that. A writer's number is given to one process alone. The
/// progress is notified of each event that is read.
///
/// Errors: if a record is no event, or its event is refused, nothing is taken over; what the others leave in the log is
/// as for `Follower::take_over`.
pub fn open_and_apply<L: Log + Drop, D: Replica + Drop, P: Progress>(
    alloc: Global,
    log: L,
    writer: u64,
    day: D,
    progress: &P,
) -> Result<(D, LogJournal<L>), DayLogError>
    requires new { D.applied day ≡ [] }
    ensures appended { IfOk result (λ r. appended L.committed r.1
        ≡ lines record_of (restored (D.applied r.0))) }
    ensures durable { IfOk result (λ r. durable L.committed r.1
        ≡ lines record_of (restored (D.applied r.0))) }
    ensures waiting { IfOk result (λ r. r.1.waiting ≡ []) }
    ensures is_open { IfOk result (λ r. is_open r.1.fault ≡ true) }
    ensures under { IfOk result (λ r. D.under r.0 ≡ D.under day) }
{
    let mut standby = Follower::new(log, writer);
    let mut day = day;
    for _ in 0..MOST_READS {
        if let News::Unreachable = read_on(alloc, &mut standby, &mut day, progress)? {
            return Err(DayLogError::Unreachable);
        }
        standby = match standby.take_over(alloc) {
            Ok(journal) => return Ok((day, journal)),
            Err((KeepError::Log(LogError::Taken), standby)) => standby,
            Err((error, _standby)) => return Err(DayLogError::from(error)),
        };
    }
    Err(DayLogError::InUse)
}

/// Stands by as this writer: reads the log as records come, and applies each event that it reads at once, until the
/// watch says that the active writer is gone. Then it opens the day as `open_and_apply` does: what it takes over is
/// applied already. If another writer took over meanwhile, it stands by on.
///
/// Errors: a record that is no event, or no record; an event that is refused; no memory. While no node answers it
/// stands by on.
pub fn stand_by_and_apply<L: Log + Drop, D: Replica + Drop, W: Watch, P: Progress>(
    alloc: Global,
    log: L,
    writer: u64,
    day: D,
    watch: &mut W,
    progress: &P,
) -> Result<(D, LogJournal<L>), DayLogError>
    requires new { D.applied day ≡ [] }
    ensures appended { IfOk result (λ r. appended L.committed r.1
        ≡ lines record_of (restored (D.applied r.0))) }
    ensures durable { IfOk result (λ r. durable L.committed r.1
        ≡ lines record_of (restored (D.applied r.0))) }
    ensures waiting { IfOk result (λ r. r.1.waiting ≡ []) }
    ensures is_open { IfOk result (λ r. is_open r.1.fault ≡ true) }
    ensures under { IfOk result (λ r. D.under r.0 ≡ D.under day) }
{
    let mut standby = Follower::new(log, writer);
    let mut day = day;
    for _ in 0..MOST_READS {
        let news = read_on(alloc, &mut standby, &mut day, progress)?;
        if watch.is_gone(news, standby.holder()) {
            standby = match standby.take_over(alloc) {
                Ok(journal) => return Ok((day, journal)),
                Err((KeepError::Log(LogError::NoMemory), _standby)) => {
                    return Err(DayLogError::NoMemory);
                }
                Err((_error, standby)) => standby,
            };
        }
    }
    Err(DayLogError::InUse)
}

/// Opens the log of a day as this writer, from 1 on, who takes over: returns the journal of an exchange, and its
/// events, which are those of all lines that count in the log. The writer that was active before is deposed by that. A
/// writer's number is given to one process alone. The progress is notified of each event that is read.
///
/// Errors: if a record is no event, nothing is taken over; what the others leave in the log is as for
/// `Follower::take_over`.
pub fn open_log<L: Log + Drop, P: Progress>(
    alloc: Global,
    log: L,
    writer: u64,
    progress: &P,
) -> Result<Recovered<LogJournal<L>>, DayLogError>
    ensures waiting { IfOk result (λ r. r.journal.waiting ≡ []) }
{
    let list = Alone {
        day: Vec::new(alloc),
    };
    let (list, journal) = open_and_apply(alloc, log, writer, list, progress)?;
    Ok(Recovered {
        journal,
        events: list.day,
    })
}

/// Stands by as this writer: reads the log as records come, until the watch says that the active writer is gone, and
/// then opens the day as `open_log` does. If another writer took over meanwhile, it stands by on.
///
/// Errors: a record that is no event, or no record; no memory. While no node answers it stands by on.
pub fn stand_by<L: Log + Drop, W: Watch, P: Progress>(
    alloc: Global,
    log: L,
    writer: u64,
    watch: &mut W,
    progress: &P,
) -> Result<Recovered<LogJournal<L>>, DayLogError>
    ensures waiting { IfOk result (λ r. r.journal.waiting ≡ []) }
{
    let list = Alone {
        day: Vec::new(alloc),
    };
    let (list, journal) = stand_by_and_apply(alloc, log, writer, list, watch, progress)?;
    Ok(Recovered {
        journal,
        events: list.day,
    })
}
