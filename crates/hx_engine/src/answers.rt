//! What an exchange answers.
ghost use Rattle.std.specs.Prelude.{◌≡◌, ◌↔◌};
ghost use Rattle.hx_desk.specs.declared.fault.DeskError.TheVariants.{BadTime, NoMember};
ghost use Rattle.hx_engine.specs.declared.answers.SubmitError.TheVariants.{Refused};

use crate::exchange::Exchange;
use crate::pass::Pass;
use crate::venue::Venue;
use hx_blog::{Log, Writer};
use hx_desk::{DeskError, Done, Entry};
use hx_journal::Journal;
use hx_market::Event;
use thiserror::Error;

/// The history, as an audit copied it.
#[derive(Drop)]
pub struct Audit {
    /// Its entries.
    pub history: Vec<Entry>,
}

/// What stands for a member: the number of its replies, and whether the day is over.
#[derive(Clone, Copy, Debug, PartialEq, Eq)]
pub struct News {
    /// The number of the member's replies; fewer than 2^63.
    pub replies: u64,
    /// Whether hours code `C` is past.
    pub ended: bool,
}

/// How far an exchange has come. These numbers are for its operator: they count orders that nobody else sees.
#[derive(Clone, Copy, Debug, PartialEq, Eq)]
pub struct Counts {
    /// The number of events that are recorded.
    pub recorded: u64,
    /// The number of those that are published; the others wait for the journal.
    pub published_end: u64,
    /// The number of feed messages that are published.
    pub feed: u64,
}

/// What an exchange leaves.
#[derive(Drop)]
pub struct Finished<J: Journal> {
    /// The history.
    pub history: Vec<Entry>,
    /// The number of messages in the feed.
    pub feed: u64,
    /// The log of the feed.
    pub log: Log<Entry>,
    /// Its writer, which has published the history with its feed.
    pub writer: Writer<Entry>,
    /// The journal, if it did not fail.
    pub journal: Option<J>,
}

/// What one turn at the lock has recorded of some events.
#[derive(Drop)]
pub struct Submitted {
    /// The answer for the last of them.
    pub done: Done,
    /// The events after it, which need another turn: mostly none.
    pub rest: Vec<Event>,
}

/// Why an exchange does not end. It comes back with the passes.
#[derive(Drop)]
pub enum FinishError<V: Venue, J: Journal> {
    /// A pass was not handed in exactly once.
    Missing {
        /// The least number of such a pass.
        number: u16,
        /// The exchange.
        exchange: Exchange<V, J>,
        /// The passes that were handed in.
        passes: Vec<Pass<V>>,
    },
    /// The journal failed before an event of a pass was published.
    Stopped {
        /// The exchange.
        exchange: Exchange<V, J>,
        /// The passes that were handed in.
        passes: Vec<Pass<V>>,
    },
}

/// Why an event is not recorded.
#[derive(Clone, Copy, Debug, PartialEq, Eq, Drop, Error)]
pub enum SubmitError {
    /// The desk refused it: nothing of it is recorded.
    #[error("{0}")]
    Refused(DeskError),
    /// The journal failed: whether a crash leaves the event is not known.
    #[error("the journal failed")]
    Stopped,
}

impl From<DeskError> for SubmitError {
    ghost from_gives = { λ d e. e ≡ Refused d };

    fn from(error: DeskError) -> SubmitError {
        SubmitError::Refused(error)
    }
}

/// Why an event is refused: for its time or its member, or because the exchange has stopped, or as the desk says. What
/// the desk of a stopped exchange says of limits and of the log rests on events that may be lost.
pub(crate) fn refused(error: DeskError, stopped: bool) -> SubmitError
    ensures bad_time { (result ≡ Refused BadTime) ↔ (error ≡ BadTime) }
    ensures no_member { (result ≡ Refused NoMember) ↔ (error ≡ NoMember) }
{
    match error {
        DeskError::BadTime | DeskError::NoMember => SubmitError::Refused(error),
        _ => {
            if stopped {
                SubmitError::Stopped
            } else {
                SubmitError::Refused(error)
            }
        }
    }
}
