//! The exchange: a desk under a lock, passes through which events are sent, and the log of the feed, which everybody
//! reads without waiting.
//!
//! The lock guards the desk with the book of the ledger: the market, the history, the writer of the log, and the
//! replies to each member. It guards nothing else: a pass and a reader belong to their thread, and the words of the log
//! are shared without a lock. A call that takes the lock may wait, and so asks for a `Wait`.
//!
//! What the lock guards belongs to one `Venue`: its log, its setup and its ledger of entries. So each thread knows of
//! the history what its pass and its reader know, which is a beginning of what is published, and the passes of an
//! exchange together know it exactly.
#![tactic(auto)]

mod answers;
mod applied;
mod applies;
mod batch_write;
mod entered;
mod exchange;
mod journal_writer;
mod locked;
mod opening;
mod pass;
mod pass_count;
mod replies;
mod returned_passes;
mod share;
mod spelled;
mod submitting;
mod venue;

pub use answers::{Audit, Counts, FinishError, Finished, News, SubmitError, Submitted};
pub use applied::Applied;
pub use applies::{Applies, apply_all};
pub use exchange::Exchange;
pub use hx_desk::{Desk, DeskError, Done, Entry, laws};
pub use hx_journal::{Journal, JournalError};
pub use journal_writer::JournalWriter;
pub use opening::{Logs, Recovered};
pub use pass::Pass;
pub use venue::Venue;
