//! How a day resumes from its journal; and, over the definitions alone, what is published again after a crash, and by a
//! replay of the day's tape.
#![tactic(auto)]

mod going_on;
pub mod laws;

pub use going_on::{Progress, RecoveryError, Unwatched, events_of, recover};
