//! A tape, or the output of a replay, in words: one line of words for each line, in aligned columns.
#![tactic(auto)]

mod choice;
mod columns;
mod fault;
mod feed;
mod inbound;
mod label;
pub mod laws;
mod line;
mod meaning;
mod operator;
mod outbound;
mod part;
mod reading;
mod row;
mod showing;
mod units;

pub use choice::Choice;
pub use fault::ShowError;
pub use showing::show;
