//! The state of a market's day beside the book, the tokens and the numbers drawn: how many events are recorded, which
//! decides what is refused; which stocks are halted; the executions; and when live orders end. And the bounds that all
//! of it respects (`bounds`).
#![tactic(auto)]

pub mod bounds;
mod ends;
mod event_counts;
mod expiries;
mod refuse;
mod trading;

pub use ends::Ends;
pub use event_counts::EventCounts;
pub use expiries::{Entry, Expiries};
pub use refuse::admit;
pub use trading::Trading;
