//! A tape without the messages of quiet chains.
#![tactic(auto)]

mod reading;
mod strike;

pub use strike::{strike_all_tape, strike_tape};
