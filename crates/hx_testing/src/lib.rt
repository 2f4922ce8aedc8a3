//! What tests share: worked days in words, lines of a tape, orders as members send them, messages and replies in
//! shorthand, and inputs and outputs in memory whose calls go wrong when a test says so. No contract speaks of it: what
//! it gives is compared when a test runs.
#![tactic(auto)]

pub mod halts;
pub mod lines;
pub mod memory;
pub mod sending;
pub mod setups;
pub mod shorthand;
mod words;
pub mod worked;

pub use words::Day;
