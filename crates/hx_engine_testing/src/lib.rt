//! What tests of an exchange share: what a new one stands on, and journals in memory.
#![tactic(auto)]

pub mod ground;
pub mod memory;
pub mod witnessed;
