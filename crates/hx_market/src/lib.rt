//! The market as the crates above see it: its events and outputs, the state machine that runs it, and the laws that
//! hold of every run.
#![tactic(auto)]

pub use hx_laws as laws;
pub use hx_market_core::{Market, Prepared};
pub use hx_rules::{Bytes, Event, Output, PrepareError, decode_operator};
