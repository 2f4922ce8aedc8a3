//! What the market is: its events, the operator's bytes, and, in `specs/`, the definition of every step.
#![tactic(auto)]

mod bytes;
mod event;
mod fault;
pub mod letters;
mod lives;
mod matches;
mod operator;
mod output;
mod rules;

pub use bytes::Bytes;
pub use event::Event;
pub use fault::PrepareError;
pub use lives::{ends_by_code, expiry_of, is_over};
pub use matches::Match;
pub use operator::decode_operator;
pub use output::Output;
pub use rules::{is_halted, is_shown, life_of, published_side, rejection, replace_fails, side_of};
