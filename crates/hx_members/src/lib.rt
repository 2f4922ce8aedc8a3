//! The setup of a day, the used tokens of its members, and what their chains have done.
#![tactic(auto)]

pub use hx_setup::{Member, Setup, SetupError, Stock, laws};
pub use hx_tokens::{ChainFacts, Name, Seed, TokenState, Tokens, is_same_name, prefetch_hint};
