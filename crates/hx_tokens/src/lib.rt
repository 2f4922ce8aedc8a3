//! The used tokens of members, and what their chains have done.
#![tactic(auto)]

mod name;
mod packed;
mod rows;
mod seed;
mod series;
mod tokens;

pub use name::{ChainFacts, Name, TokenState};
pub use seed::Seed;
pub use tokens::{Tokens, is_same_name, prefetch_hint};
