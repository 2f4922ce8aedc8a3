//! The setup of a day: its text, its members and its stocks.
#![tactic(auto)]

mod fault;
mod fields;
mod guesses;
pub mod laws;
mod lines;
mod reading;
mod setup;
mod stock;
mod symbol;

pub use fault::SetupError;
pub use setup::Setup;
pub use stock::{Member, Stock};
