//! Audits of a recorded history, which is the list of a day's events: the chains of a member, and the same history
//! without the messages of its quiet chains. Each call runs one market over the events.
#![tactic(auto)]

mod applying;
mod auditor;
mod bearing;
mod chain;
mod chaining;
mod chosen;
mod fault;
mod listing;
mod selection;
mod striking;

pub use auditor::{Auditor, Whose};
pub use bearing::Bearing;
pub use chain::{Chain, ChainTokens};
pub use chaining::chains;
pub use chosen::strike_chains;
pub use fault::StrikeError;
pub use striking::{strike, strike_all};
