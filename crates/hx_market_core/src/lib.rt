//! The state machine of the market: each event is prepared, which may be refused, and then committed, which
//! can't be. One committed event is one step of the market as `specs/` defines it.
#![tactic(auto)]

mod commit;
mod decision;
mod effect;
mod live_orders;
mod market;
mod next_step;
mod order_by_token;
mod prefetch;
mod prepare;
mod reports;
mod state;

pub use market::Market;
pub use prepare::Prepared;
