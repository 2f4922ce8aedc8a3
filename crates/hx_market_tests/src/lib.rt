//! The worked rows: worked days that compute on the definitions of the market, and the market's calls over worked days, books
//! and setups. Nothing is called from here.
#![tactic(auto)]

#[cfg(test)]
mod tests;
pub mod worked_days;
