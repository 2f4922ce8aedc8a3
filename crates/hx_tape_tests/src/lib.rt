//! Worked tapes, given to the calls that replay, strike and show them. Nothing is called from here.
#![tactic(auto)]

#[cfg(test)]
mod tests;
