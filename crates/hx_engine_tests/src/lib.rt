//! Tests of the desk and of the exchange over it: worked rows, threads, and the end of a day.
#![tactic(auto)]

#[cfg(test)]
mod tests;
