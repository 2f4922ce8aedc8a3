//! Tests of large inputs: a day of 20,000 lines, a stream of 200,000 bytes, a feed of thousands of messages, 10,000
//! used tokens, and a setup with the largest number of stocks and members; and of refusals: each read and each write
//! that fails in turn, and each growth, which `tests/refusals` refuses from outside.
#![tactic(auto)]

#[cfg(test)]
mod tests;
