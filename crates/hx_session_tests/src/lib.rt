//! Tests of sessions that run: over readers and writers in memory, with threads, to their ends.
#![tactic(auto)]

#[cfg(test)]
mod tests;
