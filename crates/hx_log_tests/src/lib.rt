//! Tests of a log that several append to, in memory and in an etcd, and of a journal and a day over it. Nothing is
//! called from here.
#![tactic(auto)]

#[cfg(test)]
mod tests;
