//! Tests of days over sockets: members, a vendor and the operator on loopback.
#![tactic(auto)]

#[cfg(test)]
mod tests;
