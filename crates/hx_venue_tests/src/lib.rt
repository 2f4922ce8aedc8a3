//! Tests of what stands around an exchange: a day's acceptors, the operator's words and socket, the screen of a vendor,
//! its web page, and the metrics page. Nothing is called from here.
#![tactic(auto)]

#[cfg(test)]
mod tests;
