//! The layouts of the published standards, byte for byte, and the ranges of fields: tests of the crates that read and
//! write them; and of a vendor's reader: the feeds of worked days and of a generated one, over networks that lose, repeat
//! and reorder. Nothing is called from here.
#![tactic(auto)]

#[cfg(test)]
mod tests;
