//! Tests of the journal of a day in a file, and of the tool over it; and of days that stop, resume from what is
//! durable, and publish all again: at each call of the journal's file, when a journal takes no more records, or between
//! two events.
#![tactic(auto)]

#[cfg(test)]
mod tests;
