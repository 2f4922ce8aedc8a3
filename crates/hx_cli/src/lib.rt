//! The command line: the words of all commands, and what is run for those over tapes. A tape is replayed, written
//! without quiet chains, shown in words, or reported to an auditor, from standard input to standard output; and how
//! far a long run is.
#![tactic(auto)]

mod audit;
mod commands;
mod completions;
mod fault;
mod members;
mod progress;
mod replay;
mod running;
mod setups;
mod show;
mod strike;
mod words;

pub use commands::{Shell, command, tape_command};
pub use fault::RunError;
pub use running::run_command;
pub use setups::{read_setup, read_setup_text, setup_of};
pub use words::{read_words, refuse};
