//! Tapes: a replay from a tape's lines to its output lines.
#![tactic(auto)]

mod buffers;
mod fault;
pub mod laws;
mod output_text;
mod pending;
mod pieces;
mod replaying;
mod run;
mod unwritten;
mod write_output;

pub use fault::TapeError;
pub use hx_tape_lines::Kind;
pub use replaying::{replay, replay_on};
pub use run::Counts;

// What a replay is made of, for those that share its work among threads, or read a tape in another way.
pub use buffers::LineBuffers;
pub use output_text::OutputText;
pub use pending::Pending;
pub use pieces::{MOST_LINES, MOST_READS, finish, keep_rest};
pub use replaying::apply_lines;
pub use run::{Run, fault_of};
pub use unwritten::Unwritten;
pub use write_output::{spell_output, write_before, write_outcome};
