//! What an operator asks of a journal that nobody has open: how far it goes, its history as a tape,
//! and a cut of what is damaged.
#![tactic(auto)]

mod cutting;
mod fault;
mod files;
mod reporting;
mod taping;
mod words;

pub use cutting::{Cut, cut_after};
pub use fault::ToolError;
pub use files::{cut_file, report_file, tape_file};
pub use reporting::report;
pub use taping::write_tape;
