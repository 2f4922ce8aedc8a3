//! The words of the command line: the commands over tapes, those of a venue, and what each of them takes.

mod argument;
mod copy;
mod follow;
mod handover;
mod journal;
mod log;
mod operate;
mod relay;
mod serve;
mod shell;
mod subcommand;
mod tapes;
mod venue;
mod watch;

pub use shell::Shell;
pub use tapes::tape_command;
pub use venue::command;
