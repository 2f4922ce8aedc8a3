//! The command that follows the log of a day.

use crate::commands::argument::{Argument, FLAG, OPTION};
use crate::commands::log::LOG;
use crate::commands::subcommand::Subcommand;

/// The nodes of the log, a copy of it, and whether to wait for more.
pub const FOLLOW: Subcommand = Subcommand {
    name: "follow",
    about: "Writes the tape of a day as its log keeps it",
    arguments: &[
        LOG,
        Argument {
            name: "from",
            value: "FILE",
            help: "A copy of the log, with which it is begun",
            ..OPTION
        },
        Argument {
            name: "once",
            help: "Writes what stands there, and ends",
            ..FLAG
        },
    ],
    choice: None,
};
