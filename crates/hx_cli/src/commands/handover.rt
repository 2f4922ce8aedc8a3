//! The command that asks a standby to take over.

use crate::commands::argument::{Argument, OPTION};
use crate::commands::log::LOG;
use crate::commands::subcommand::Subcommand;
use clap::builder::ValueParser;

/// The nodes of the log, and the writer that resigns.
pub const HANDOVER: Subcommand = Subcommand {
    name: "handover",
    about: "Has a standby take over at once from the server that is in office",
    arguments: &[
        LOG,
        Argument {
            name: "writer",
            value: "N",
            takes: ValueParser::Unsigned(1, 999_999_999),
            is_required: true,
            help: "The number of the server that leaves office",
            ..OPTION
        },
    ],
    choice: None,
};
