//! The command over the journal of a day.

use crate::commands::argument::{Argument, FLAG, WORD};
use crate::commands::subcommand::{Choice, Subcommand};

/// How far a journal goes, or its history, or a cut of it.
pub const JOURNAL: Subcommand = Subcommand {
    name: "journal",
    about: "Tells how far the journal of a day goes, and what is wrong with it",
    arguments: &[
        Argument {
            name: "file",
            value: "FILE",
            help: "The journal of a day",
            ..WORD
        },
        Argument {
            name: "tape",
            help: "Writes its history, as a tape",
            ..FLAG
        },
        Argument {
            name: "cut",
            help: "Cuts the file behind its last whole block, for good",
            ..FLAG
        },
    ],
    choice: Some(Choice {
        name: "what",
        between: ["tape", "cut"],
        is_required: false,
    }),
};
