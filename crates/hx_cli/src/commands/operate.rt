//! The command that says the operator's words.

use crate::commands::argument::{Argument, Form, WORD};
use crate::commands::subcommand::Subcommand;

/// The socket of the server, and the operator's command.
pub const OPERATE: Subcommand = Subcommand {
    name: "operate",
    about: "Says the operator's words to a running server, and writes its answer",
    arguments: &[
        Argument {
            name: "path",
            value: "PATH",
            help: "The operator's socket of a running server",
            ..WORD
        },
        Argument {
            name: "words",
            form: Form::Words,
            value: "WORDS",
            help: "What it is told: say help to hear what it understands",
            ..WORD
        },
    ],
    choice: None,
};
