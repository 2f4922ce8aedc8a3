//! The commands that copy the log of a day, and trim it up to what its copies have.

use crate::commands::argument::{Argument, FLAG, OPTION};
use crate::commands::log::LOG;
use crate::commands::subcommand::Subcommand;
use clap::builder::ValueParser;

/// Where the copy goes, and under which number it shows how much it has.
pub const COPY: Subcommand = Subcommand {
    name: "copy",
    about: "Keeps a copy of the log of a day in a file, from which a day is gone on with, or followed",
    arguments: &[
        LOG,
        Argument {
            name: "to",
            value: "FILE",
            is_required: true,
            help: "The file of the copy: it is made, or gone on with",
            ..OPTION
        },
        Argument {
            name: "as",
            value: "N",
            takes: ValueParser::Unsigned(1, 999_999_999),
            is_required: true,
            help: "The number of this copy, which no other copy of the log has",
            ..OPTION
        },
        Argument {
            name: "once",
            help: "Copies what stands there, and ends",
            ..FLAG
        },
    ],
    choice: None,
};

/// The copies up to which the log is trimmed.
pub const TRIM: Subcommand = Subcommand {
    name: "trim",
    about: "Deletes from the log of a day what each of its copies has",
    arguments: &[
        LOG,
        Argument {
            name: "copies",
            value: "N,..",
            is_required: true,
            help: "The numbers of the copies: what each of them has is deleted",
            ..OPTION
        },
        Argument {
            name: "stay",
            value: "N",
            takes: ValueParser::Unsigned(1, 1_000_000_000),
            usual: Some("1000"),
            help: "How many records that each copy has stay all the same, for readers that are slower",
            ..OPTION
        },
        Argument {
            name: "once",
            help: "Trims once, and ends",
            ..FLAG
        },
    ],
    choice: None,
};
