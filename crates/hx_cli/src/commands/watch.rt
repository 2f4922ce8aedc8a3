//! The command that shows a day to its readers.

use crate::commands::argument::{Argument, OPTION};
use crate::commands::subcommand::Subcommand;
use clap::builder::ValueParser;

// A port, 1 to 65,535.
const PORT: Argument = Argument {
    value: "P",
    takes: ValueParser::Signed(1, 65_535),
    ..OPTION
};

/// Where the feed comes to, and what is shown of it.
pub const WATCH: Subcommand = Subcommand {
    name: "watch",
    about: "Writes the best bid and offer of each stock as the feed of a day changes them",
    arguments: &[
        Argument {
            name: "feed",
            is_required: true,
            help: "The UDP port that the feed comes to",
            ..PORT
        },
        Argument {
            name: "requests",
            is_required: true,
            help: "The UDP port of requests",
            ..PORT
        },
        Argument {
            name: "stock",
            value: "NAME",
            help: "The one stock whose depth is written, in place of the best prices of all",
            ..OPTION
        },
        Argument {
            name: "web",
            help: "The TCP port, at 127.0.0.1, of a page for browsers that shows all of it",
            ..PORT
        },
    ],
    choice: None,
};
