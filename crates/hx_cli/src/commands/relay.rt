//! The command that relays the feed of a day.

use crate::commands::argument::{Argument, Form, OPTION};
use crate::commands::subcommand::Subcommand;

// An address.
const ADDRESS: Argument = Argument {
    value: "ADDR:PORT",
    is_required: true,
    ..OPTION
};

/// Where the feed comes from, and where it goes on to.
pub const RELAY: Subcommand = Subcommand {
    name: "relay",
    about: "Sends the feed of a day on, and answers vendors' requests in its place",
    arguments: &[
        Argument {
            name: "feed",
            help: "The UDP address that the feed comes to",
            ..ADDRESS
        },
        Argument {
            name: "requests",
            form: Form::Options,
            help: "The UDP address of requests, and that of a standby",
            ..ADDRESS
        },
        Argument {
            name: "to",
            form: Form::Options,
            help: "A UDP address that the feed goes on to, several times if need be",
            ..ADDRESS
        },
        Argument {
            name: "answers",
            help: "The UDP address of vendors' requests here",
            ..ADDRESS
        },
    ],
    choice: None,
};
