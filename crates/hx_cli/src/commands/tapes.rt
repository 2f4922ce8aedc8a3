//! The commands over tapes, each with its arguments.

use crate::commands::argument::{Argument, FLAG, OPTION, WORD};
use crate::commands::subcommand::{Choice, Subcommand, commands_of};
use clap::Command;
use clap::builder::ValueParser;
use std::alloc::{AllocError, Global};

// The program's name.
const PROGRAM: &str = "hx_tape";

// Its version, and what it is proved with, as `rt version` says.
const VERSION: &str = "0.1.0, proved with rattle-kit-13f logic dac8208d650f15bf";

/// The option that names the file of the setup, `--setup`.
pub const SETUP_FILE: Argument = Argument {
    name: "setup",
    value: "FILE",
    help: "The setup of the day, in place of the standard one",
    ..OPTION
};

// The number of a member.
const MEMBER: Argument = Argument {
    name: "member",
    value: "N",
    takes: ValueParser::Signed(1, 4095),
    help: "The number of the member",
    ..OPTION
};

const REPLAY: Subcommand = Subcommand {
    name: "replay",
    about: "Writes the output lines of a tape",
    arguments: &[SETUP_FILE],
    choice: None,
};

// One member, or all: the one or the other.
const STRIKE: Subcommand = Subcommand {
    name: "strike",
    about: "Writes a tape without the messages of quiet chains, of a member or of all",
    arguments: &[
        MEMBER,
        Argument {
            name: "all",
            help: "All members at once",
            ..FLAG
        },
        SETUP_FILE,
    ],
    choice: Some(Choice {
        name: "whose",
        between: ["member", "all"],
        is_required: true,
    }),
};

// The feed or a member, or neither of them.
const SHOW: Subcommand = Subcommand {
    name: "show",
    about: "Writes a tape, or the output of replay, in words",
    arguments: &[
        MEMBER,
        Argument {
            name: "feed",
            help: "The messages of the feed alone",
            ..FLAG
        },
    ],
    choice: Some(Choice {
        name: "which",
        between: ["member", "feed"],
        is_required: false,
    }),
};

const COMPLETIONS: Subcommand = Subcommand {
    name: "completions",
    about: "Writes how a shell completes the words of this program",
    arguments: &[Argument {
        name: "shell",
        value: "SHELL",
        takes: ValueParser::Names(&["bash", "zsh", "fish"]),
        help: "The shell",
        ..WORD
    }],
    choice: None,
};

// Where the report goes, and in which form.
const AUDIT: Subcommand = Subcommand {
    name: "audit",
    about: "Reports a tape's day: its quiet chains, and that others get the same without them",
    arguments: &[
        Argument {
            name: "json",
            help: "Writes one object of JSON, in place of a text",
            ..FLAG
        },
        Argument {
            name: "html",
            value: "FILE",
            help: "Writes a page of HTML to this file as well",
            ..OPTION
        },
        SETUP_FILE,
    ],
    choice: None,
};

const COMMANDS: &[Subcommand] = &[REPLAY, STRIKE, SHOW, COMPLETIONS, AUDIT];

/// The command line of the commands over tapes: replay, strike, show, audit and completions. Its texts name the program
/// `hx_tape`, whatever its file is called.
pub fn tape_command<'a>(alloc: Global) -> Result<Command<'a>, AllocError> {
    let commands = commands_of(alloc, COMMANDS)?;
    Command::new(alloc, PROGRAM)
        .version(VERSION)
        .subcommand_required(true)
        .subcommands(commands)?
        .bin_name(PROGRAM)
}
