//! The commands of a venue, and the program's whole command line.

use crate::commands::copy::{COPY, TRIM};
use crate::commands::follow::FOLLOW;
use crate::commands::handover::HANDOVER;
use crate::commands::journal::JOURNAL;
use crate::commands::operate::OPERATE;
use crate::commands::relay::RELAY;
use crate::commands::serve::SERVE;
use crate::commands::subcommand::{Subcommand, commands_of};
use crate::commands::tapes::tape_command;
use crate::commands::watch::WATCH;
use clap::Command;
use std::alloc::{AllocError, Global};

const SERVER_COMMANDS: &[Subcommand] = &[SERVE, OPERATE, WATCH, JOURNAL, RELAY];

const LOG_COMMANDS: &[Subcommand] = &[FOLLOW, HANDOVER, COPY, TRIM];

/// The program's whole command line: the commands over tapes, serve, operate, watch, journal, relay,
/// follow, handover, copy and trim.
pub fn command<'a>(alloc: Global) -> Result<Command<'a>, AllocError> {
    let served = commands_of(alloc, SERVER_COMMANDS)?;
    let logged = commands_of(alloc, LOG_COMMANDS)?;
    tape_command(alloc)?
        .subcommands(served)?
        .subcommands(logged)
}
