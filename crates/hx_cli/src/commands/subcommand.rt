//! Commands as lines of a table.

use crate::commands::argument::Argument;
use clap::{Arg, ArgGroup, Command};
use std::alloc::{AllocError, Global};

/// Two arguments of which a command takes one at most, or just one.
#[derive(Clone, Copy)]
pub struct Choice {
    pub name: &'static str,
    pub between: [&'static str; 2],
    pub is_required: bool,
}

/// A command: what it does, and its arguments in the order in which help lists them.
#[derive(Clone, Copy)]
pub struct Subcommand {
    pub name: &'static str,
    pub about: &'static str,
    pub arguments: &'static [Argument],
    pub choice: Option<Choice>,
}

impl Choice {
    // What `clap` calls it.
    fn group<'a>(&self, alloc: Global) -> Result<ArgGroup<'a>, AllocError> {
        ArgGroup::new(alloc, self.name)
            .required(self.is_required)
            .args(&self.between)
    }
}

impl Subcommand {
    // What `clap` calls its arguments.
    fn args<'a>(&self, alloc: Global) -> Result<Vec<Arg<'a>>, AllocError> {
        let mut args = Vec::new(alloc);
        for argument in self.arguments {
            args.push(argument.arg(alloc)?)?;
        }
        Ok(args)
    }

    // What `clap` calls it.
    fn command<'a>(&self, alloc: Global) -> Result<Command<'a>, AllocError> {
        let args = self.args(alloc)?;
        let Some(choice) = self.choice else {
            return Command::new(alloc, self.name).about(self.about).args(args);
        };
        let group = choice.group(alloc)?;
        let command = Command::new(alloc, self.name).about(self.about);
        command.args(args)?.group(group)
    }
}

/// What `clap` calls these commands, in this order.
pub fn commands_of<'a>(
    alloc: Global,
    subcommands: &[Subcommand],
) -> Result<Vec<Command<'a>>, AllocError> {
    let mut commands = Vec::new(alloc);
    for subcommand in subcommands {
        commands.push(subcommand.command(alloc)?)?;
    }
    Ok(commands)
}
