//! The arguments of a command as lines of a table.

use clap::builder::ValueParser;
use clap::{Arg, ArgAction};
use std::alloc::{AllocError, Global};

/// How an argument is written.
#[derive(Clone, Copy)]
pub enum Form {
    /// `--name`
    Flag,
    /// `--name VALUE`
    Option,
    /// `--name VALUE`, several times if need be
    Options,
    /// `VALUE`, by its position
    Word,
    /// `VALUE VALUE ..`, one at least, by their position
    Words,
}

/// One argument of a command. A line of a table says where it differs from `OPTION`, `FLAG` or
/// `WORD`.
#[derive(Clone, Copy)]
pub struct Argument {
    /// What it is read back by.
    pub name: &'static str,
    pub form: Form,
    /// What help calls its value.
    pub value: &'static str,
    /// What its value has to be.
    pub takes: ValueParser<'static>,
    /// Its value if it is left out.
    pub usual: Option<&'static str>,
    pub is_required: bool,
    /// The argument in whose absence it is required.
    pub unless: Option<&'static str>,
    /// The argument that it may not stand without.
    pub with: Option<&'static str>,
    /// The argument that it may not stand beside.
    pub without: Option<&'static str>,
    pub help: &'static str,
}

/// An option that takes any text.
pub const OPTION: Argument = Argument {
    name: "",
    form: Form::Option,
    value: "",
    takes: ValueParser::String,
    usual: None,
    is_required: false,
    unless: None,
    with: None,
    without: None,
    help: "",
};

/// A flag.
pub const FLAG: Argument = Argument {
    form: Form::Flag,
    ..OPTION
};

/// A required text, by its position.
pub const WORD: Argument = Argument {
    form: Form::Word,
    is_required: true,
    ..OPTION
};

impl Argument {
    // What `clap` calls it.
    pub(crate) fn arg<'a>(&self, alloc: Global) -> Result<Arg<'a>, AllocError> {
        self.ruled(self.valued(self.formed(alloc)))
    }

    // Its name, form and help.
    fn formed<'a>(&self, alloc: Global) -> Arg<'a> {
        let arg = Arg::new(alloc, self.name)
            .required(self.is_required)
            .help(self.help);
        match self.form {
            Form::Flag => arg.long(self.name).action(ArgAction::SetTrue),
            Form::Option => arg.long(self.name),
            Form::Options => arg.long(self.name).action(ArgAction::Append),
            Form::Word => arg,
            Form::Words => arg.num_args(1..),
        }
    }

    // What its value is, if it takes one.
    fn valued<'a>(&self, arg: Arg<'a>) -> Arg<'a> {
        if matches!(self.form, Form::Flag) {
            return arg;
        }
        let arg = arg.value_name(self.value).value_parser(self.takes);
        match self.usual {
            Some(usual) => arg.default_value(usual),
            None => arg,
        }
    }

    // Which others it stands with or without.
    fn ruled<'a>(&self, mut arg: Arg<'a>) -> Result<Arg<'a>, AllocError> {
        if let Some(other) = self.unless {
            arg = arg.required_unless_present(other)?;
        }
        if let Some(other) = self.with {
            arg = arg.requires_arg(other)?;
        }
        if let Some(other) = self.without {
            arg = arg.conflicts_with(other)?;
        }
        Ok(arg)
    }
}
