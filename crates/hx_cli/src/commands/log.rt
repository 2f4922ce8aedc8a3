//! The argument that names the log of a day.

use crate::commands::argument::{Argument, OPTION};

/// The nodes of the log.
pub const LOG: Argument = Argument {
    name: "log",
    value: "ADDR:PORT,..",
    is_required: true,
    help: "The nodes of an etcd whose log keeps the day",
    ..OPTION
};
