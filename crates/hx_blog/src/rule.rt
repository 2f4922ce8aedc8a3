//! The table of words under the log, and the rule that it keeps.
use crate::view::View;
use atomic_table::{Seat, Table, TableRule};
use std::alloc::Global;

/// The rule of the log, for a log with this room.
pub struct LogRule;

impl<E> TableRule<(), View<E>, u64> for LogRule {
    ghost use Rattle.std.specs.Prelude.{[]};
    ghost use Rattle.hx_blog.specs.Rule.{RuleOfTheLog};
    ghost use Rattle.hx_blog.specs.Views.{writing};

    ghost holds = { RuleOfTheLog };

    ghost first = { λ room. writing room [] [] [] };
}

/// The words of a log: the count, then six words a message. It has no slots.
pub(crate) type LogTable<E> = Table<(), View<E>, u64, LogRule, Global>;

/// A seat at these words.
pub(crate) type LogSeat<E> = Seat<(), View<E>>;
