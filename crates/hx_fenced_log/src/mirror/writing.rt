//! Records that are written to a mirror.
ghost use Rattle.std.specs.Prelude.{◌≡◌, ◌++◌, true, OnOk};
ghost use Rattle.hx_journal.specs.Lines.{lines_of};
ghost use Rattle.hx_fenced_log.specs.Mirrors.{IsOfRecords};

use hx_journal::{Journal, JournalError};
use hx_units::split_once;

/// Appends the records of a text, each with a line feed after it, and syncs them.
pub(crate) fn write_records<M: Journal>(mirror: &mut M, text: &[u8]) -> Result<(), JournalError>
    requires { IsOfRecords text.now }
    ensures appended { OnOk result
        (M.appended mirror.new ≡ M.appended mirror.old ++ lines_of text.now) }
    ensures durable { OnOk result (M.durable mirror.new ≡ M.appended mirror.new) }
    ensures is_open { OnOk result (M.is_open mirror.new ≡ true) }
{
    let mut rest = text;
    while let Some((line, others)) = split_once(rest, b'\n') {
        mirror.append(line)?;
        rest = others;
    }
    mirror.sync()
}
