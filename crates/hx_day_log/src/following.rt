//! The tape of a day, from its log.
ghost use Rattle.std.specs.Prelude.{◌≡◌, ◌≢◌, ◌≤◌, length, IfOk, OnOk};
ghost use Rattle.hx_fenced_log.specs.JournalStates.{reported, count_read};
ghost use Rattle.hx_day_log.specs.Events.{IsWritten};

use crate::fault::DayLogError;
use crate::opening::News;
use hx_fenced_log::{Follower, Log, LogError};
use std::alloc::Global;
use std::io::Write;

/// Reads on, writes the lines that count of what is new, and flushes the writer. There is news only if more is
/// read than before, and none only if all that stood there was.
///
/// Errors: those of the log except that no node answered, which is news; `Write`, after which some of the lines may be
/// written.
pub fn write_on<L: Log, W: Write>(
    alloc: Global,
    follower: &mut Follower<L>,
    writer: &mut W,
) -> Result<News, DayLogError>
    ensures written { OnOk result (IsWritten
        (reported L.committed follower.old) (reported L.committed follower.new)
        (W.contents writer.old) (W.contents writer.new)) }
    ensures some { IfOk result (λ news. news ≡ News.Some
        → count_read follower.old.writer.reading ≢ count_read follower.new.writer.reading) }
    ensures none { IfOk result (λ news. news ≡ News.None
        → length (L.committed follower.old.log) ≤ count_read follower.old.writer.reading) }
{
    let before = follower.count_read();
    let text = match follower.read_on(alloc) {
        Ok(text) => text,
        Err(LogError::Unreachable | LogError::Unknown) => return Ok(News::Unreachable),
        Err(error) => return Err(DayLogError::from(error)),
    };
    if writer.write_all(&text).is_err() || writer.flush().is_err() {
        return Err(DayLogError::Write);
    }
    Ok(News::of(before, follower.count_read()))
}
