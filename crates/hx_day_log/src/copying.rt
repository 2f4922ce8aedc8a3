//! A copy of the log of a day.
ghost use Rattle.std.specs.Prelude.{◌≡◌, ◌<◌, length, IfOk, OnOk, OnErr};
ghost use Rattle.hx_fenced_log.specs.Copies.{texts_of};
ghost use Rattle.hx_day_log.specs.Copies.{AreCopied};

use crate::fault::DayLogError;
use crate::opening::News;
use hx_fenced_log::{Log, LogError, LogRecord};
use std::alloc::Global;
use std::io::Write;

/// Reads the log on from the next number, which is at least 1, and writes the texts of the records that stand there, in
/// order, to the writer, which it flushes. There is no news only if none stood there. Ok moves the number after them.
///
/// Errors: those of the log except that no node answered, which is news; `Write`, after which some of the texts may be
/// written.
pub fn copy_on<L: Log, W: Write>(
    alloc: Global,
    log: &mut L,
    next: &mut u64,
    writer: &mut W,
) -> Result<News, DayLogError>
    requires { 0 < next.old }
    ensures copied { OnOk result (AreCopied (L.committed log.new) next.old next.new
        (W.contents writer.old) (W.contents writer.new)) }
    ensures none { IfOk result (λ news. news ≡ News.None
        → length (L.committed log.old) < next.old) }
    ensures err { OnErr result (next.new ≡ next.old) }
{
    let records = match log.read(alloc, *next) {
        Ok(records) => records,
        Err(LogError::Unreachable | LogError::Unknown) => return Ok(News::Unreachable),
        Err(error) => return Err(DayLogError::from(error)),
    };
    let Some(later) = next.checked_add(records.len() as u64) else {
        return Err(DayLogError::Failed);
    };
    let text = texts_of(alloc, &records)?;
    if writer.write_all(&text).is_err() || writer.flush().is_err() {
        return Err(DayLogError::Write);
    }
    let news = News::of(*next, later);
    *next = later;
    Ok(news)
}

// The texts of records, concatenated.
fn texts_of(alloc: Global, records: &[LogRecord]) -> Result<Vec<u8>, DayLogError>
    ensures { IfOk result (λ text. text.items ≡ texts_of records.now) }
{
    let mut text = Vec::new(alloc);
    for found in records {
        let Ok(spelled) = found.spelled(alloc) else {
            return Err(DayLogError::NoMemory);
        };
        text.extend_from_slice(&spelled)?;
    }
    Ok(text)
}
