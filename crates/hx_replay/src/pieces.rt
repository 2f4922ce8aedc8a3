//! The ends of a tape's pieces.
ghost use Rattle.std.specs.Prelude.{◌≡◌, ◌≤◌, ◌<◌, ◌^◌, ◌+◌, ◌-◌, OnOk, IfOk, IfErr, length, drop};
ghost use Rattle.hx_tape_lines.specs.Text.{longest_line};
ghost use Rattle.hx_replay.specs.declared.fault.TapeError.TheVariants as fault;
ghost use Rattle.hx_tape_lines.specs.declared.fault.Kind.TheVariants as kinds;

use crate::fault::TapeError;
use crate::pending::Pending;
use crate::run::Counts;
use hx_tape_lines::{Kind, LONGEST_LINE};

/// The largest number of reads of a tape; more are an error.
pub const MOST_READS: u64 = 1_000_000_000;

/// More lines of a tape are too many.
pub const MOST_LINES: u64 = 1 << 47;

/// Retains the last `rest` of the bytes that are pending, those after the last whole line, so that the next piece is
/// read after them. If they are more than the longest line has, the line that they begin is bad.
pub fn keep_rest(pending: &mut Pending, rest: usize, counts: Counts) -> Result<(), TapeError>
    requires within { rest ≤ length pending.old }
    requires events { counts.events < 2 ^ 63 }
    ensures ok { OnOk result ((rest ≤ longest_line)
        × (pending.new ≡ drop (length pending.old - rest) pending.old)) }
    ensures err { IfErr result (λ e.
        (e ≡ fault.Line (counts.events + 1) kinds.Bad) × (longest_line < rest)) }
{
    if rest > LONGEST_LINE {
        return Err(bad_line(counts));
    }
    pending.keep(rest);
    Ok(())
}

/// What a replay answers at the end of its tape: what it counted; or if bytes are pending, that their line is bad,
/// since no line feed ends it.
pub fn finish(counts: Counts, pending: &[u8]) -> Result<Counts, TapeError>
    requires { counts.events < 2 ^ 63 }
    ensures ok { IfOk result (λ c. (c ≡ counts) × (length pending.now ≡ 0)) }
    ensures err { IfErr result (λ e.
        (e ≡ fault.Line (counts.events + 1) kinds.Bad) × (0 < length pending.now)) }
{
    if !pending.is_empty() {
        return Err(bad_line(counts));
    }
    Ok(counts)
}

fn bad_line(counts: Counts) -> TapeError
    requires { counts.events < 2 ^ 63 }
    ensures { result ≡ fault.Line (counts.events + 1) kinds.Bad }
{
    TapeError::Line {
        line: counts.events + 1,
        kind: Kind::Bad,
    }
}
