//! The promise, checked on a day: what others get with and without quiet chains.
ghost use Rattle.std.specs.Prelude.{◌≡◌, List, IfOk};
ghost use Rattle.hx_tape_lines.specs.Text.{Entry, tape};
ghost use Rattle.hx_replay.specs.Run.{start, output_all, AreEvents};
ghost use Rattle.hx_audit.specs.declared.auditor.Whose.TheVariants as whose;
ghost use Rattle.hx_report.specs.declared.looks.Look.TheVariants as look;
ghost use Rattle.hx_report.specs.Days.{IsDay, IsCheck};

use crate::day::Day;
use crate::looks::{Look, Sieve};
use crate::striking::strike;
use crate::texts::{Comparison, compare};
use hx_audit::Whose;
use hx_members::Setup;
use hx_replay::replay;
use hx_units::{MemberNo, NoMemory};
use std::alloc::Global;

/// What others get of a day without quiet chains, beside what they get of the whole day.
#[derive(Clone, Copy, Debug, PartialEq, Eq, Drop)]
pub struct Check {
    /// How many lines of the tape are struck.
    pub struck: u64,
    /// What they get of both.
    pub comparison: Comparison,
}

// The output of the tape of a day's events; for such a tape only memory can be wanting. `room` is the initial capacity
// in bytes.
fn output_of(alloc: Global, setup: &Setup, text: &[u8], room: usize) -> Result<Vec<u8>, NoMemory>
    ensures { IfOk result (λ output. (es : List Entry) → AreEvents (start setup.now) es
        → text.now ≡ tape es → output.items ≡ output_all (start setup.now) es) }
{
    let mut output = Vec::with_capacity(alloc, room)?;
    let mut reader = text;
    if replay(alloc, setup, &mut reader, &mut output).is_err() {
        return Err(NoMemory);
    }
    Ok(output)
}

// Strikes a day's quiet chains, replays what is left, and compares the lines that one reader gets of it with those of
// the day.
fn checked(alloc: Global, day: &Day, whose: Whose, look: Look) -> Result<Check, NoMemory>
    ensures { IfOk result (λ check. (es : List Entry) → IsDay day.now es
        → IsCheck day.now.setup es whose look check) }
{
    let sieve = Sieve::of(alloc, look)?;
    let struck = strike(alloc, &day.text, &day.marks, &whose)?;
    let output = output_of(alloc, &day.setup, &struck.text, day.output.len())?;
    Ok(Check {
        struck: struck.gone,
        comparison: compare(&sieve, &day.output, &output),
    })
}

/// Strikes a member's quiet chains, and compares what everybody else gets.
pub fn check_member(alloc: Global, day: &Day, member: MemberNo) -> Result<Check, NoMemory>
    ensures { IfOk result (λ check. (es : List Entry) → IsDay day.now es
        → IsCheck day.now.setup es (whose.Of member) (look.AllBut member) check) }
{
    checked(alloc, day, Whose::Of(member), Look::AllBut(member))
}

/// Strikes the quiet chains of all members, and compares the feed.
pub fn check_all(alloc: Global, day: &Day) -> Result<Check, NoMemory>
    ensures { IfOk result (λ check. (es : List Entry) → IsDay day.now es
        → IsCheck day.now.setup es whose.OfAll look.Feed check) }
{
    checked(alloc, day, Whose::OfAll, Look::Feed)
}
