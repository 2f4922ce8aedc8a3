//! Days that apply what they read.
ghost use Rattle.std.specs.Prelude.{◌≡◌, []};

use super::standby::Patient;
use super::{keep_day, keep_stranger, opened};
use crate::tests::equal;
use hx_blog::Log;
use hx_day_log::*;
use hx_engine::{Applied, DeskError, Entry};
use hx_fenced_log::MemoryLog;
use hx_members::{Seed, Setup};
use hx_recovery::Unwatched;
use std::alloc::Global;
use std::process::Abort;

// The standard day, without an applied event.
fn unapplied<R: Abort>(rt: &R, alloc: Global) -> Alone<Applied>
    ensures { result.day.events ≡ [] }
{
    let setup = Setup::standard(alloc).expect(rt, "memory");
    let (log, writer, _reader) = Log::<Entry>::new(alloc, 64).expect(rt, "memory");
    let day = Applied::new(alloc, setup, (log, writer), Seed::Fixed).expect(rt, "memory");
    Alone { day }
}

#[test]
fn a_standby_has_applied_what_it_takes_over(rt: HostRuntime) {
    let alloc = rt.alloc();
    let first = opened(&rt, alloc, MemoryLog::new(alloc), 1);
    let log = keep_day(&rt, first.journal);
    let mut watch = Patient::new(3);
    let day = unapplied(&rt, alloc);
    let (day, journal) = stand_by_and_apply(alloc, log, 2, day, &mut watch, &Unwatched).expect(
        &rt, "a log",
    );
    equal(&rt, day.count(), 2);
    // The takeovers of both, and a record of both lines.
    equal(&rt, journal.into_follower().into_log().len(), 3);
}

#[test]
fn an_event_that_is_refused_is_a_fault(rt: HostRuntime) {
    let alloc = rt.alloc();
    let first = opened(&rt, alloc, MemoryLog::new(alloc), 1);
    let log = keep_stranger(&rt, first.journal);
    let fault = open_and_apply(alloc, log, 2, unapplied(&rt, alloc), &Unwatched).err();
    equal(&rt, fault, Some(DayLogError::Refused(DeskError::NoMember)));
}
