//! The times of a day.
ghost use Rattle.std.specs.Prelude.{◌<◌};

use hx_sessions::Clock;
use std::sync::atomic::{AtomicU64, Ordering};
use std::time::Clock as Timer;

// Nanoseconds of a day.
const DAY: u64 = 86_400_000_000_000;

/// Which times a day has: those of the machine's clock, which begins anew at midnight; or those of one day, none of
/// them below one that was given before.
#[derive(Clone, Copy)]
pub struct Times<'a> {
    // The day, since 1970, UTC, and the last time that was given.
    of_day: Option<(u64, &'a AtomicU64)>,
}

impl<'a> Times<'a> {
    /// The machine's.
    pub fn of_machine() -> Times<'a> {
        Times { of_day: None }
    }

    /// The times of one day, in nanoseconds, none below the last one given; the day is counted since 1970, UTC. A time
    /// before the day is its first nanosecond, a time after it its last.
    pub fn of_day(day: u64, last: &'a AtomicU64) -> Times<'a> {
        Times {
            of_day: Some((day, last)),
        }
    }
}

/// The time of day in nanoseconds, UTC, by the machine's clock; 0 if it cannot be read.
#[derive(Clone, Copy)]
pub struct DayClock<'a, T> {
    /// The runtime whose clock it is.
    pub rt: &'a T,
    times: Times<'a>,
}

/// The nanoseconds since 1970; 0 if the clock cannot be read.
pub fn since_1970<T: Timer>(rt: &T) -> u64 {
    match rt.since_1970() {
        Ok(time) => u64::try_from(time.as_nanos()).unwrap_or(u64::MAX),
        Err(_) => 0,
    }
}

/// The number of the present day since 1970, UTC.
pub fn today<T: Timer>(rt: &T) -> u64 {
    since_1970(rt) / DAY
}

// The time of one day at a moment since 1970.
fn within(day: u64, moment: u64) -> u64
    ensures { result < 86400000000000 }
{
    if moment / DAY > day {
        return DAY - 1;
    }
    if moment / DAY < day {
        return 0;
    }
    moment % DAY
}

impl<'a, T: Timer> DayClock<'a, T> {
    /// The machine's clock, whose time of day begins anew at midnight.
    pub fn of_clock(rt: &'a T) -> DayClock<'a, T> {
        DayClock {
            rt,
            times: Times::of_machine(),
        }
    }

    /// The clock of a day.
    pub fn of(rt: &'a T, times: Times<'a>) -> DayClock<'a, T> {
        DayClock { rt, times }
    }

    /// The time of day: always within the day.
    pub fn time_of_day(&self) -> u64
        ensures { result < 86400000000000 }
    {
        let moment = since_1970(self.rt);
        let Some((day, last)) = self.times.of_day else {
            return moment % DAY;
        };
        let time = within(day, moment);
        let before = last.fetch_max(time, Ordering::SeqCst);
        time.max(before).min(DAY - 1)
    }
}

impl<'a, T: Timer> Clock for DayClock<'a, T> {
    fn now(&mut self) -> u64 {
        self.time_of_day()
    }
}
