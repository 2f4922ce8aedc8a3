//! What an open day has besides its acceptors.
ghost use Rattle.std.specs.Prelude.{◌≡◌};
ghost use Rattle.hx_serve.specs.DayServices.{AreNone};

use crate::director::Duties;
use std::hash::RandomState;
use std::net::TcpListener;

/// The socket at which a venue shows its metrics.
#[derive(Drop)]
pub struct Metrics {
    /// The socket that is asked.
    pub listener: TcpListener,
    /// The keys of the tables by which requests are read.
    pub keys: RandomState,
}

/// What an open day has besides its acceptors: its direction by the operator's socket and the
/// clock, and its metrics.
pub struct DayServices {
    /// The operator's socket, the schedule, the ticks, and the time after the day's end.
    pub duties: Duties,
    /// The socket at which the day shows its metrics, if it does.
    pub metrics: Option<Metrics>,
}

// By hand, so that when a value is dropped its owner's proof sees one call.
impl Drop for DayServices {
    fn drop(self) {
        let DayServices {
            duties: _,
            metrics: _,
        } = self;
    }
}

impl DayServices {
    /// The day's duties, and its metrics if it shows them.
    pub fn into_both(self) -> (Duties, Option<Metrics>)
        ensures duties { result.0 ≡ self.duties }
        ensures metrics { result.1 ≡ self.metrics }
    {
        let DayServices { duties, metrics } = self;
        (duties, metrics)
    }

    /// Nothing: only standard input directs the day, no time passes without it, and no metrics are
    /// shown.
    pub fn none() -> DayServices
        ensures none { AreNone result }
    {
        DayServices {
            duties: Duties {
                socket: None,
                schedule: None,
                tick: 0,
                grace: u64::MAX,
            },
            metrics: None,
        }
    }
}
