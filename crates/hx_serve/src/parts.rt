//! The parts of a day's sessions: how they are made of connections and passes, and what comes back of them.
ghost use Rattle.std.specs.Prelude.{◌≡◌};

use crate::fault::ServeError;
use hx_blog::{Log, Reader};
use hx_day_context::{DayClock, Times, tell_end};
use hx_engine::{Entry, Pass, Venue};
use hx_listener::{Connection, Inlet, Outlet};
use hx_members::Setup;
use hx_sessions::{Ended, Fault, Part};
use log::Log as Logs;
use std::alloc::Global;
use std::time::Clock;

/// The part of a member's session.
pub type Member<V, C> = Part<V, Inlet, Outlet, C>;

/// What the sessions left in the parts' order; or the parts, if there was no memory to begin.
pub type Served<V, C> = Result<Vec<(Member<V, C>, Result<Ended, Fault>)>, Vec<Member<V, C>>>;

/// A part for each connection, each by the last pass that is left.
pub fn hire<'a, V: Venue, T: Clock>(
    rt: &'a T,
    alloc: Global,
    times: Times<'a>,
    log: &Log<Entry>,
    connections: Vec<Connection>,
    passes: &mut Vec<Pass<V>>,
    reader: &mut Reader<Entry>,
) -> Result<Vec<Member<V, DayClock<'a, T>>>, ServeError>
    requires { (log.now ≡ V.log) × (reader.old.log ≡ V.log) }
    ensures { reader.new.log ≡ V.log }
{
    let mut parts = Vec::new(alloc);
    for connection in connections {
        let Some(pass) = passes.pop() else {
            break;
        };
        parts.push(Part {
            input: connection.inlet,
            output: connection.outlet,
            inbound: DayClock::of(rt, times),
            outbound: DayClock::of_clock(rt),
            pass,
            reader: reader.split(log),
        })?;
    }
    Ok(parts)
}

/// Takes the passes back, and logs how each session ended. Returns whether they had begun.
pub fn dismiss<V: Venue, C: Drop, T: Logs>(
    rt: &T,
    setup: &Setup,
    served: Served<V, C>,
    passes: &mut Vec<Pass<V>>,
) -> bool {
    match served {
        Ok(results) => {
            for (part, ended) in results {
                tell_end(rt, part.input.member(setup), &ended);
                let _ = passes.push(part.pass);
            }
            true
        }
        Err(parts) => {
            for part in parts {
                let _ = passes.push(part.pass);
            }
            false
        }
    }
}
