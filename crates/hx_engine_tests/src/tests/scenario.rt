//! An exchange for a test.
ghost use Rattle.std.specs.Prelude.{◌≡◌, ◌≤◌, []};
ghost use Rattle.hx_engine.specs.Opening.{IsNewLog};
ghost use Rattle.hx_rules.specs.declared.event.Event.{Event};

use hx_blog::Reader;
use hx_engine::{Entry, Exchange, Pass, Venue};
use hx_engine_testing::ground::{Ground, ground_of};
use hx_engine_testing::memory::Memory;
use hx_members::Setup;
use std::alloc::Global;
use std::marker::Brand;
use std::process::Abort;
use std::sync::Wait;
use std::test::*;
use std::thread::Threads;
use std::time::Clock;

/// What a test does with a new exchange, its passes and a reader of its log.
pub trait Scenario {
    fn apply<V: Venue + Send + Sync, R: Threads + Wait + Clock + Abort + Sync>(
        rt: &R,
        alloc: Global,
        exchange: Exchange<V, Memory>,
        passes: Vec<Pass<V>>,
        reader: Reader<Entry>,
    )
        requires reader { reader.log ≡ V.log };
}

fn start<S: Scenario, V: Venue + Send + Sync, R: Threads + Wait + Clock + Abort + Sync>(
    rt: &R,
    alloc: Global,
    ground: Ground,
    passes: u16,
)
    requires feed { IsNewLog V.log ground.logs.feed }
    requires admitted { IsNewLog V.admitted ground.logs.admitted }
    requires durable { IsNewLog V.durable ground.logs.durable }
    requires of_setup { ground.setup ≡ V.setup }
    requires before { V.before ≡ [] }
    requires reader { ground.reader.log ≡ V.log }
    requires blank { (ground.blank.name ≡ V.name) × (ground.blank.parts ≡ V.parts) }
    requires passes { (1 ≤ passes) × (passes ≤ 1024) × (passes ≡ V.parts) }
{
    let Ground {
        setup,
        logs,
        blank,
        reader,
    } = ground;
    let journal = Memory::new(alloc, 0);
    let (exchange, given) = Exchange::<V, Memory>::new(
        alloc, setup, logs, journal, blank, passes,
    ).expect(rt, "an exchange");
    S::apply(rt, alloc, exchange, given, reader);
}

/// Runs a scenario over a new exchange of this setup, with a log of `capacity` slots, and this number of passes.
pub fn apply<S: Scenario, R: Threads + Wait + Clock + Abort + Sync>(
    rt: &R,
    alloc: Global,
    setup: Setup,
    capacity: u64,
    passes: u16,
) -> Result<(), Fail>
    requires capacity { (1 ≤ capacity) × (capacity ≤ 1000000) }
    requires passes { (1 ≤ passes) × (passes ≤ 1024) }
{
    let ground = ground_of(alloc, setup, capacity, passes)?;
    start::<S, Brand, R>(rt, alloc, ground, passes);
    Ok(())
}
