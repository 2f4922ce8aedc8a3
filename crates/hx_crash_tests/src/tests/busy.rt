//! Whether some thread is at the lock, as an exchange guesses it: while one writes its record there, and neither before
//! nor after.
ghost use Rattle.std.specs.Prelude.{◌≡◌, []};
ghost use Rattle.hx_engine.specs.Opening.{IsNewLog};

use super::{equal, holds};
use hx_engine::{Exchange, Venue};
use hx_engine_testing::ground::{Ground, ground_of};
use hx_engine_testing::witnessed::{Witness, Witnessed};
use hx_members::Setup;
use hx_testing::memory::wait_for;
use hx_testing::sending::{BUY, enter};
use std::alloc::Global;
use std::marker::Brand;
use std::process::Abort;
use std::sync::Wait;
use std::sync::atomic::{AtomicU64, Ordering};
use std::test::*;
use std::thread;
use std::thread::Threads;

// Announces that a record is about to be appended, and waits until that was seen. The journal is quick, so that
// meanwhile the lock is held.
#[derive(Drop)]
struct Seen<'a> {
    is_written: &'a AtomicU64,
    is_seen: &'a AtomicU64,
}

impl Witness for Seen<'_> {
    fn appends(&self) {
        self.is_written.store(1, Ordering::SeqCst);
        let _ = wait_for(self.is_seen, 1);
    }
}

// One thread submits an order, and another looks while its record is written.
fn look_at_one_who_writes<V: Venue + Send + Sync, R: Threads + Wait + Abort + Sync>(
    rt: &R,
    alloc: Global,
    ground: Ground,
    is_written: &AtomicU64,
    is_seen: &AtomicU64,
)
    requires feed { IsNewLog V.log ground.logs.feed }
    requires admitted { IsNewLog V.admitted ground.logs.admitted }
    requires durable { IsNewLog V.durable ground.logs.durable }
    requires of_setup { ground.setup ≡ V.setup }
    requires before { V.before ≡ [] }
    requires blank { (ground.blank.name ≡ V.name) × (ground.blank.parts ≡ V.parts) × (V.parts ≡ 1) }
{
    let Ground {
        setup,
        logs,
        blank,
        reader: _,
    } = ground;
    let witness = Seen {
        is_written,
        is_seen,
    };
    let journal = Witnessed::new(alloc, 0, true, witness);
    let (exchange, mut passes) = Exchange::<V, Witnessed<Seen>>::new(
        alloc, setup, logs, journal, blank, 1,
    ).expect(rt, "an exchange");
    let mut pass = passes.pop().expect(rt, "a pass");
    let event = enter(alloc, &BUY).expect(rt, "an order");
    holds(rt, !exchange.is_busy());
    let shared = &exchange;
    let (is_done, was_busy) = thread::join(
        rt,
        || shared.submit(rt, &mut pass, &event).is_ok(),
        || {
            let is_there = wait_for(is_written, 1);
            let is_busy = shared.is_busy();
            is_seen.store(1, Ordering::SeqCst);
            is_there && is_busy
        },
    );
    equal(rt, (is_done, was_busy), (true, true));
    holds(rt, !exchange.is_busy());
}

#[test]
fn an_exchange_is_busy_while_a_record_is_written(rt: HostRuntime) -> Result<(), Fail> {
    let alloc = rt.alloc();
    let setup = Setup::standard(alloc).expect(&rt, "a setup");
    let ground = ground_of(alloc, setup, 100, 1)?;
    let (is_written, is_seen) = (AtomicU64::new(0), AtomicU64::new(0));
    look_at_one_who_writes::<Brand, _>(&rt, alloc, ground, &is_written, &is_seen);
    Ok(())
}
