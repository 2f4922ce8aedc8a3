//! The number of bytes that a session reads at once: the double while another thread records, so that more messages
//! are one submit.
ghost use Rattle.std.specs.Prelude.{◌≡◌, []};
ghost use Rattle.hx_engine.specs.Opening.{IsNewLog};

use super::overlap::Meeting;
use super::packets::ALPHA;
use super::stage::Still;
use super::{equal, holds};
use hx_blog::Reader;
use hx_engine::{Entry, Exchange, Pass, Venue};
use hx_engine_testing::ground::{Ground, ground_of};
use hx_engine_testing::witnessed::{Witness, Witnessed};
use hx_members::Setup;
use hx_sessions::{Ended, Fault, Logins, Part, Session};
use hx_testing::memory::{Input, Output, wait_for};
use hx_testing::sending::{BUY, Order, enter};
use hx_wake::{Source, Waker};
use std::alloc::Global;
use std::io::{self, Read};
use std::marker::Brand;
use std::process::Abort;
use std::sync::Wait;
use std::sync::atomic::{AtomicU64, Ordering};
use std::test::*;
use std::thread::{Threads, join};
use std::time::Duration;

// What a session, a journal and another thread tell one another.
#[derive(Drop)]
struct Moments {
    // The session waits for bytes.
    waits: AtomicU64,
    // A record is about to be written, under the lock.
    writes: AtomicU64,
    // The number of bytes for which the session asked then.
    asked: AtomicU64,
}

impl Moments {
    fn new() -> Moments {
        Moments {
            waits: AtomicU64::new(0),
            writes: AtomicU64::new(0),
            asked: AtomicU64::new(0),
        }
    }
}

// The journal's record is written once the session has read.
impl Witness for &Moments {
    fn appends(&self) {
        self.writes.store(1, Ordering::SeqCst);
        let _ = wait_for(&self.asked, 1);
    }
}

// The connection of a client that logs in and ends. If there is another client, the end is read while that one records.
#[derive(Drop)]
struct Line<'a> {
    input: Input<'a>,
    is_beside: bool,
    moments: &'a Moments,
}

impl Read for Line<'_> {
    fn read(&mut self, buf: &mut [u8]) -> io::Result<usize> {
        if self.input.bytes.is_empty() {
            self.moments.asked.store(buf.len() as u64, Ordering::SeqCst);
        }
        self.input.read(buf)
    }
}

impl Source for Line<'_> {
    fn wait(&self, _waker: &Waker, _limit: Duration) -> bool {
        self.moments.waits.store(1, Ordering::SeqCst);
        !self.is_beside || wait_for(&self.moments.writes, 1)
    }
}

// Runs a client's session: how it ended, and the pass.
fn attend<V: Venue, R: Wait>(
    rt: &R,
    alloc: Global,
    exchange: &Exchange<V, Witnessed<&Moments>>,
    setup: &Setup,
    line: Line,
    session_slot: (Pass<V>, Reader<Entry>),
) -> Result<Ended, Fault>
    requires { session_slot.1.log ≡ V.log }
{
    let (pass, reader) = session_slot;
    let count = AtomicU64::new(0);
    let part = Part {
        input: line,
        output: Output::new(alloc, &count),
        inbound: Still::new(),
        outbound: Still::new(),
        pass,
        reader,
    };
    let logins = Logins { setup, copies: &[] };
    let (_part, outcome) = Session::run(
        rt,
        alloc,
        exchange,
        &logins,
        part,
        &Meeting::of_nobody(),
        1000,
    );
    outcome
}

// One client at an exchange, and perhaps another one, which records an order.
fn read_beside<V: Venue + Send + Sync, R: Threads + Wait + Abort + Sync>(
    rt: &R,
    alloc: Global,
    ground: Ground,
    moments: &Moments,
    order: Option<Order>,
)
    requires feed { IsNewLog V.log ground.logs.feed }
    requires admitted { IsNewLog V.admitted ground.logs.admitted }
    requires durable { IsNewLog V.durable ground.logs.durable }
    requires of_setup { ground.setup ≡ V.setup }
    requires before { V.before ≡ [] }
    requires reader { ground.reader.log ≡ V.log }
    requires blank { (ground.blank.name ≡ V.name) × (ground.blank.parts ≡ V.parts) × (V.parts ≡ 2) }
{
    let Ground {
        setup,
        logs,
        blank,
        reader,
    } = ground;
    let own = setup.copy(alloc).expect(rt, "a setup");
    let journal = Witnessed::new(alloc, 0, true, moments);
    let (exchange, mut passes) = Exchange::<V, Witnessed<&Moments>>::new(
        alloc, setup, logs, journal, blank, 2,
    ).expect(rt, "an exchange");
    let mut beside = passes.pop().expect(rt, "a pass");
    let session_slot = (passes.pop().expect(rt, "a pass"), reader);
    let line = Line {
        input: Input::new(ALPHA),
        is_beside: order.is_some(),
        moments,
    };
    let shared = &exchange;
    let (outcome, is_recorded) = join(
        rt,
        move || -> Result<Ended, Fault>
            requires { session_slot.1.log ≡ V.log }
        { attend(rt, alloc, shared, &own, line, session_slot) },
        || match order {
            Some(order) => {
                let event = enter(alloc, &order).expect(rt, "an order");
                wait_for(&moments.waits, 1) && shared.submit(rt, &mut beside, &event).is_ok()
            }
            None => true,
        },
    );
    holds(rt, matches!(outcome, Ok(Ended::ReaderEnd)));
    holds(rt, is_recorded);
}

// The number of bytes for which a session asks, if this order is recorded meanwhile, or none is.
fn asked_beside<R: AllocGlobal + Threads + Wait + Abort + Sync>(
    rt: &R,
    order: Option<Order>,
) -> Result<u64, Fail> {
    let alloc = rt.alloc();
    let setup = Setup::standard(alloc).expect(rt, "a setup");
    let ground = ground_of(alloc, setup, 100, 2)?;
    let moments = Moments::new();
    read_beside::<Brand, _>(rt, alloc, ground, &moments, order);
    Ok(moments.asked.load(Ordering::SeqCst))
}

#[test]
fn a_session_reads_a_short_piece_where_nobody_records(rt: HostRuntime) -> Result<(), Fail> {
    equal(&rt, asked_beside(&rt, None)?, 2048);
    Ok(())
}

#[test]
fn a_session_reads_a_long_piece_while_somebody_records(rt: HostRuntime) -> Result<(), Fail> {
    equal(&rt, asked_beside(&rt, Some(BUY))?, 4096);
    Ok(())
}
