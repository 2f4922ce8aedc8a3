//! What a new exchange stands on.
ghost use Rattle.std.specs.Prelude.{◌≡◌, ◌≤◌, IfOk};
ghost use Rattle.hx_engine.specs.Opening.{IsNewLog};

use hx_blog::{Log, Reader, Writer};
use hx_engine::{Entry, Logs};
use hx_members::Setup;
use std::alloc::Global;
use std::sync::ledger::Blank;
use std::test::Fail;

/// The three logs of an exchange; the given one is the feed's.
pub fn logs_of(alloc: Global, log: Log<Entry>, writer: Writer<Entry>) -> Result<Logs, Fail>
    requires { IsNewLog log (log, writer) }
    ensures feed { IfOk result (λ l. (l.feed.0 ≡ log) × IsNewLog l.feed.0 l.feed) }
    ensures admitted { IfOk result (λ l. IsNewLog l.admitted.0 l.admitted) }
    ensures durable { IfOk result (λ l. IsNewLog l.durable.0 l.durable) }
{
    let (admitted, register, _) = Log::<Entry>::new(alloc, 1)?;
    let (durable, pen, _) = Log::<Entry>::new(alloc, 1)?;
    Ok(Logs {
        feed: (log, writer),
        admitted: (admitted, register),
        durable: (durable, pen),
    })
}

/// What an exchange stands on: its setup, its logs, its ledger, and a reader of the feed's log.
#[derive(Drop)]
pub struct Ground {
    pub setup: Setup,
    pub logs: Logs,
    pub blank: Blank,
    pub reader: Reader<Entry>,
}

/// New logs, the feed's with this number of slots, and a ledger with a part for each pass.
pub fn ground_of(alloc: Global, setup: Setup, capacity: u64, passes: u16) -> Result<Ground, Fail>
    requires capacity { (1 ≤ capacity) × (capacity ≤ 1000000) }
    ensures feed { IfOk result (λ g. IsNewLog g.logs.feed.0 g.logs.feed) }
    ensures admitted { IfOk result (λ g. IsNewLog g.logs.admitted.0 g.logs.admitted) }
    ensures durable { IfOk result (λ g. IsNewLog g.logs.durable.0 g.logs.durable) }
    ensures reader { IfOk result (λ g. g.reader.log ≡ g.logs.feed.0) }
    ensures parts { IfOk result (λ g. g.blank.parts ≡ passes) }
{
    let (log, writer, reader) = Log::<Entry>::new(alloc, capacity)?;
    let logs = logs_of(alloc, log, writer)?;
    Ok(Ground {
        setup,
        logs,
        blank: Blank::new(u64::from(passes)),
        reader,
    })
}
