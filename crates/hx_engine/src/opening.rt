//! How an exchange is opened.
ghost use Rattle.std.specs.Prelude.{◌≡◌, ◌≤◌, [], true, IfOk};
ghost use Rattle.hx_tape_lines.specs.Text.{record_of};
ghost use Rattle.hx_desk.specs.Entries.{restored};
ghost use Rattle.hx_engine.specs.Journals.{lines};
ghost use Rattle.hx_engine.specs.Opening.{IsNewLog, most_passes};
ghost use Rattle.hx_engine.specs.Passes.{new_passes};

use crate::applied::Applied;
use crate::exchange::Exchange;
use crate::journal_writer::{JournalWriter, write_before};
use crate::locked::Held;
use crate::pass::{Pass, make_passes};
use crate::pass_count::PassCount;
use crate::venue::Venue;
use hx_blog::{Log, Writer};
use hx_desk::{DeskError, Entry};
use hx_journal::Journal;
use hx_market::Event;
use hx_members::{Seed, Setup};
use hx_units::NoMemory;
use hx_wake::{Waker, Wakers};
use std::alloc::Global;
use std::marker::Brand;
use std::sync::atomic::{AtomicBool, AtomicU64};
use std::sync::ledger::Blank;
use std::sync::{Condvar, Mutex};

/// The logs of an exchange, each with its writer, which has written nothing.
#[derive(Drop)]
pub struct Logs {
    /// The log of the feed, with a slot for each message of the day.
    pub feed: (Log<Entry>, Writer<Entry>),
    /// The log of the events that are admitted. It has no messages: one slot is enough.
    pub admitted: (Log<Entry>, Writer<Entry>),
    /// The log of the events that are durable. It has no messages: one slot is enough.
    pub durable: (Log<Entry>, Writer<Entry>),
}

/// What an exchange resumes from.
#[derive(Drop)]
pub struct Recovered<J: Journal> {
    /// The journal, which holds the records of these events and no others.
    pub journal: J,
    /// The events, in their order.
    pub events: Vec<Event>,
    pub ghost appended: { J.appended journal ≡ lines record_of (restored events.items) },
    pub ghost durable: { J.durable journal ≡ J.appended journal },
    pub ghost opened: { J.is_open journal ≡ true },
}

impl<V: Venue, J: Journal + Drop> Exchange<V, J> {
    /// An exchange over new logs and an empty journal, with n passes, 1 to 1,024, and the fixed seed. Its arguments are
    /// dropped on `NoMemory`.
    pub fn new(
        alloc: Global,
        setup: Setup,
        logs: Logs,
        journal: J,
        blank: Blank,
        passes: u16,
    ) -> Result<(Exchange<V, J>, Vec<Pass<V>>), NoMemory>
        requires feed { IsNewLog V.log logs.feed }
        requires admitted { IsNewLog V.admitted logs.admitted }
        requires durable { IsNewLog V.durable logs.durable }
        requires of_setup { setup ≡ V.setup }
        requires before { V.before ≡ [] }
        requires journal { J.appended journal ≡ [] }
        requires safe { (J.durable journal ≡ J.appended journal) × (J.is_open journal ≡ true) }
        requires blank { (blank.name ≡ V.name) × (blank.parts ≡ V.parts) }
        requires passes { (1 ≤ passes) × (passes ≤ most_passes) × (passes ≡ V.parts) }
        ensures { IfOk result (λ made. made.1.items ≡ new_passes passes) }
    {
        Exchange::seeded(alloc, setup, logs, journal, blank, passes, Seed::Fixed)
    }

    /// An exchange over new logs and an empty journal, with n passes, 1 to 1,024. Its table of tokens has this seed:
    /// members choose their tokens, so if strangers trade, draw the seed at random. Its arguments are dropped on
    /// `NoMemory`.
    pub fn seeded(
        alloc: Global,
        setup: Setup,
        logs: Logs,
        journal: J,
        blank: Blank,
        passes: u16,
        seed: Seed,
    ) -> Result<(Exchange<V, J>, Vec<Pass<V>>), NoMemory>
        requires feed { IsNewLog V.log logs.feed }
        requires admitted { IsNewLog V.admitted logs.admitted }
        requires durable { IsNewLog V.durable logs.durable }
        requires of_setup { setup ≡ V.setup }
        requires before { V.before ≡ [] }
        requires journal { J.appended journal ≡ [] }
        requires safe { (J.durable journal ≡ J.appended journal) × (J.is_open journal ≡ true) }
        requires blank { (blank.name ≡ V.name) × (blank.parts ≡ V.parts) }
        requires passes { (1 ≤ passes) × (passes ≤ most_passes) × (passes ≡ V.parts) }
        ensures { IfOk result (λ made. made.1.items ≡ new_passes passes) }
    {
        let recovered = Recovered {
            journal,
            events: Vec::new(alloc),
        };
        match Exchange::resume(alloc, setup, logs, recovered, blank, passes, seed) {
            Ok(made) => Ok(made),
            Err(_) => Err(NoMemory),
        }
    }

    /// An exchange that resumes from the events that its journal holds. They are published again, over new logs, and
    /// its passes, 1 to 1,024, sent none of them. Its table of tokens has this seed. An error says why an event is not
    /// recorded again: the log of the feed has no room for it, or there is no memory, or it is of another setup. The
    /// arguments are dropped then.
    pub fn resume(
        alloc: Global,
        setup: Setup,
        logs: Logs,
        recovered: Recovered<J>,
        blank: Blank,
        passes: u16,
        seed: Seed,
    ) -> Result<(Exchange<V, J>, Vec<Pass<V>>), DeskError>
        requires feed { IsNewLog V.log logs.feed }
        requires admitted { IsNewLog V.admitted logs.admitted }
        requires durable { IsNewLog V.durable logs.durable }
        requires of_setup { setup ≡ V.setup }
        requires before { recovered.events.items ≡ V.before }
        requires blank { (blank.name ≡ V.name) × (blank.parts ≡ V.parts) }
        requires passes { (1 ≤ passes) × (passes ≤ most_passes) × (passes ≡ V.parts) }
        ensures { IfOk result (λ made. made.1.items ≡ new_passes passes) }
    {
        let Logs {
            feed,
            admitted,
            durable,
        } = logs;
        let Recovered { journal, events } = recovered;
        let applied = Applied::resume(alloc, setup, feed, seed, &events)?;
        let made = Exchange::open(alloc, applied, admitted, durable, journal, blank, passes)?;
        Ok(made)
    }

    /// An exchange that resumes from events that are applied and that its journal holds, over new logs of the admitted
    /// and of the durable entries. It applies none of them again, and its passes, 1 to 1,024, sent none of them. Its
    /// arguments are dropped on `NoMemory`.
    pub fn open(
        alloc: Global,
        applied: Applied,
        admitted: (Log<Entry>, Writer<Entry>),
        durable: (Log<Entry>, Writer<Entry>),
        journal: J,
        blank: Blank,
        passes: u16,
    ) -> Result<(Exchange<V, J>, Vec<Pass<V>>), NoMemory>
        requires feed { applied.log ≡ V.log }
        requires admitted { IsNewLog V.admitted admitted }
        requires durable { IsNewLog V.durable durable }
        requires of_setup { applied.setup ≡ V.setup }
        requires before { applied.events ≡ V.before }
        requires journal { J.appended journal ≡ lines record_of (restored V.before) }
        requires safe { (J.durable journal ≡ J.appended journal) × (J.is_open journal ≡ true) }
        requires blank { (blank.name ≡ V.name) × (blank.parts ≡ V.parts) }
        requires passes { (1 ≤ passes) × (passes ≤ most_passes) × (passes ≡ V.parts) }
        ensures { IfOk result (λ made. made.1.items ≡ new_passes passes) }
    {
        let Applied {
            log,
            desk,
            mut knows,
        } = applied;
        let (admitted, mut register) = admitted;
        let (durable, pen) = durable;
        let (book, mut spare) = blank.open::<V>();
        let made = make_passes(
            alloc,
            &log,
            &admitted,
            &mut knows,
            &mut register,
            &mut spare,
            passes,
        )?;
        let wakers = Wakers::new(alloc, passes).map_err(|_| NoMemory)?;
        write_before::<Brand>(&mut register, &admitted, &desk);
        let mut journal_writer = JournalWriter::open(&durable, pen, journal, &desk);
        let receipt = journal_writer.receipt(&durable);
        let exchange = Exchange {
            log,
            admitted,
            durable,
            desk: Mutex::new(Held::open(
                alloc,
                desk,
                book,
                spare,
                register,
                receipt,
                journal_writer,
            )),
            recorded: Condvar::new(),
            wakers,
            feed_waker: Waker::new(),
            is_feed_due: AtomicBool::new(false),
            entering: AtomicU64::new(0),
            passes: PassCount::of(passes),
            ahead: u64::MAX,
            rest: 0,
            alloc,
        };
        Ok((exchange, made))
    }

    /// The same, with a limit: while this number of events, at least one, is admitted and not yet published, the next
    /// calls of `submit` wait before they admit theirs. A new exchange has no limit.
    pub fn at_most_ahead(self, events: u64) -> Self {
        let mut exchange = self;
        exchange.ahead = events.max(1);
        exchange
    }
}
