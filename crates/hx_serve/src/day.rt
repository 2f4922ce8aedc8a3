//! A day, from its first connection to its last line.
ghost use Rattle.std.specs.Prelude.{◌≡◌, ◌+◌, length, None, IfOk};
ghost use mathlib.Core.List.{IsPrefix};
ghost use Rattle.std.specs.Io.KnownBytes.{Appends};
ghost use Rattle.hx_desk.specs.Entries.{restored};
ghost use Rattle.hx_engine.specs.Opening.{IsNewLog};
ghost use Rattle.hx_serve.specs.Days.{IsServed};
ghost use Rattle.hx_serve.specs.LastLine.{last_line};

use crate::attending::{Crew, attend_open};
use crate::beginning::{AppliedBeginning, Beginning, Day};
use crate::fault::ServeError;
use hx_blog::{Log, Writer};
use hx_day_context::{Counters, Hosting, Notice, NoticeSink, Notices, ServeArgs, Times};
use hx_engine::{Applies, Entry, Exchange, Journal, Venue};
use hx_listener::{Acceptors, Datagrams, Tally};
use hx_members::{Seed, Setup};
use hx_sessions::Gate;
use log::Log as Logger;
use std::alloc::Global;
use std::io::{Read, Write};
use std::marker::Brand;
use std::net::{Net, TcpListener, TcpStream};
use std::sync::Wait;
use std::sync::ledger::Blank;
use std::thread::Threads;
use std::time::Clock;

// The parts of an exchange: its logs of admitted and of durable events, its ledger, and what it goes on from.
struct ExchangeParts<'a, J: Journal> {
    admitted: (Log<Entry>, Writer<Entry>),
    durable: (Log<Entry>, Writer<Entry>),
    blank: Blank,
    beginning: AppliedBeginning<'a, J>,
}

// By hand, so that when a value is dropped its owner's proof sees one call.
impl<J: Journal + Drop> Drop for ExchangeParts<'_, J> {
    fn drop(self) {
        let ExchangeParts {
            admitted: _,
            durable: _,
            blank: _,
            beginning: _,
        } = self;
    }
}

// A new exchange's logs of admitted and of durable events, and its ledger.
type Ends = (
    (Log<Entry>, Writer<Entry>),
    (Log<Entry>, Writer<Entry>),
    Blank,
);

// The logs and the ledger of a new exchange for this number of sessions.
fn new_ends(alloc: Global, sessions: u16) -> Result<Ends, ServeError>
    ensures admitted { IfOk result (λ ends. IsNewLog ends.0.0 ends.0) }
    ensures durable { IfOk result (λ ends. IsNewLog ends.1.0 ends.1) }
    ensures parts { IfOk result (λ ends. sessions + 2 ≡ ends.2.parts) }
{
    let (admitted, register, _) = Log::<Entry>::new(alloc, 1)?;
    let (durable, durable_writer, _) = Log::<Entry>::new(alloc, 1)?;
    let blank = Blank::new(u64::from(sessions) + 2);
    Ok(((admitted, register), (durable, durable_writer), blank))
}

impl<J: Journal + Drop> ExchangeParts<'_, J> {
    // Opens the exchange, and makes the crew that submits to it and reads it. If the day goes on, a notice says so.
    fn open<V: Venue, G: Gate, B: NoticeSink>(
        self,
        alloc: Global,
        hosting: &Hosting<'_, G, B>,
    ) -> Result<(Exchange<V, J>, Crew<V>), ServeError>
        requires feed { self.beginning.day.log ≡ V.log }
        requires admitted { IsNewLog V.admitted self.admitted }
        requires durable { IsNewLog V.durable self.durable }
        requires of_setup { self.beginning.day.setup ≡ V.setup }
        requires before { self.beginning.day.events ≡ V.before }
        requires blank { (self.blank.name ≡ V.name) × (self.blank.parts ≡ V.parts) }
        requires passes { hosting.now.args.now.sessions + 2 ≡ V.parts }
    {
        let ExchangeParts {
            admitted,
            durable,
            blank,
            beginning,
        } = self;
        let (day, journal, ahead, day_services) = beginning.into_parts();
        let events = day.count();
        let (applied, mut reader, trading_status) = day.into_parts();
        let count = hosting.args.sessions + 2;
        let (exchange, mut passes) = Exchange::<V, J>::open(
            alloc, applied, admitted, durable, journal, blank, count,
        )?;
        let exchange = exchange
            .at_most_ahead(ahead)
            .with_share(u64::from(hosting.args.share));
        let Some(own) = passes.pop() else {
            return Err(ServeError::NoMemory);
        };
        let feed = reader.look(exchange.feed_log());
        if events != 0 {
            hosting.notice_sink.post(Notice::Resumed { events, feed });
        }
        let crew = Crew {
            own,
            passes,
            reader,
            day_services,
            trading_status,
        };
        Ok((exchange, crew))
    }
}

// A day over an exchange of its own.
fn run<
    V: Venue + Send + Sync,
    J: Journal + Drop + Send,
    G: Gate + Sync,
    B: NoticeSink + Sync,
    D: Datagrams + Sync + Drop,
    T: Threads + Wait + Clock + Logger + Sync,
    R: Read + Send + Drop,
    W: Write,
>(
    rt: &T,
    alloc: Global,
    hosting: &Hosting<'_, G, B>,
    acceptors: Acceptors<D>,
    exchange_parts: ExchangeParts<'_, J>,
    input: R,
    output: &mut W,
) -> Result<Day, ServeError>
    requires feed { exchange_parts.beginning.day.log ≡ V.log }
    requires admitted { IsNewLog V.admitted exchange_parts.admitted }
    requires durable { IsNewLog V.durable exchange_parts.durable }
    requires of_setup { exchange_parts.beginning.day.setup ≡ V.setup }
    requires before { exchange_parts.beginning.day.events ≡ V.before }
    requires blank { (exchange_parts.blank.name ≡ V.name) × (exchange_parts.blank.parts ≡ V.parts) }
    requires passes { hosting.now.args.now.sessions + 2 ≡ V.parts }
    ensures served { IfOk result (λ day. IsServed V.setup day.history.items day.feed) }
    ensures begins { IfOk result (λ day. IsPrefix (restored V.before) day.history.items) }
    ensures reported { IfOk result (λ day. day.fault ≡ None
        → Appends (W.contents output.old) (W.contents output.new)
        (last_line (length day.history.items) day.feed)) }
{
    let (exchange, crew) = exchange_parts.open::<V, G, B>(alloc, hosting)?;
    let outcome = attend_open(rt, alloc, &exchange, hosting, acceptors, crew, input)?;
    outcome.conclude(alloc, exchange, output)
}

/// Serves a day through these acceptors, on from its applied events, without applying one of them again, and returns
/// what the day leaves; or why its sessions never began. The gate is called before and after each submit and at each
/// login. The last line goes to the output: if the day had no fault, it is the one of its history and feed. The history
/// begins with the applied events.
pub fn serve_applied_from<
    J: Journal + Drop + Send,
    G: Gate + Sync,
    B: NoticeSink + Sync,
    D: Datagrams + Sync + Drop,
    T: Threads + Wait + Clock + Logger + Sync,
    R: Read + Send + Drop,
    W: Write,
>(
    rt: &T,
    alloc: Global,
    hosting: &Hosting<'_, G, B>,
    acceptors: Acceptors<D>,
    beginning: AppliedBeginning<'_, J>,
    input: R,
    output: &mut W,
) -> Result<Day, ServeError>
    requires of_setup { beginning.day.setup ≡ hosting.now.setup.now }
    ensures served { IfOk result
        (λ day. IsServed hosting.now.setup.now day.history.items day.feed) }
    ensures begins { IfOk result (λ day.
        IsPrefix (restored beginning.entry.day.events) day.history.items) }
    ensures reported { IfOk result (λ day. day.fault ≡ None
        → Appends (W.contents output.old) (W.contents output.new)
        (last_line (length day.history.items) day.feed)) }
{
    let (admitted, durable, blank) = new_ends(alloc, hosting.args.sessions)?;
    let exchange_parts = ExchangeParts {
        admitted,
        durable,
        blank,
        beginning,
    };
    run::<Brand, J, G, B, D, T, R, W>(rt, alloc, hosting, acceptors, exchange_parts, input, output)
}

/// Serves a day through these acceptors, on from the events in its journal, and returns what the day leaves; or why its
/// sessions never began. The gate is called before and after each submit and at each login. The last line goes to the
/// output: if the day had no fault, it is the one of its history and feed. The history begins with the events of the
/// journal.
pub fn serve_from<
    J: Journal + Drop + Send,
    G: Gate + Sync,
    B: NoticeSink + Sync,
    D: Datagrams + Sync + Drop,
    T: Threads + Wait + Clock + Logger + Sync,
    R: Read + Send + Drop,
    W: Write,
>(
    rt: &T,
    alloc: Global,
    hosting: &Hosting<'_, G, B>,
    acceptors: Acceptors<D>,
    beginning: Beginning<J>,
    input: R,
    output: &mut W,
) -> Result<Day, ServeError>
    ensures served { IfOk result
        (λ day. IsServed hosting.now.setup.now day.history.items day.feed) }
    ensures begins { IfOk result (λ day.
        IsPrefix (restored beginning.recovered.events.items) day.history.items) }
    ensures reported { IfOk result (λ day. day.fault ≡ None
        → Appends (W.contents output.old) (W.contents output.new)
        (last_line (length day.history.items) day.feed)) }
{
    let beginning = beginning.apply(alloc, hosting.setup, hosting.args)?;
    serve_applied_from(rt, alloc, hosting, acceptors, beginning, input, output)
}

/// The same, of a day without a journal.
pub fn serve_day<
    G: Gate + Sync,
    B: NoticeSink + Sync,
    D: Datagrams + Sync + Drop,
    T: Threads + Wait + Clock + Logger + Sync,
    R: Read + Send + Drop,
    W: Write,
>(
    rt: &T,
    alloc: Global,
    hosting: &Hosting<'_, G, B>,
    acceptors: Acceptors<D>,
    seed: Seed,
    input: R,
    output: &mut W,
) -> Result<Day, ServeError>
    ensures served { IfOk result
        (λ day. IsServed hosting.now.setup.now day.history.items day.feed) }
    ensures reported { IfOk result (λ day. day.fault ≡ None
        → Appends (W.contents output.old) (W.contents output.new)
        (last_line (length day.history.items) day.feed)) }
{
    let beginning = Beginning::without_journal(alloc, seed);
    serve_from(rt, alloc, hosting, acceptors, beginning, input, output)
}

/// Serves a day over sockets at 127.0.0.1: `args.sessions` sessions of members by TCP, the packets of the feed and the
/// answers to requests by UDP, and the operator's lines from the input. Its table of tokens has this seed. When all
/// have ended, it writes the last line to the output.
pub fn serve<
    T: Net<Listener = TcpListener, Stream = TcpStream> + Threads + Wait + Clock + Logger + Sync,
    R: Read + Send + Drop,
    W: Write,
>(
    rt: &T,
    alloc: Global,
    setup: &Setup,
    args: &ServeArgs,
    seed: Seed,
    input: R,
    output: &mut W,
) -> Result<(), ServeError> {
    let notices = Notices { rt };
    let addresses = args.addresses(alloc)?;
    let hosting = Hosting {
        setup,
        is_standard: false,
        args,
        addresses: &addresses,
        gate: &notices,
        notice_sink: &notices,
        open: None,
        times: Times::of_machine(),
        tally: &Tally::new(),
        counters: &Counters::new(),
        copies: &[],
    };
    let acceptors = Acceptors::open(rt, &addresses)?;
    match serve_day(rt, alloc, &hosting, acceptors, seed, input, output)?.fault {
        None => Ok(()),
        Some(fault) => Err(fault),
    }
}
