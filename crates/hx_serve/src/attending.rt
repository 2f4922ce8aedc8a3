//! The workers of a day, and how it is concluded.
ghost use Rattle.std.specs.Prelude.{◌≡◌, length, None, IfOk};
ghost use mathlib.Core.List.{IsPrefix};
ghost use Rattle.std.specs.Io.KnownBytes.{Appends};
ghost use Rattle.hx_desk.specs.Entries.{restored};
ghost use Rattle.hx_serve.specs.Days.{IsServed};
ghost use Rattle.hx_serve.specs.LastLine.{last_line};

use crate::beginning::Day;
use crate::day_services::DayServices;
use crate::ending::{fault_of_day, write_last_line};
use crate::fault::ServeError;
use crate::open_day::{Closed, Desk, Page, Staff, work_open};
use crate::parts::{dismiss, hire};
use crate::publishing::Publishing;
use crate::slot_workers::{SlotContext, make_slot_workers};
use crate::watching::Viewer;
use crate::workers::{Writers, work};
use hx_blog::{Log, Reader};
use hx_day_context::{
    DayClock, DayContext, Hosting, NoticeSink, OpenArgs, SessionSlots, TradingStatus,
};
use hx_engine::{Entry, Exchange, FinishError, Finished, Journal, Pass, Venue};
use hx_listener::{Acceptors, Datagrams, PendingLogins, take};
use hx_operator::OperatorSocket;
use hx_sessions::Gate;
use log::Log as Logger;
use std::alloc::Global;
use std::io::{Read, Write};
use std::net::TcpListener;
use std::sync::Wait;
use std::thread::Threads;
use std::time::Clock;

// An open day reserves half of its log for the codes of the hours, plus two slots for each stock, plus this number of
// slots.
const DURABLE: u64 = 8;

/// What is left when all workers have ended.
pub struct Outcome<V: Venue> {
    passes: Vec<Pass<V>>,
    network: bool,
    memory: bool,
    operated: Option<ServeError>,
    socket: Option<OperatorSocket>,
}

// By hand, so that when a value is dropped its owner's proof sees one call.
impl<V: Venue> Drop for Outcome<V> {
    fn drop(self) {
        let Outcome {
            passes: _,
            network: _,
            memory: _,
            operated: _,
            socket: _,
        } = self;
    }
}

/// The passes and readers of a day's workers: the sessions and the operator submit, the publisher and the sessions
/// read.
pub struct Crew<V: Venue> {
    /// The operator's pass.
    pub own: Pass<V>,
    /// The passes of the sessions, and one more: in an open day that of the operator's socket and of the clock.
    pub passes: Vec<Pass<V>>,
    /// A reader of the feed.
    pub reader: Reader<Entry>,
    /// What an open day has besides its acceptors.
    pub day_services: DayServices,
    /// The trading status so far.
    pub trading_status: TradingStatus,
    pub ghost belongs: { reader.log ≡ V.log },
}

// By hand, so that when a value is dropped its owner's proof sees one call.
impl<V: Venue> Drop for Crew<V> {
    fn drop(self) {
        let Crew {
            own: _,
            passes: _,
            reader: _,
            day_services: _,
            trading_status: _,
        } = self;
    }
}

// The publisher learns what every pass knows.
fn learn_all<'a, V: Venue>(
    publishing: &mut Publishing<'a, V>,
    log: &Log<Entry>,
    passes: &mut Vec<Pass<V>>,
)
    requires { log.now ≡ V.log }
{
    for pass in passes.iter_mut() {
        publishing.learn(pass.receipt(log));
    }
}

impl<V: Venue + Send + Sync> Crew<V> {
    // A day with a fixed number of connections, from the first one to the packet that ends the feed.
    fn attend<
        J: Journal + Drop + Send,
        G: Gate + Sync,
        B: NoticeSink + Sync,
        D: Datagrams + Sync + Drop,
        T: Threads + Wait + Clock + Logger + Sync,
        R: Read + Drop,
    >(
        self,
        rt: &T,
        alloc: Global,
        exchange: &Exchange<V, J>,
        hosting: &Hosting<'_, G, B>,
        acceptors: Acceptors<D>,
        input: R,
    ) -> Result<Outcome<V>, ServeError> {
        let Acceptors { listener, socket } = acceptors;
        let log = exchange.feed_log();
        let connections = take(alloc, &listener, hosting.args.sessions)?;
        drop(listener);
        let Crew {
            own: pass,
            mut passes,
            mut reader,
            day_services: _,
            trading_status: _,
        } = self;
        let parts = hire(
            rt,
            alloc,
            hosting.times,
            log,
            connections,
            &mut passes,
            &mut reader,
        )?;
        let now = DayClock::of_clock(rt).time_of_day();
        let other = reader.split(log);
        let session = *hosting.setup.session();
        let publishing = Publishing::new(session, hosting, log, reader, other, now);
        let writers = Writers { parts, pass, input };
        let (mut publishing, ((own, operated), served)) = work(
            rt, alloc, exchange, hosting, &socket, publishing, writers,
        );
        let begun = dismiss(rt, hosting.setup, served, &mut passes);
        let _ = passes.push(own);
        learn_all(&mut publishing, log, &mut passes);
        let sent = exchange.failure(rt).is_some() || publishing.finish(rt, &socket);
        Ok(Outcome {
            passes,
            network: !sent,
            memory: !begun,
            operated,
            socket: None,
        })
    }
}

// The workers of an open day, and the readers by which its feed is published.
#[derive(Drop)]
struct Opening<V: Venue, R> {
    staff: Staff<V, R>,
    session_slots: SessionSlots,
    // The trading status so far.
    trading_status: TradingStatus,
    first: Reader<Entry>,
    second: Reader<Entry>,
    ghost belong: { (first.log ≡ V.log) × (second.log ≡ V.log) },
}

impl<V: Venue> Crew<V> {
    // The session slots, the operator's desk and the page of an open day, made from its crew.
    fn open_up<R: Drop>(
        self,
        alloc: Global,
        log: &Log<Entry>,
        listener: TcpListener,
        input: R,
        open: OpenArgs,
    ) -> Result<Opening<V, R>, ServeError>
        requires { log.now ≡ V.log }
    {
        let Crew {
            own: pass,
            mut passes,
            mut reader,
            day_services,
            trading_status,
        } = self;
        let (duties, metrics) = day_services.into_both();
        let Some(other) = passes.pop() else {
            return Err(ServeError::NoMemory);
        };
        let session_slots = SessionSlots::new(alloc, passes.len())?;
        let slot_workers = make_slot_workers(alloc, log, passes, &mut reader)?;
        let second = reader.split(log);
        let viewer = Viewer::new(reader.split(log));
        let desk = Desk {
            pass,
            input,
            other,
            duties,
        };
        Ok(Opening {
            staff: Staff {
                slot_workers,
                listener,
                desk,
                page: Page { metrics, viewer },
                open,
            },
            session_slots,
            trading_status,
            first: reader,
            second,
        })
    }
}

// The outcome of an open day, once the end of its feed is published.
fn settle<'a, V: Venue, J: Journal + Drop, B: NoticeSink, D: Datagrams, T: Wait + Clock>(
    rt: &T,
    exchange: &Exchange<V, J>,
    notice_sink: &B,
    datagrams: &D,
    publishing: &mut Publishing<'a, V>,
    closed: Closed<V>,
    end: u32,
) -> Outcome<V> {
    let (mut passes, ((other, socket), (own, operated))) = closed;
    let _ = passes.push(own);
    let _ = passes.push(other);
    learn_all(publishing, exchange.feed_log(), &mut passes);
    let stopped = exchange.failure(rt).is_some();
    let sent = stopped || publishing.finish(rt, datagrams);
    if !stopped {
        publishing.linger(rt, datagrams, notice_sink, exchange.feed_waker(), end);
    }
    Outcome {
        passes,
        network: !sent,
        memory: false,
        operated,
        socket,
    }
}

// Reserves half of the log and some slots for the codes of the hours and for ticks.
fn keep_room<V: Venue, J: Journal + Drop, G, B, T: Wait>(
    rt: &T,
    exchange: &Exchange<V, J>,
    hosting: &Hosting<'_, G, B>,
) {
    let stocks = hosting.setup.stocks().len() as u64;
    exchange.keep(
        rt,
        (hosting.args.capacity / 2)
            .saturating_add(DURABLE)
            .saturating_add(stocks),
    );
}

/// Serves an open day, up to the last packet, which publishes the end of the feed. Half of the log and some slots are
/// reserved for the codes of the hours and for ticks: their output is the codes themselves, the stocks, and the end of
/// the orders that were added, with one message each. A day that is not open has one connection for each of its
/// sessions.
pub fn attend_open<
    V: Venue + Send + Sync,
    J: Journal + Drop + Send,
    G: Gate + Sync,
    B: NoticeSink + Sync,
    D: Datagrams + Sync + Drop,
    T: Threads + Wait + Clock + Logger + Sync,
    R: Read + Send + Drop,
>(
    rt: &T,
    alloc: Global,
    exchange: &Exchange<V, J>,
    hosting: &Hosting<'_, G, B>,
    acceptors: Acceptors<D>,
    crew: Crew<V>,
    input: R,
) -> Result<Outcome<V>, ServeError> {
    let Some(open) = hosting.open else {
        return crew.attend(rt, alloc, exchange, hosting, acceptors, input);
    };
    let Acceptors { listener, socket } = acceptors;
    keep_room(rt, exchange, hosting);
    let log = exchange.feed_log();
    let Opening {
        staff,
        session_slots,
        trading_status,
        first,
        second,
    } = crew.open_up(alloc, log, listener, input, open)?;
    let (session, now) = (
        *hosting.setup.session(),
        DayClock::of_clock(rt).time_of_day(),
    );
    let publishing = Publishing::new(session, hosting, log, first, second, now);
    let duties = &staff.desk.duties;
    let day_context = DayContext {
        setup: hosting.setup,
        session_slots: &session_slots,
        trading_status: &trading_status,
        counters: hosting.counters,
        notice_sink: hosting.notice_sink,
        capacity: hosting.args.capacity,
        turns: hosting.args.turns,
        stays_open: duties.socket.is_some() || duties.schedule.is_some(),
    };
    let slot_context = SlotContext {
        hosting,
        day_context: &day_context,
        pending_logins: &PendingLogins::new(alloc),
    };
    let (mut publishing, closed) = work_open(
        rt,
        alloc,
        exchange,
        &slot_context,
        &socket,
        publishing,
        staff,
    );
    Ok(settle(
        rt,
        exchange,
        hosting.notice_sink,
        &socket,
        &mut publishing,
        closed,
        open.end,
    ))
}

// Ends the exchange: its history, and how many messages its feed has.
fn end<V: Venue, J: Journal + Drop>(
    exchange: Exchange<V, J>,
    passes: Vec<Pass<V>>,
) -> Result<(Vec<Entry>, u64), ServeError>
    ensures served { IfOk result (λ end. IsServed V.setup end.0.items end.1) }
    ensures begins { IfOk result (λ end. IsPrefix (restored V.before) end.0.items) }
{
    match exchange.finish(passes) {
        Ok(Finished { history, feed, .. }) => Ok((history, feed)),
        Err(FinishError::Stopped { .. }) => Err(ServeError::Journal),
        Err(FinishError::Missing { .. }) => Err(ServeError::NoMemory),
    }
}

impl<V: Venue> Outcome<V> {
    /// Ends the exchange, and writes the last line.
    pub fn conclude<J: Journal + Drop, W: Write>(
        self,
        alloc: Global,
        exchange: Exchange<V, J>,
        output: &mut W,
    ) -> Result<Day, ServeError>
        ensures served { IfOk result (λ day. IsServed V.setup day.history.items day.feed) }
        ensures begins { IfOk result (λ day. IsPrefix (restored V.before) day.history.items) }
        ensures reported { IfOk result (λ day. day.fault ≡ None
            → Appends (W.contents output.old) (W.contents output.new)
            (last_line (length day.history.items) day.feed)) }
    {
        let Outcome {
            passes,
            network,
            memory,
            operated,
            socket,
        } = self;
        let (history, feed) = end(exchange, passes)?;
        let written = write_last_line(alloc, output, history.len() as u64, feed).err();
        Ok(Day {
            history,
            feed,
            fault: fault_of_day(network, memory, operated, written),
            socket,
        })
    }
}
