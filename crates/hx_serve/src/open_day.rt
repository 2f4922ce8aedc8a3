//! The workers of an open day, all at once: the publisher, the acceptor, the session slots, and the operator.
ghost use Rattle.std.specs.Prelude.{◌≡◌};

use crate::day_services::Metrics;
use crate::director::{Director, Duties};
use crate::fault::ServeError;
use crate::operating::conduct;
use crate::publishing::Publishing;
use crate::slot_workers::{SlotContext, SlotWorkers, serve_slot_workers};
use crate::watching::{Viewer, Watch};
use hx_day_context::{AcceptorNotices, DayClock, DayContext, NoticeSink, OpenArgs, Times};
use hx_engine::{Exchange, Journal, Pass, Venue};
use hx_listener::{AcceptorRules, Datagrams, DayEnd, keep_acceptor};
use hx_metrics::{Watched, serve_metrics};
use hx_operator::OperatorSocket;
use hx_sessions::Gate;
use std::alloc::Global;
use std::io::Read;
use std::net::TcpListener;
use std::sync::atomic::{AtomicBool, Ordering};
use std::sync::{Mutex, Wait};
use std::thread::{Threads, join};
use std::time::Clock;

/// The metrics of an open day, and the reader that counts replies for them.
#[derive(Drop)]
pub struct Page<V: Venue> {
    /// The socket of the metrics, if they are shown.
    pub metrics: Option<Metrics>,
    /// The reader.
    pub viewer: Viewer<V>,
}

/// The direction of an open day: by standard input, and by the operator's socket and the clock.
#[derive(Drop)]
pub struct Desk<V: Venue, R> {
    /// The pass of what comes from standard input.
    pub pass: Pass<V>,
    /// Standard input.
    pub input: R,
    /// The pass of what comes from the socket and the clock.
    pub other: Pass<V>,
    /// What the clock asks for, and the socket.
    pub duties: Duties,
}

/// The writers of an open day: the session slots with the listener that members connect to, and the operator.
#[derive(Drop)]
pub struct Staff<V: Venue, R> {
    /// The session slots.
    pub slot_workers: SlotWorkers<V>,
    /// The socket that members connect to.
    pub listener: TcpListener,
    /// The operator's desk.
    pub desk: Desk<V, R>,
    /// The metrics page.
    pub page: Page<V>,
    /// The arguments of the open day.
    pub open: OpenArgs,
}

/// What the operator leaves: the pass and the socket of what came by the socket and the clock, and the pass and the
/// fault of standard input.
pub type Steered<V> = (
    (Pass<V>, Option<OperatorSocket>),
    (Pass<V>, Option<ServeError>),
);

/// What is left when the operator and all sessions have ended: the passes of the session slots, and what the operator
/// leaves.
pub type Closed<V> = (Vec<Pass<V>>, Steered<V>);

// The end of an exchange's day.
#[derive(Clone, Copy)]
struct Closing<'a, V: Venue, J: Journal> {
    exchange: &'a Exchange<V, J>,
}

impl<'a, V: Venue, J: Journal + Drop> DayEnd for Closing<'a, V, J> {
    fn is_over<T: Wait>(&self, rt: &T) -> bool {
        self.exchange.is_closed(rt)
    }
}

// The operator by the socket and the clock, in this thread, and by standard input.
fn steer<
    'x,
    V: Venue + Send + Sync,
    J: Journal + Drop + Send,
    B: NoticeSink + Sync,
    R: Read + Send + Drop,
    T: Threads + Wait + Clock + Sync,
>(
    rt: &'x T,
    alloc: Global,
    exchange: &'x Exchange<V, J>,
    day_context: &'x DayContext<'x, B>,
    times: Times<'x>,
    desk: Desk<V, R>,
    gone: &'x AtomicBool,
) -> Steered<V> {
    let Desk {
        pass,
        input,
        other,
        duties,
    } = desk;
    let director = Director {
        rt,
        alloc,
        exchange,
        day_context,
        clock: DayClock::of(rt, times),
        pass: other,
    };
    join(
        rt,
        move || director.direct(duties, gone),
        move || {
            let mut input = input;
            conduct(rt, alloc, exchange, day_context, times, pass, &mut input)
        },
    )
}

// The session slots, in this thread, and the operator.
fn attend<
    'x,
    V: Venue + Send + Sync,
    J: Journal + Drop + Send,
    G: Gate + Sync,
    B: NoticeSink + Sync,
    R: Read + Send + Drop,
    T: Threads + Wait + Clock + Sync,
>(
    rt: &'x T,
    alloc: Global,
    exchange: &'x Exchange<V, J>,
    slot_context: &'x SlotContext<'x, G, B>,
    slot_workers: SlotWorkers<V>,
    desk: Desk<V, R>,
) -> Closed<V> {
    let gone = AtomicBool::new(false);
    let (flag, day_context, times) = (&gone, slot_context.day_context, slot_context.hosting.times);
    join(
        rt,
        move || {
            let passes = serve_slot_workers(rt, alloc, exchange, slot_context, slot_workers);
            flag.store(true, Ordering::SeqCst);
            passes
        },
        move || steer(rt, alloc, exchange, day_context, times, desk, flag),
    )
}

// The acceptor, in this thread, and the writers.
fn trade<
    'x,
    V: Venue + Send + Sync,
    J: Journal + Drop + Send,
    G: Gate + Sync,
    B: NoticeSink + Sync,
    R: Read + Send + Drop,
    T: Threads + Wait + Clock + Sync,
>(
    rt: &'x T,
    alloc: Global,
    exchange: &'x Exchange<V, J>,
    slot_context: &'x SlotContext<'x, G, B>,
    open: OpenArgs,
    writers: (TcpListener, SlotWorkers<V>, Desk<V, R>),
) -> Closed<V> {
    let (listener, slot_workers, desk) = writers;
    let (hosting, pending_logins) = (slot_context.hosting, slot_context.pending_logins);
    let rules = AcceptorRules {
        setup: hosting.setup,
        login_limit: open.login_limit,
        each: open.connections_per_address,
        tally: hosting.tally,
    };
    let notice_sink = AcceptorNotices {
        notice_sink: hosting.notice_sink,
    };
    let end = Closing { exchange };
    let ((), closed) = join(
        rt,
        move || keep_acceptor(
            rt,
            alloc,
            &end,
            listener,
            pending_logins,
            rules,
            &notice_sink,
        ),
        move || attend(rt, alloc, exchange, slot_context, slot_workers, desk),
    );
    closed
}

// The metrics page: its address, what it shows, and whether the writers have ended.
struct Shown<'a, W> {
    metrics: Metrics,
    watch: &'a W,
    over: &'a AtomicBool,
}

// The metrics page, and the acceptor with the writers.
fn trade_shown<
    'x,
    V: Venue + Send + Sync,
    J: Journal + Drop + Send,
    G: Gate + Sync,
    B: NoticeSink + Sync,
    R: Read + Send + Drop,
    T: Threads + Wait + Clock + Sync,
    W: Watched + Sync,
>(
    rt: &'x T,
    alloc: Global,
    exchange: &'x Exchange<V, J>,
    slot_context: &'x SlotContext<'x, G, B>,
    open: OpenArgs,
    writers: (TcpListener, SlotWorkers<V>, Desk<V, R>),
    shown: Shown<'_, W>,
) -> Closed<V> {
    let Shown {
        metrics,
        watch,
        over,
    } = shown;
    let Metrics { listener, keys } = metrics;
    let (_, closed) = join(
        rt,
        move || serve_metrics(rt, alloc, listener, watch, keys),
        move || {
            let closed = trade(rt, alloc, exchange, slot_context, open, writers);
            over.store(true, Ordering::SeqCst);
            closed
        },
    );
    closed
}

// The metrics page, if there is one, and the acceptor with the writers.
fn trade_watched<
    'x,
    V: Venue + Send + Sync,
    J: Journal + Drop + Send,
    G: Gate + Sync,
    B: NoticeSink + Sync,
    R: Read + Send + Drop,
    T: Threads + Wait + Clock + Sync,
>(
    rt: &'x T,
    alloc: Global,
    exchange: &'x Exchange<V, J>,
    slot_context: &'x SlotContext<'x, G, B>,
    staff: Staff<V, R>,
) -> Closed<V> {
    let Staff {
        slot_workers,
        listener,
        desk,
        page,
        open,
    } = staff;
    let writers = (listener, slot_workers, desk);
    let Page { metrics, viewer } = page;
    let Some(metrics) = metrics else {
        return trade(rt, alloc, exchange, slot_context, open, writers);
    };
    let over = AtomicBool::new(false);
    let watch = Watch {
        rt,
        exchange,
        day_context: slot_context.day_context,
        tally: slot_context.hosting.tally,
        viewer: Mutex::new(viewer),
        over: &over,
    };
    let shown = Shown {
        metrics,
        watch: &watch,
        over: &over,
    };
    trade_shown(rt, alloc, exchange, slot_context, open, writers, shown)
}

/// Publishes while the operator and the sessions last, and until all that they sent is published.
pub fn work_open<
    'a,
    'x,
    V: Venue + Send + Sync,
    J: Journal + Drop + Send,
    G: Gate + Sync,
    B: NoticeSink + Sync,
    D: Datagrams + Sync,
    R: Read + Send + Drop,
    T: Threads + Wait + Clock + Sync,
>(
    rt: &'x T,
    alloc: Global,
    exchange: &'x Exchange<V, J>,
    slot_context: &'x SlotContext<'x, G, B>,
    socket: &D,
    publishing: Publishing<'a, V>,
    staff: Staff<V, R>,
) -> (Publishing<'a, V>, Closed<V>) {
    let ended = AtomicBool::new(false);
    let (flag, notice_sink) = (&ended, slot_context.hosting.notice_sink);
    join(
        rt,
        move || publishing.work(rt, socket, notice_sink, exchange.feed_waker(), flag),
        move || {
            let closed = trade_watched(rt, alloc, exchange, slot_context, staff);
            flag.store(true, Ordering::SeqCst);
            exchange.feed_waker().wake();
            closed
        },
    )
}
