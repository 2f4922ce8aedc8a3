//! The workers of a day, all at once: the publisher, the operator, and one for each session.
use crate::fault::ServeError;
use crate::operator::operate;
use crate::parts::{Member, Served};
use crate::publishing::Publishing;
use hx_day_context::{Hosting, NoticeSink};
use hx_engine::{Exchange, Journal, Pass, Venue};
use hx_listener::Datagrams;
use hx_sessions::{Clock, Gate, Logins, serve_all};
use std::alloc::Global;
use std::io::Read;
use std::sync::Wait;
use std::sync::atomic::{AtomicBool, Ordering};
use std::thread::{Threads, join};
use std::time::Clock as Timer;

/// The writers of a day: the sessions' parts, and the operator by a pass and an input.
#[derive(Drop)]
pub struct Writers<V: Venue, C, R> {
    /// The parts of the sessions.
    pub parts: Vec<Member<V, C>>,
    /// The operator's pass.
    pub pass: Pass<V>,
    /// The operator's input.
    pub input: R,
}

/// What is left when the operator and all sessions have ended.
pub type Traded<V, C> = ((Pass<V>, Option<ServeError>), Served<V, C>);

// The operator, in this thread, and all sessions. If no thread can be made, the sessions come after the operator.
fn trade<
    V: Venue + Send + Sync,
    J: Journal + Drop + Send,
    C: Clock + Send + Drop,
    G: Gate + Sync,
    B: Sync,
    R: Read + Drop,
    T: Threads + Wait + Timer + Sync,
>(
    rt: &T,
    alloc: Global,
    exchange: &Exchange<V, J>,
    hosting: &Hosting<'_, G, B>,
    writers: Writers<V, C, R>,
) -> Traded<V, C> {
    let Writers { parts, pass, input } = writers;
    let (gate, turns) = (hosting.gate, hosting.args.turns);
    let logins = Logins {
        setup: hosting.setup,
        copies: hosting.copies,
    };
    let (served, operated) = join(
        rt,
        move || serve_all(rt, alloc, exchange, &logins, parts, gate, turns),
        move || {
            let mut input = input;
            operate(rt, alloc, exchange, pass, &mut input, turns)
        },
    );
    (operated, served)
}

/// Publishes while the operator and the sessions last, and until all that they sent is published.
pub fn work<
    'a,
    V: Venue + Send + Sync,
    J: Journal + Drop + Send,
    C: Clock + Send + Drop,
    G: Gate + Sync,
    B: NoticeSink + Sync,
    D: Datagrams + Sync,
    R: Read + Drop,
    T: Threads + Wait + Timer + Sync,
>(
    rt: &T,
    alloc: Global,
    exchange: &Exchange<V, J>,
    hosting: &Hosting<'_, G, B>,
    socket: &D,
    publishing: Publishing<'a, V>,
    writers: Writers<V, C, R>,
) -> (Publishing<'a, V>, Traded<V, C>) {
    let ended = AtomicBool::new(false);
    let (flag, notice_sink) = (&ended, hosting.notice_sink);
    join(
        rt,
        move || publishing.work(rt, socket, notice_sink, exchange.feed_waker(), flag),
        move || {
            let traded = trade(rt, alloc, exchange, hosting, writers);
            flag.store(true, Ordering::SeqCst);
            exchange.feed_waker().wake();
            traded
        },
    )
}
