//! The web page over sockets.

use crate::clients::Clients;
use hx_market_view::{MarketView, Post};
use std::alloc::Global;
use std::hash::RandomState;
use std::net::TcpListener;
use std::sync::Wait;
use std::time::{Clock, Duration, Instant};
use std::{io, thread};

// The time between two looks at the clients, in milliseconds.
const LOOK_AGAIN: u64 = 10;

// After the end clients get what is left to send for at most this time, in milliseconds.
const REST: u64 = 1000;

// One round: takes what is new, sends it, and answers requests.
fn look<T: Wait + Clock>(
    rt: &T,
    listener: &TcpListener,
    post: &Post,
    market_view: &mut MarketView,
    clients: &mut Clients,
) -> io::Result<Instant> {
    let now = Instant::now(rt)?;
    market_view.take(post.take(rt))?;
    clients.welcome(listener, now);
    clients.tell(market_view, now);
    clients.answer(rt, market_view, now);
    Ok(now)
}

// Sends all clients what is left for them, and takes no new one in.
fn rest<T: Clock>(
    rt: &T,
    market_view: &MarketView,
    clients: &mut Clients,
    since: Instant,
) -> io::Result<()> {
    clients.end(market_view);
    for _ in 0..u64::MAX {
        let now = Instant::now(rt)?;
        clients.tell(market_view, now);
        clients.answer(rt, market_view, now);
        let is_late = now.saturating_duration_since(since) >= Duration::from_millis(REST);
        if is_late || !clients.are_owed() {
            break;
        }
        thread::sleep(rt, Duration::from_millis(LOOK_AGAIN));
    }
    Ok(())
}

/// Serves the web page of the news that come by the post (HTTP/1.1, RFC 9112; WebSockets, RFC 6455), until nothing more
/// comes, in the thread that calls. A hundred times a second it takes what is new, sends it to the browsers, and
/// answers all that was asked; it waits for no client. At most 64 clients ask at a time, of which one more replaces the
/// oldest, and there are at most 128 browsers. A browser is sent changes at most 20 times a second, and only once it
/// has got all before.
///
/// Errors: those of the listener and of memory before anybody was answered, and those of the clock
/// and of memory for what is new. What is wrong with a connection ends that one alone.
pub fn serve_web<T: Wait + Clock>(
    rt: &T,
    alloc: Global,
    listener: TcpListener,
    post: &Post,
    keys: RandomState,
) -> io::Result<()> {
    listener.set_nonblocking(true)?;
    let mut clients = Clients::new(alloc, keys)?;
    let mut market_view = MarketView::new(alloc);
    for _ in 0..u64::MAX {
        let now = look(rt, &listener, post, &mut market_view, &mut clients)?;
        if market_view.is_over {
            return rest(rt, &market_view, &mut clients, now);
        }
        thread::sleep(rt, Duration::from_millis(LOOK_AGAIN));
    }
    Ok(())
}
