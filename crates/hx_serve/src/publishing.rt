//! The worker that publishes the feed and answers requests.
ghost use Rattle.std.specs.Prelude.{◌≡◌, false, true};
ghost use mathlib.Core.List.{IsPrefix};
ghost use Rattle.hx_serve.specs.Publishing.{KnowsNoMore};

use crate::feeds::Feeds;
use crate::sending::send;
use hx_blog::{Log, Reader, Receipt};
use hx_day_context::{Counters, DayClock, Hosting, Notice, NoticeSink};
use hx_engine::{Entry, Venue};
use hx_listener::{Datagrams, Rate, count};
use hx_retransmit::{LogMessages, Publisher, Server};
use hx_wake::Waker;
use std::io::ErrorKind;
use std::marker::PhantomData;
use std::net::SocketAddr;
use std::sync::atomic::{AtomicBool, Ordering};
use std::time::{Clock, Duration, Instant};

// How often an answer is tried if the socket's buffer is full.
const ANSWER_TRIES: u32 = 100;

// Once all writers have ended and everything is sent, at most this number of datagrams is still read.
const LAST_ANSWERS: u32 = 1_000;

// At most this number of packets goes out before the socket is checked for a request.
const BURST: u32 = 64;

// A heartbeat is due after this number of nanoseconds without a packet.
const SILENCE: u64 = 1_000_000_000;

// A request has 20 bytes; what is longer is none.
const REQUEST: usize = 64;

/// A publisher of the feed and a server of requests, each over a reader of its own of the log.
pub struct Publishing<'a, V: Venue> {
    publisher: Publisher<LogMessages<'a, Entry>>,
    server: Server<LogMessages<'a, Entry>>,
    // Where the feed goes.
    feeds: Feeds<'a>,
    // When the last packet went out, by the time of day in nanoseconds.
    last: u64,
    // How often requests are answered, and what is counted of that.
    rate: Rate,
    counters: &'a Counters,
    /// Whether a packet of the feed could not be sent, or a datagram not be received.
    pub failed: bool,
    of: PhantomData<V>,
    pub ghost belongs: { publisher.messages.log ≡ V.log },
}

// By hand, so that when a value is dropped its owner's proof sees one call.
impl<V: Venue> Drop for Publishing<'_, V> {
    fn drop(self) {
        let Publishing {
            publisher: _,
            server: _,
            feeds: _,
            last: _,
            rate: _,
            counters: _,
            failed: _,
            of: _,
        } = self;
    }
}

impl<'a, V: Venue> Publishing<'a, V> {
    /// A publisher of the messages that are still to come, and a server of all of them.
    pub fn new<G, B>(
        session: [u8; 10],
        hosting: &Hosting<'a, G, B>,
        log: &'a Log<Entry>,
        first: Reader<Entry>,
        second: Reader<Entry>,
        now: u64,
    ) -> Publishing<'a, V>
        requires log { log.now ≡ V.log }
        requires first { first.log ≡ V.log }
        requires second { second.log ≡ V.log }
        ensures { IsPrefix first.known result.publisher.messages.known }
    {
        Publishing {
            publisher: Publisher::going_on(session, LogMessages::new(log, first), now),
            server: Server::new(session, LogMessages::new(log, second)),
            feeds: Feeds::new(&hosting.addresses.feeds, hosting.open.is_some()),
            last: now,
            rate: Rate::of(hosting.args.answers),
            counters: hosting.counters,
            failed: false,
            of: PhantomData,
        }
    }

    // Sends a packet of the feed to each of its addresses.
    fn send_feed<T: Clock, D: Datagrams>(&mut self, rt: &T, socket: &D, packet: &[u8])
        ensures { self.new.publisher ≡ self.old.publisher }
    {
        if !self.feeds.send(rt, socket, packet) {
            self.failed = true;
        }
    }

    // Sends the next packet, if there is one. Returns whether there was: if not, all that the publisher knows of is
    // sent.
    fn publish<T: Clock, D: Datagrams>(&mut self, rt: &T, socket: &D, now: u64) -> bool
        ensures known { IsPrefix self.old.publisher.messages.known
            self.new.publisher.messages.known }
        ensures all { result ≡ false →
            KnowsNoMore self.new.publisher.messages self.new.publisher.sent }
    {
        let Some(packet) = self.publisher.turn(now) else {
            return false;
        };
        self.last = now;
        self.send_feed(rt, socket, packet.as_slice());
        true
    }

    // Sends packets while there are any, up to a limit. Returns whether there may be more.
    fn publish_some<T: Clock, D: Datagrams>(&mut self, rt: &T, socket: &D, now: u64) -> bool {
        for _ in 0..BURST {
            if !self.publish(rt, socket, now) {
                return false;
            }
        }
        true
    }

    // Posts a notice of each address that failed, once.
    fn tell_failures<B: NoticeSink>(&mut self, notice_sink: &B)
        ensures { self.new.publisher ≡ self.old.publisher }
    {
        self.feeds.tell(notice_sink);
    }

    // How long there is nothing to do, if nothing comes: until a heartbeat is due.
    fn patience(&self, now: u64) -> Duration {
        let silent = now.saturating_sub(self.last);
        Duration::from_nanos(SILENCE.saturating_sub(silent))
    }

    // Answers the next request, if there is one. Returns whether there was any datagram. An answer that cannot be sent
    // is the requester's trouble.
    fn answer<T: Clock, D: Datagrams, B: NoticeSink>(
        &mut self,
        rt: &T,
        socket: &D,
        notice_sink: &B,
        now: u64,
    ) -> bool
        ensures { self.new.publisher ≡ self.old.publisher }
    {
        let mut buffer = [0; REQUEST];
        match socket.receive(&mut buffer) {
            Ok((len, from)) => {
                if let Some(packet) = self.server.answer(&buffer[..len]) {
                    if !self.rate.allows(from, now) {
                        count(&self.counters.unanswered);
                        if self.rate.is_first_refused() {
                            notice_sink.post(Notice::Crowd);
                        }
                    } else if send(rt, socket, packet.as_slice(), from, ANSWER_TRIES) {
                        count(&self.counters.answered);
                    } else {
                        count(&self.counters.unanswered);
                        notice_sink.post(Notice::Unanswered { to: from });
                    }
                }
                true
            }
            Err(error) => match error.kind() {
                ErrorKind::WouldBlock | ErrorKind::TimedOut => false,
                ErrorKind::Interrupted | ErrorKind::ConnectionRefused => true,
                _ => {
                    self.failed = true;
                    false
                }
            },
        }
    }

    /// Publishes and answers by turns, until all writers have ended and a turn has found nothing, or `LAST_ANSWERS`
    /// datagrams have come after that. It arms the waker before it looks for messages. If there are none it sleeps
    /// until the waker wakes, a request comes, or a heartbeat is due. It takes neither a lock nor memory.
    pub fn work<T: Clock, D: Datagrams, B: NoticeSink>(
        self,
        rt: &T,
        socket: &D,
        notice_sink: &B,
        waker: &Waker,
        ended: &AtomicBool,
    ) -> Publishing<'a, V> {
        let mut publishing = self;
        let clock = DayClock::of_clock(rt);
        let mut late = 0;
        for _ in 0..u64::MAX {
            let last = ended.load(Ordering::SeqCst);
            waker.arm();
            let now = clock.time_of_day();
            let more = publishing.publish_some(rt, socket, now);
            publishing.tell_failures(notice_sink);
            let limit = if more || last {
                Duration::from_nanos(0)
            } else {
                publishing.patience(now)
            };
            let asked = socket.wait(waker, limit);
            if asked {
                publishing.answer(rt, socket, notice_sink, now);
            }
            if last && !more {
                if !asked || late >= LAST_ANSWERS {
                    break;
                }
                late += 1;
            }
        }
        publishing
    }

    /// Adds what a receipt knows: all its messages are sent before the end.
    pub fn learn(&mut self, receipt: Receipt<Entry>)
        requires { receipt.log ≡ V.log }
        ensures known { IsPrefix self.old.publisher.messages.known
            self.new.publisher.messages.known }
        ensures reported { IsPrefix receipt.known self.new.publisher.messages.known }
    {
        self.publisher.learn(receipt);
    }

    // Sends what is left. Returns whether all that the publisher knows of is sent.
    fn drain<T: Clock, D: Datagrams>(&mut self, rt: &T, socket: &D, now: u64) -> bool
        ensures known { IsPrefix self.old.publisher.messages.known
            self.new.publisher.messages.known }
        ensures all { result ≡ true →
            KnowsNoMore self.new.publisher.messages self.new.publisher.sent }
    {
        for _ in 0..u64::MAX {
            if !self.publish(rt, socket, now) {
                return true;
            }
        }
        false
    }

    /// Sends what is left, and the packet that ends the session. Returns whether no datagram failed: then all that the
    /// publisher knows of is sent.
    pub fn finish<T: Clock, D: Datagrams>(&mut self, rt: &T, socket: &D) -> bool
        ensures known { IsPrefix self.old.publisher.messages.known
            self.new.publisher.messages.known }
        ensures all { result ≡ true →
            KnowsNoMore self.new.publisher.messages self.new.publisher.sent }
    {
        let now = DayClock::of_clock(rt).time_of_day();
        if !self.drain(rt, socket, now) {
            return false;
        }
        let packet = self.publisher.end();
        self.send_feed(rt, socket, packet.as_slice());
        !self.failed
    }

    /// Repeats the packet that ends the session once a second, for `seconds` seconds, and answers requests meanwhile: a
    /// receiver that lost the last packets learns of them so, and gets them. To be called after `finish`.
    pub fn linger<T: Clock, D: Datagrams, B: NoticeSink>(
        &mut self,
        rt: &T,
        socket: &D,
        notice_sink: &B,
        waker: &Waker,
        seconds: u32,
    ) {
        let clock = DayClock::of_clock(rt);
        for _ in 0..seconds {
            let Ok(start) = Instant::now(rt) else {
                return;
            };
            for _ in 0..u64::MAX {
                let left = match start.elapsed(rt) {
                    Ok(time) if time.as_secs() == 0 => {
                        SILENCE.saturating_sub(u64::from(time.subsec_nanos()))
                    }
                    _ => 0,
                };
                if left == 0 {
                    break;
                }
                if socket.wait(waker, Duration::from_nanos(left)) {
                    self.answer(rt, socket, notice_sink, clock.time_of_day());
                }
            }
            let packet = self.publisher.end();
            self.send_feed(rt, socket, packet.as_slice());
            self.tell_failures(notice_sink);
        }
    }
}
