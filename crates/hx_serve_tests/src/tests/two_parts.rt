//! Two sessions at once over loopback, each with a pass and a reader of its own, and the readers after them.
ghost use Rattle.std.specs.Prelude.{◌≡◌, []};
ghost use Rattle.hx_engine.specs.Opening.{IsNewLog};

use super::client::{BOUGHT, BUY, HID, HIDDEN};
use super::days::{log_in_both, send_order, standard};
use super::vendor::ADDED;
use super::{equal, holds};
use hx_blog::{Log, Reader};
use hx_engine::{Entry, Exchange, Logs, Pass, Venue};
use hx_journal::NullJournal;
use hx_members::Setup;
use hx_serve::Silent;
use hx_sessions::{Clock as Day, Ended, Fault, Logins, Part, serve_all};
use std::alloc::Global;
use std::marker::Brand;
use std::net::{Ipv4Addr, Net, TcpListener, TcpStream};
use std::process::Abort;
use std::sync::Wait;
use std::sync::ledger::Blank;
use std::test::Fail;
use std::thread::{Threads, join};
use std::time::{Clock, Duration};

// A day on which it is always 1,000 nanoseconds past midnight.
#[derive(Clone, Copy, Drop)]
struct Standing;

impl Day for Standing {
    fn now(&mut self) -> u64 {
        1000
    }
}

// A part over a connection.
type OverTcp<V> = Part<V, TcpStream, TcpStream, Standing>;

// What an exchange with two passes is made of.
#[derive(Drop)]
struct ExchangeParts {
    own: Setup,
    logs: Logs,
    reader: Reader<Entry>,
    blank: Blank,
}

// A member's pass and reader, before the session and after it.
#[derive(Drop)]
struct SessionSlot<V: Venue> {
    pass: Pass<V>,
    reader: Reader<Entry>,
    ghost belongs: { reader.log ≡ V.log },
}

// A pass and a reader for each of two sessions: the reader splits in two.
fn session_slot_both<V: Venue, R: Abort>(
    rt: &R,
    exchange: &Exchange<V, NullJournal>,
    mut passes: Vec<Pass<V>>,
    mut reader: Reader<Entry>,
) -> (SessionSlot<V>, SessionSlot<V>)
    requires { reader.log ≡ V.log }
{
    let other = reader.split(exchange.feed_log());
    let second = SessionSlot {
        pass: passes.pop().expect(rt, "a second pass"),
        reader: other,
    };
    let first = SessionSlot {
        pass: passes.pop().expect(rt, "a first pass"),
        reader,
    };
    (first, second)
}

// The two ends of the next connection, for reading and for writing: it sends at once, and is waited
// for 20 milliseconds.
fn connected<R: Abort>(rt: &R, listener: &TcpListener) -> (TcpStream, TcpStream) {
    let (stream, _) = listener.accept().expect(rt, "a connection");
    stream.set_nodelay(true).expect(rt, "no delay");
    let limit = Some(Duration::from_millis(20));
    stream.set_read_timeout(limit).expect(rt, "a limit");
    let output = stream.try_clone().expect(rt, "its other end");
    (stream, output)
}

// The part of the next connection.
fn part_of<V: Venue, R: Abort>(
    rt: &R,
    listener: &TcpListener,
    session_slot: SessionSlot<V>,
) -> OverTcp<V> {
    let (input, output) = connected(rt, listener);
    let SessionSlot { pass, reader } = session_slot;
    Part {
        input,
        output,
        inbound: Standing,
        outbound: Standing,
        pass,
        reader,
    }
}

// The parts of the next two connections.
fn both_parts<V: Venue, R: Abort>(
    rt: &R,
    alloc: Global,
    listener: &TcpListener,
    session_slots: (SessionSlot<V>, SessionSlot<V>),
) -> Vec<OverTcp<V>> {
    let (first, second) = session_slots;
    let first = part_of(rt, listener, first);
    let second = part_of(rt, listener, second);
    vec![in alloc; first, second].expect(rt, "memory")
}

// The pass and the reader of the last of these, whose member has logged out.
fn last_session_slot<V: Venue, R: Abort>(
    rt: &R,
    served: &mut Vec<(OverTcp<V>, Result<Ended, Fault>)>,
) -> SessionSlot<V> {
    let (part, how) = served.pop().expect(rt, "a part");
    holds(rt, matches!(how, Ok(Ended::Logout)));
    SessionSlot {
        pass: part.pass,
        reader: part.reader,
    }
}

// Serves two connections at once, and gives their passes and readers back.
fn serve_two<V: Venue + Send + Sync, R: Threads + Wait + Clock + Abort + Sync>(
    rt: &R,
    alloc: Global,
    exchange: &Exchange<V, NullJournal>,
    listener: &TcpListener,
    session_slots: (SessionSlot<V>, SessionSlot<V>),
) -> (SessionSlot<V>, SessionSlot<V>) {
    let setup = standard(rt, alloc);
    let parts = both_parts(rt, alloc, listener, session_slots);
    let logins = Logins {
        setup: &setup,
        copies: &[],
    };
    let Ok(mut served) = serve_all(rt, alloc, exchange, &logins, parts, &Silent, 1_000_000) else {
        panic!(rt; "not served");
    };
    let second = last_session_slot(rt, &mut served);
    let first = last_session_slot(rt, &mut served);
    (first, second)
}

// Both members log in, each enters an order, gets the one reply, and logs out.
fn trade_two<R: Net<Listener = TcpListener, Stream = TcpStream> + Clock + Abort>(
    rt: &R,
    alloc: Global,
    port: u16,
) {
    let (mut first, mut second) = log_in_both(rt, alloc, port);
    send_order(rt, alloc, &mut second, HIDDEN, HID);
    send_order(rt, alloc, &mut first, BUY, BOUGHT);
    first.send(rt, b'O', b"");
    second.send(rt, b'O', b"");
    first.expect_no_reply(rt, alloc);
    second.expect_no_reply(rt, alloc);
}

// Both sides at once.
fn apply_two<
    V: Venue + Send + Sync,
    R: Net<Listener = TcpListener, Stream = TcpStream> + Threads + Wait + Clock + Abort + Sync,
>(
    rt: &R,
    alloc: Global,
    exchange: &Exchange<V, NullJournal>,
    session_slots: (SessionSlot<V>, SessionSlot<V>),
) -> (SessionSlot<V>, SessionSlot<V>) {
    let any = (Ipv4Addr::new(127, 0, 0, 1), 0);
    let listener = TcpListener::bind(rt, any).expect(rt, "a listener");
    let port = listener.local_addr().expect(rt, "an address").port();
    let acceptor = &listener;
    let (served, _) = join(
        rt,
        move || serve_two(rt, alloc, exchange, acceptor, session_slots),
        move || trade_two(rt, alloc, port),
    );
    served
}

// Whether this is the displayed order, entered at 1,000.
fn is_added(message: &[u8]) -> bool {
    message.len() == 36
        && message[..11] == b"A\0\x01\0\0\0\0\0\0\x03\xe8"[..]
        && message[11..] == ADDED[..]
}

// The next message of the feed, if there is one, is the displayed order, entered at 1,000.
fn reads_added<R: Abort>(rt: &R, log: &Log<Entry>, reader: &mut Reader<Entry>) -> bool
    requires { reader.old.log ≡ log.now }
    ensures { reader.new.log ≡ reader.old.log }
{
    let Some(message) = reader.next(log) else {
        return false;
    };
    holds(rt, is_added(message.as_slice()));
    true
}

impl<V: Venue> SessionSlot<V> {
    // Audited, the reader has a beginning of the feed; with both receipts it has the one message, and no more.
    fn reads_all<R: Wait + Abort>(
        &mut self,
        rt: &R,
        exchange: &Exchange<V, NullJournal>,
        other: &mut Pass<V>,
    ) {
        let log = exchange.feed_log();
        let audit = exchange
            .audit(rt, &mut self.reader, &mut self.pass)
            .expect(rt, "memory");
        equal(rt, audit.history.len(), 2);
        let early = reads_added(rt, log, &mut self.reader);
        self.reader.learn(log, self.pass.receipt(log));
        self.reader.learn(log, other.receipt(log));
        let late = reads_added(rt, log, &mut self.reader);
        holds(rt, early != late);
        holds(rt, !reads_added(rt, log, &mut self.reader));
    }
}

// The day of these two at an exchange of its own.
fn apply_day<
    V: Venue + Send + Sync,
    R: Net<Listener = TcpListener, Stream = TcpStream> + Threads + Wait + Clock + Abort + Sync,
>(rt: &R, alloc: Global, exchange_parts: ExchangeParts)
    requires feed { IsNewLog V.log exchange_parts.logs.feed }
    requires admitted { IsNewLog V.admitted exchange_parts.logs.admitted }
    requires durable { IsNewLog V.durable exchange_parts.logs.durable }
    requires of_setup { exchange_parts.own ≡ V.setup }
    requires before { V.before ≡ [] }
    requires reader { exchange_parts.reader.log ≡ V.log }
    requires blank { (exchange_parts.blank.name ≡ V.name)
        × (exchange_parts.blank.parts ≡ V.parts)
        × (V.parts ≡ 2) }
{
    let ExchangeParts {
        own,
        logs,
        reader,
        blank,
    } = exchange_parts;
    let journal = NullJournal::new();
    let opened = Exchange::<V, NullJournal>::new(alloc, own, logs, journal, blank, 2);
    let (exchange, passes) = opened.expect(rt, "an exchange");
    let session_slots = session_slot_both(rt, &exchange, passes, reader);
    let (mut first, mut second) = apply_two(rt, alloc, &exchange, session_slots);
    first.reads_all(rt, &exchange, &mut second.pass);
    second.reads_all(rt, &exchange, &mut first.pass);
    let passes = vec![in alloc; first.pass, second.pass].expect(rt, "memory");
    let Ok(finished) = exchange.finish(passes) else {
        panic!(rt; "a pass is missing");
    };
    equal(rt, (finished.history.len(), finished.feed), (2, 1));
}

#[test]
fn two_parts_at_once(rt: HostRuntime) -> Result<(), Fail> {
    let alloc = rt.alloc();
    let (log, pen, reader) = Log::<Entry>::new(alloc, 100)?;
    let (admitted, register, _) = Log::<Entry>::new(alloc, 1)?;
    let (durable, durable_writer, _) = Log::<Entry>::new(alloc, 1)?;
    let exchange_parts = ExchangeParts {
        own: Setup::standard(alloc)?,
        logs: Logs {
            feed: (log, pen),
            admitted: (admitted, register),
            durable: (durable, durable_writer),
        },
        reader,
        blank: Blank::new(2),
    };
    apply_day::<Brand, HostRuntime>(&rt, alloc, exchange_parts);
    Ok(())
}
