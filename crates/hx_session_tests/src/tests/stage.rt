//! An exchange for a test, and sessions at it.
ghost use Rattle.std.specs.Prelude.{◌≡◌, ◌≤◌, []};
ghost use Rattle.hx_engine.specs.Opening.{IsNewLog};

use super::client::{Client, Want};
use super::overlap::Meeting;
use super::packets::{Order, enter};
use super::{equal, holds};
use hx_blog::{Log, Reader};
use hx_engine::{Entry, Exchange, FinishError, Logs, Pass, Venue};
use hx_journal::NullJournal;
use hx_market::{Bytes, Event};
use hx_members::Setup;
use hx_sessions::{Clock, DropCopy, Logins, Part, serve_all};
use hx_testing::memory::{After, Input, Output, Rest};
use hx_wake::{Source, Waker};
use std::alloc::Global;
use std::io::{self, Read};
use std::marker::Brand;
use std::process::Abort;
use std::sync::Wait;
use std::sync::atomic::Ordering;
use std::sync::ledger::Blank;
use std::thread::Threads;
use std::time::{Clock as Timer, Duration};

// The time of day when sessions begin, in nanoseconds.
const START: u64 = 1000;

/// The time of day: always the same, plus what was slept.
#[derive(Drop)]
pub struct Still<'a> {
    rest: Option<&'a Rest>,
}

impl Still<'_> {
    /// No thread sleeps.
    pub fn new() -> Self {
        Still { rest: None }
    }
}

impl Clock for Still<'_> {
    fn now(&mut self) -> u64 {
        match self.rest {
            Some(rest) => rest.slept().saturating_add(START),
            None => START,
        }
    }
}

/// What happens at a new exchange.
#[derive(Drop)]
pub struct Day<'a> {
    /// The orders of the first member that are recorded before any client comes.
    pub before: Vec<Order>,
    /// The hours codes that come then.
    pub codes: &'static [u8],
    /// The clients that come at the same time.
    pub clients: Vec<Client<'a>>,
    /// Those that come after them.
    pub later: Vec<Client<'a>>,
    /// The drop copies among them.
    pub copies: Vec<DropCopy>,
    /// The gate that is called around each submit.
    pub gate: Meeting,
    /// The number of submits that the sessions make, if the test says so.
    pub submits: Option<u64>,
    /// The number of messages that the first submit has, if the test says so.
    pub at_once: Option<u64>,
    /// The turns that each session has.
    pub turns: u64,
    /// The numbers of events and of feed messages at the end, if the test says so.
    pub left: Option<(usize, u64)>,
}

impl<'a> Day<'a> {
    /// These clients come.
    pub fn of(alloc: Global, clients: Vec<Client<'a>>) -> Self {
        Day {
            before: Vec::new(alloc),
            codes: &[],
            clients,
            later: Vec::new(alloc),
            copies: Vec::new(alloc),
            gate: Meeting::of_nobody(),
            submits: None,
            at_once: None,
            turns: 1_000_000,
            left: None,
        }
    }

    /// This one client comes.
    pub fn of_one<R: Abort>(rt: &R, alloc: Global, client: Client<'a>) -> Self {
        Day::of(alloc, vec![in alloc; client].expect(rt, "a client"))
    }
}

// An input in memory, at which a session sleeps until its last bytes are released.
#[derive(Drop)]
struct Line<'a> {
    input: Input<'a>,
}

impl<'a> Read for Line<'a> {
    fn read(&mut self, buf: &mut [u8]) -> io::Result<usize> {
        self.input.read(buf)
    }
}

impl<'a> Source for Line<'a> {
    fn wait(&self, waker: &Waker, limit: Duration) -> bool {
        match self.input.after {
            After::Rests(rest) if self.input.bytes.is_empty() => rest.sleep(limit),
            After::Waits { count, wanted, .. } if self.input.bytes.is_empty() => {
                if count.load(Ordering::SeqCst) < wanted {
                    waker.sleep(Duration::from_millis(1));
                }
                count.load(Ordering::SeqCst) >= wanted
            }
            _ => true,
        }
    }
}

// What a client's session is made of.
type OwnPart<'a, V> = Part<V, Line<'a>, Output<'a>, Still<'a>>;

// An exchange with its setup, the passes that are left, and a reader of its log.
#[derive(Drop)]
struct Stage<V: Venue> {
    alloc: Global,
    setup: Setup,
    exchange: Exchange<V, NullJournal>,
    passes: Vec<Pass<V>>,
    reader: Reader<Entry>,
    ghost belongs: { reader.log ≡ V.log },
}

// The first member's message that enters an order.
fn message<R: Abort>(rt: &R, alloc: Global, order: &Order) -> Event {
    Event::Message {
        member: 1,
        time: 1000,
        bytes: Bytes::of(alloc, enter(order).as_slice()).expect(rt, "a message"),
    }
}

impl<V: Venue> Stage<V> {
    // Records an event by the first of the passes that are left: whether it was taken.
    fn record<R: Wait>(&mut self, rt: &R, event: &Event) -> bool {
        match self.passes.first_mut() {
            Some(pass) => self.exchange.submit(rt, pass, event).is_ok(),
            None => false,
        }
    }

    // Records orders of the first member, and then hours codes.
    fn open<R: Wait + Abort>(&mut self, rt: &R, orders: &[Order], codes: &[u8]) {
        for order in orders {
            let event = message(rt, self.alloc, order);
            holds(rt, self.record(rt, &event));
        }
        for code in codes {
            let event = Event::Hours {
                time: 1000,
                code: *code,
            };
            holds(rt, self.record(rt, &event));
        }
    }

    // A part for a client, with the last of the passes that are left.
    fn part<'a>(&mut self, input: Input<'a>, output: Output<'a>) -> Option<OwnPart<'a, V>> {
        let pass = self.passes.pop()?;
        let reader = self.reader.split(self.exchange.feed_log());
        let rest = match input.after {
            After::Rests(rest) => Some(rest),
            _ => None,
        };
        Some(Part {
            input: Line { input },
            output,
            inbound: Still { rest },
            outbound: Still { rest },
            pass,
            reader,
        })
    }

    // Ends the exchange, first without one of its passes: it is named, and all comes back.
    fn finish<R: Abort>(mut self, rt: &R, entries: usize, messages: u64) {
        let last = self.passes.pop().expect(rt, "a pass");
        let Err(
            FinishError::Missing {
                number,
                exchange,
                mut passes,
            },
        ) = self.exchange.finish(self.passes)
        else {
            panic!(rt; "a pass is missing");
        };
        equal(rt, number, last.number());
        passes.push(last).expect(rt, "a place");
        let Ok(finished) = exchange.finish(passes) else {
            panic!(rt; "all passes are there");
        };
        equal(rt, finished.history.len(), entries);
        equal(rt, finished.feed, messages);
    }
}

// The parts of these clients, and what must come of each.
fn parts_of<'a, V: Venue, R: Abort>(
    rt: &R,
    stage: &mut Stage<V>,
    clients: Vec<Client<'a>>,
) -> (Vec<OwnPart<'a, V>>, Vec<Want<'a>>) {
    let mut parts = Vec::new(stage.alloc);
    let mut wants = Vec::new(stage.alloc);
    for client in clients {
        let Client {
            input,
            output,
            want,
        } = client;
        let part = stage.part(input, output).expect(rt, "a pass");
        parts.push(part).expect(rt, "a part");
        wants.push(want).expect(rt, "a want");
    }
    (parts, wants)
}

// Serves these clients at once, and looks at what came of it. Their passes are there again then.
fn serve<V: Venue + Send + Sync, R: Threads + Wait + Timer + Abort + Sync>(
    rt: &R,
    stage: &mut Stage<V>,
    clients: Vec<Client>,
    copies: &[DropCopy],
    gate: &Meeting,
    turns: u64,
) {
    let (parts, wants) = parts_of(rt, stage, clients);
    let logins = Logins {
        setup: &stage.setup,
        copies,
    };
    let served = serve_all(
        rt,
        stage.alloc,
        &stage.exchange,
        &logins,
        parts,
        gate,
        turns,
    );
    let Ok(ended) = served else {
        panic!(rt; "memory");
    };
    equal(rt, ended.len(), wants.len());
    for ((part, outcome), want) in ended.into_iter().zip(&wants) {
        want.meet(rt, &part.output, part.pass.sent().len(), &outcome);
        stage.passes.push(part.pass).expect(rt, "a place");
    }
}

// The logs of a new exchange, with a reader of the feed's, and its ledger.
#[derive(Drop)]
struct Ends {
    logs: Logs,
    reader: Reader<Entry>,
    blank: Blank,
}

fn apply_at<V: Venue + Send + Sync, R: Threads + Wait + Timer + Abort + Sync>(
    rt: &R,
    alloc: Global,
    setup: Setup,
    ends: Ends,
    day: Day,
)
    requires feed { IsNewLog V.log ends.logs.feed }
    requires admitted { IsNewLog V.admitted ends.logs.admitted }
    requires durable { IsNewLog V.durable ends.logs.durable }
    requires of_setup { setup ≡ V.setup }
    requires before { V.before ≡ [] }
    requires reader { ends.reader.log ≡ V.log }
    requires blank { (ends.blank.name ≡ V.name) × (ends.blank.parts ≡ V.parts) × (V.parts ≡ 3) }
{
    let Ends {
        logs,
        reader,
        blank,
    } = ends;
    let Day {
        before,
        codes,
        clients,
        later,
        copies,
        gate,
        submits,
        at_once,
        turns,
        left,
    } = day;
    let own = setup.copy(alloc).expect(rt, "a setup");
    let journal = NullJournal::new();
    let (exchange, passes) = Exchange::<V, NullJournal>::new(
        alloc, setup, logs, journal, blank, 3,
    ).expect(rt, "an exchange");
    let mut stage = Stage {
        alloc,
        setup: own,
        exchange,
        passes,
        reader,
    };
    stage.open(rt, &before, codes);
    serve(rt, &mut stage, clients, &copies, &gate, turns);
    serve(rt, &mut stage, later, &copies, &gate, turns);
    expect_calls(rt, &gate, submits, at_once);
    if let Some((entries, messages)) = left {
        stage.finish(rt, entries, messages);
    }
}

// No thread waited in vain, and the gate was called around each submit: the number of submits, and of the messages in
// the first one, is as the test says, if it does.
fn expect_calls<R: Abort>(rt: &R, gate: &Meeting, submits: Option<u64>, at_once: Option<u64>) {
    holds(rt, gate.was_in_time());
    let made = gate.submits();
    holds(rt, made.is_some());
    holds(rt, submits.is_none() || submits == made);
    holds(rt, at_once.is_none() || at_once == Some(gate.at_once()));
}

/// Runs a day at a new exchange of this setup, with three passes.
pub fn apply_by<R: Threads + Wait + Timer + Abort + Sync>(
    rt: &R,
    alloc: Global,
    setup: Setup,
    day: Day,
) {
    let (log, writer, reader) = Log::<Entry>::new(alloc, 5000).expect(rt, "a log");
    let (admitted, register, _) = Log::<Entry>::new(alloc, 1).expect(rt, "a log");
    let (durable, durable_writer, _) = Log::<Entry>::new(alloc, 1).expect(rt, "a log");
    let ends = Ends {
        logs: Logs {
            feed: (log, writer),
            admitted: (admitted, register),
            durable: (durable, durable_writer),
        },
        reader,
        blank: Blank::new(3),
    };
    apply_at::<Brand, R>(rt, alloc, setup, ends, day);
}

/// Runs a day at a new exchange of the standard setup.
pub fn apply<R: Threads + Wait + Timer + Abort + Sync>(rt: &R, alloc: Global, day: Day) {
    let setup = Setup::standard(alloc).expect(rt, "a setup");
    apply_by(rt, alloc, setup, day);
}
