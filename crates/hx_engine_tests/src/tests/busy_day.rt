//! Ten thousand events by four threads, each with a reader that follows the feed meanwhile.
ghost use Rattle.std.specs.Prelude.{◌≡◌, []};
ghost use Rattle.hx_engine.specs.Opening.{IsNewLog};
ghost use Rattle.hx_rules.specs.declared.event.Event.{Event};

use super::exchanges::ends;
use super::{equal, holds};
use arrayvec::ArrayVec;
use hx_blog::{Log, Reader};
use hx_engine::{Entry, Exchange, Logs, Pass, Venue};
use hx_engine_testing::ground::logs_of;
use hx_engine_testing::memory::Memory;
use hx_members::Setup;
use hx_testing::sending::{BUY, Order, SELL, enter_as};
use hx_units::{NoMemory, Token};
use std::alloc::Global;
use std::marker::Brand;
use std::process::Abort;
use std::sync::Wait;
use std::sync::ledger::Blank;
use std::test::*;
use std::thread;
use std::thread::Threads;

const EACH: u32 = 2500;

const FOUR_MEMBERS: &[u8] = b"session HX00000004\n\
     start open\n\
     stock ABCD 5120000000644e435a20502020314e000000004e\n\
     member 1 FMA1 ALPHA PWALPHA 5000\n\
     member 2 FMB2 BRAVO PWBRAVO 5000\n\
     member 3 FMC3 CHARLI PWCHARLI 5000\n\
     member 4 FMD4 DELTA PWDELTA 5000\n";

// A member's thread: the pass through which it sends, the reader by which it reads, and what it has read.
#[derive(Drop)]
struct Worker<V: Venue> {
    pass: Pass<V>,
    reader: Reader<Entry>,
    member: u16,
    read: Vec<ArrayVec<u8, 44>>,
    sent: u32,
    ghost belongs: { reader.log ≡ V.log },
}

// The token of this number.
fn numbered(number: u32) -> Token {
    let mut token = [b' '; 14];
    let mut rest = number;
    for digit in &mut token[..5] {
        *digit = b'0' + (rest % 10) as u8;
        rest /= 10;
    }
    Token(token)
}

// Buys and sells in turn, a third of them hidden, at three prices.
fn nth_order(member: u16, number: u32) -> Order {
    let way = if number % 2 == 0 { BUY } else { SELL };
    Order {
        member,
        price: 100_000 + 100 * (number % 3),
        display: if number % 3 == 1 { b'N' } else { b'Y' },
        ..way
    }
}

// Reads on to the end of what the reader's count allows.
fn read_on(
    log: &Log<Entry>,
    reader: &mut Reader<Entry>,
    read: &mut Vec<ArrayVec<u8, 44>>,
) -> Result<(), NoMemory>
    requires { reader.old.log ≡ log.now }
    ensures { reader.new.log ≡ reader.old.log }
{
    let count = reader.look(log);
    for _index in reader.read_so_far()..count {
        let Some(message) = reader.next(log) else {
            return Ok(());
        };
        read.push(message)?;
    }
    Ok(())
}

impl<V: Venue> Worker<V> {
    // Sends one order, and looks at the feed after each hundredth.
    fn step<R: Wait>(
        &mut self,
        rt: &R,
        alloc: Global,
        exchange: &Exchange<V, Memory>,
        number: u32,
    ) -> Result<(), NoMemory> {
        let order = nth_order(self.member, number);
        let event = enter_as(alloc, &order, numbered(number))?;
        if exchange.submit(rt, &mut self.pass, &event).is_err() {
            return Err(NoMemory);
        }
        if number % 100 == 0 {
            read_on(exchange.feed_log(), &mut self.reader, &mut self.read)?;
        }
        Ok(())
    }

    // Sends all its orders, and counts them.
    fn work<R: Wait>(&mut self, rt: &R, alloc: Global, exchange: &Exchange<V, Memory>) {
        for number in 0..EACH {
            if self.step(rt, alloc, exchange, number).is_err() {
                return;
            }
            self.sent = number + 1;
        }
    }
}

// A worker for each pass, in the order of their numbers.
fn hire<V: Venue, R: Abort>(
    rt: &R,
    alloc: Global,
    log: &Log<Entry>,
    passes: Vec<Pass<V>>,
    reader: &mut Reader<Entry>,
) -> Vec<Worker<V>>
    requires reader { (log.now ≡ V.log) × (reader.old.log ≡ V.log) }
    ensures { reader.new.log ≡ V.log }
{
    let mut workers = Vec::new(alloc);
    for pass in passes {
        let worker = Worker {
            member: pass.number(),
            pass,
            reader: reader.split(log),
            read: Vec::new(alloc),
            sent: 0,
        };
        workers.push(worker).expect(rt, "a worker");
    }
    workers
}

// Each worker has sent all its orders, and read a beginning of the feed, of which this reader knows all.
fn expect_workers<V: Venue, R: Abort>(
    rt: &R,
    alloc: Global,
    log: &Log<Entry>,
    workers: &mut Vec<Worker<V>>,
    reader: &mut Reader<Entry>,
) -> u64
    requires { (log.now ≡ V.log) × (reader.old.log ≡ V.log) }
    ensures { reader.new.log ≡ V.log }
{
    for worker in workers.iter_mut() {
        reader.learn(log, worker.pass.receipt(log));
    }
    let mut feed = Vec::new(alloc);
    read_on(log, reader, &mut feed).expect(rt, "the feed");
    for worker in workers.iter() {
        equal(rt, worker.sent, EACH);
        holds(rt, feed.starts_with(&worker.read));
    }
    feed.len() as u64
}

// All work at once; then each has read a beginning of the feed, and the exchange ends with all events.
fn busy_day<V: Venue + Send + Sync, R: Threads + Wait + Abort + Sync>(
    rt: &R,
    alloc: Global,
    setup: Setup,
    logs: Logs,
    blank: Blank,
    mut reader: Reader<Entry>,
)
    requires feed { IsNewLog V.log logs.feed }
    requires admitted { IsNewLog V.admitted logs.admitted }
    requires durable { IsNewLog V.durable logs.durable }
    requires of_setup { setup ≡ V.setup }
    requires before { V.before ≡ [] }
    requires reader { reader.log ≡ V.log }
    requires blank { (blank.name ≡ V.name) × (blank.parts ≡ V.parts) × (V.parts ≡ 4) }
{
    let journal = Memory::new(alloc, 0);
    let (exchange, passes) = Exchange::<V, Memory>::new(
        alloc, setup, logs, journal, blank, 4,
    ).expect(rt, "an exchange");
    let mut workers = hire(rt, alloc, exchange.feed_log(), passes, &mut reader);
    let shared = &exchange;
    thread::for_each_mut(
        rt,
        &mut workers,
        4,
        &|_, worker| worker.work(rt, alloc, shared),
    );
    let log = exchange.feed_log();
    let messages = expect_workers(rt, alloc, log, &mut workers, &mut reader);
    let passes = passes_of(rt, alloc, workers);
    ends(rt, exchange, passes, 4 * EACH as usize, messages);
}

fn passes_of<V: Venue, R: Abort>(rt: &R, alloc: Global, workers: Vec<Worker<V>>) -> Vec<Pass<V>> {
    let mut passes = Vec::new(alloc);
    for worker in workers {
        passes.push(worker.pass).expect(rt, "a pass");
    }
    passes
}

#[test]
fn four_threads_send_ten_thousand_events(rt: HostRuntime) -> Result<(), Fail> {
    let alloc = rt.alloc();
    let setup = Setup::read(alloc, FOUR_MEMBERS).expect(&rt, "a setup");
    let (log, writer, reader) = Log::<Entry>::new(alloc, 50_000).expect(&rt, "a log");
    let logs = logs_of(alloc, log, writer)?;
    busy_day::<Brand, _>(&rt, alloc, setup, logs, Blank::new(4), reader);
    Ok(())
}
