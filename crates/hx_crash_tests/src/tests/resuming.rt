//! A small worked day, and an exchange that resumes from each beginning of it: the rest of the day gives the same
//! history, feed and replies as the day that was not interrupted.
ghost use Rattle.std.specs.Prelude.{◌≡◌, take, IfOk};
ghost use Rattle.hx_tape_lines.specs.Text.{record_of};
ghost use Rattle.hx_desk.specs.Entries.{restored};
ghost use Rattle.hx_engine.specs.Journals.{lines, record_texts};
ghost use Rattle.hx_engine.specs.Opening.{IsNewLog};

use super::{equal, holds};
use hx_blog::{Log, Reader};
use hx_engine::{Entry, Exchange, Logs, Pass, Recovered, Venue};
use hx_engine_testing::ground::logs_of;
use hx_engine_testing::memory::Memory;
use hx_market::Event;
use hx_members::{Seed, Setup};
use hx_tape_lines::write_record;
use hx_testing::sending::{BUY, Order, SELL, enter};
use hx_testing::shorthand::{Message, Reply, read_message, read_reply};
use hx_units::MemberNo;
use std::alloc::Global;
use std::marker::Brand;
use std::process::Abort;
use std::sync::Wait;
use std::sync::ledger::Blank;
use std::test::*;

// The number of events that the day has.
const DAY: u64 = 4;

// A displayed order of the first member, a hidden one of the second, a sale of the third to both, and a tick.
fn event_at<R: Abort>(rt: &R, alloc: Global, index: u64) -> Event {
    let hidden = Order {
        time: 1001,
        member: 2,
        token: *b"H1",
        display: b'N',
        ..BUY
    };
    let sale = Order {
        time: 1002,
        member: 3,
        token: *b"S1",
        shares: 200,
        ..SELL
    };
    let order = match index {
        0 => BUY,
        1 => hidden,
        2 => sale,
        _ => return Event::Tick { time: 1003 },
    };
    enter(alloc, &order).expect(rt, "an order")
}

// The first `count` events of the day.
fn beginning<R: Abort>(rt: &R, alloc: Global, count: u64) -> Vec<Event> {
    let mut events = Vec::new(alloc);
    for index in 0..count {
        let event = event_at(rt, alloc, index);
        events.push(event).expect(rt, "a place");
    }
    events
}

// A journal that holds the records of these events.
fn journal_of(alloc: Global, events: &[Event]) -> Result<Memory, Fail>
    ensures records { IfOk result (λ j.
        record_texts j.records.items ≡ lines record_of (restored events.now)) }
    ensures durable { IfOk result (λ j.
        take j.synced (record_texts j.records.items) ≡ record_texts j.records.items) }
{
    let mut records = Vec::new(alloc);
    for event in events {
        let mut record = Vec::new(alloc);
        write_record(alloc, &mut record, event)?;
        records.push(record)?;
    }
    let mut journal = Memory::new(alloc, 0);
    journal.records = records;
    journal.synced = journal.records.len();
    Ok(journal)
}

// The rest of the day is sent; then the history, the feed and the replies are those of the whole day.
fn go_on<V: Venue, R: Wait + Abort>(
    rt: &R,
    alloc: Global,
    setup: Setup,
    logs: Logs,
    recovered: Recovered<Memory>,
    blank: Blank,
    mut reader: Reader<Entry>,
)
    requires feed { IsNewLog V.log logs.feed }
    requires admitted { IsNewLog V.admitted logs.admitted }
    requires durable { IsNewLog V.durable logs.durable }
    requires of_setup { setup ≡ V.setup }
    requires before { recovered.events.items ≡ V.before }
    requires reader { reader.log ≡ V.log }
    requires blank { (blank.name ≡ V.name) × (blank.parts ≡ V.parts) × (V.parts ≡ 1) }
{
    let first = recovered.events.len() as u64;
    let Ok((exchange, mut passes)) = Exchange::<V, Memory>::resume(
        alloc,
        setup,
        logs,
        recovered,
        blank,
        1,
        Seed::Fixed,
    ) else {
        panic!(rt; "an exchange");
    };
    let mut pass = passes.pop().expect(rt, "a pass");
    equal(rt, pass.sent().len(), 0);
    for index in first..DAY {
        let event = event_at(rt, alloc, index);
        let done = exchange.submit(rt, &mut pass, &event).expect(rt, "a place");
        equal(rt, done.place, index + 1);
    }
    expect_replies(rt, &exchange, &mut reader);
    expect_feed(rt, &exchange, &mut reader);
    passes.push(pass).expect(rt, "a place");
    expect_end(rt, exchange, passes, first);
}

// The exchange ends with the history of the whole day, all of which the journal holds; `first` events were there
// before.
fn expect_end<V: Venue, R: Abort>(
    rt: &R,
    exchange: Exchange<V, Memory>,
    passes: Vec<Pass<V>>,
    first: u64,
) {
    let Ok(finished) = exchange.finish(passes) else {
        panic!(rt; "all passes are there");
    };
    equal(rt, finished.history.len() as u64, DAY);
    equal(rt, finished.feed, 3);
    for (index, entry) in finished.history.iter().enumerate() {
        equal(rt, u64::from(entry.pass), u64::from(index as u64 >= first));
        equal(rt, time_of(&entry.event), 1000 + index as u64);
    }
    let journal = finished.journal.expect(rt, "a journal");
    equal(rt, journal.synced as u64, DAY);
}

fn time_of(event: &Event) -> u64 {
    match event {
        Event::Message { time, .. } | Event::Tick { time } => *time,
        _ => 0,
    }
}

fn expect_replies<V: Venue, R: Wait + Abort>(
    rt: &R,
    exchange: &Exchange<V, Memory>,
    reader: &mut Reader<Entry>,
)
    requires { reader.old.log ≡ V.log }
    ensures { reader.new.log ≡ reader.old.log }
{
    let member = MemberNo::of(3).expect(rt, "a member");
    let seller = [
        Reply::Accepted(*b"S1", 200, 2),
        Reply::Executed(*b"S1", 100, 100_000, b'R', 1),
        Reply::Executed(*b"S1", 100, 100_000, b'R', 2),
    ];
    let replies = exchange
        .replies(rt, reader, member, 1)
        .expect(rt, "replies");
    equal(rt, replies.len(), seller.len());
    for (reply, want) in replies.iter().zip(&seller) {
        equal(rt, read_reply(reply.as_slice()), *want);
    }
}

// The displayed order is added and executed, and the hidden one traded.
fn expect_feed<V: Venue, R: Abort>(
    rt: &R,
    exchange: &Exchange<V, Memory>,
    reader: &mut Reader<Entry>,
)
    requires { reader.old.log ≡ V.log }
{
    let wanted = [
        Message::Added(1, b'B', 100, 100_000),
        Message::Executed(1, 100, 1),
        Message::Trade(100, 100_000, 2),
    ];
    for want in wanted {
        let message = reader.next(exchange.feed_log()).expect(rt, "a message");
        equal(rt, read_message(message.as_slice()), want);
    }
    holds(rt, reader.next(exchange.feed_log()).is_none());
}

// An exchange resumes from the first few events.
fn go_on_from<R: Wait + Abort>(rt: &R, alloc: Global, count: u64) -> Result<(), Fail> {
    let (log, writer, reader) = Log::<Entry>::new(alloc, 100).expect(rt, "a log");
    let logs = logs_of(alloc, log, writer)?;
    let events = beginning(rt, alloc, count);
    let journal = journal_of(alloc, &events)?;
    let recovered = Recovered { journal, events };
    let setup = Setup::standard(alloc).expect(rt, "a setup");
    go_on::<Brand, R>(rt, alloc, setup, logs, recovered, Blank::new(1), reader);
    Ok(())
}

#[test]
fn goes_on_from_each_beginning(rt: HostRuntime) -> Result<(), Fail> {
    for count in 0..=DAY {
        go_on_from(&rt, rt.alloc(), count)?;
    }
    Ok(())
}
