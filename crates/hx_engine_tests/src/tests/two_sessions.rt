//! Two members at one exchange at once, and one that waits for what the other's order brings it.
ghost use Rattle.std.specs.Prelude.{◌≡◌, []};
ghost use Rattle.hx_engine.specs.Opening.{IsNewLog};
ghost use Rattle.hx_rules.specs.declared.event.Event.{Event};

use super::exchanges::ends;
use super::{entered, equal, holds, member_of};
use hx_blog::{Log, Reader};
use hx_engine::{Entry, Exchange, Logs, News, Pass, Venue};
use hx_engine_testing::ground::logs_of;
use hx_engine_testing::memory::Memory;
use hx_market::Event;
use hx_members::Setup;
use hx_testing::sending::{BUY, Order, SELL};
use hx_testing::shorthand::{Message, Reply, private, read_message, read_reply};
use hx_units::MemberNo;
use std::alloc::Global;
use std::marker::Brand;
use std::process::Abort;
use std::sync::Wait;
use std::sync::ledger::Blank;
use std::test::*;
use std::thread;
use std::thread::Threads;
use std::time::{Clock, Duration};

// The one displayed order.
const ADDED: Message = Message::Added(1, b'B', 100, 100_000);

// A member with its pass and its reader.
#[derive(Drop)]
struct Client<V: Venue> {
    pass: Pass<V>,
    reader: Reader<Entry>,
    ghost belongs: { reader.log ≡ V.log },
}

// What a session came to know.
#[derive(Drop)]
struct Outcome {
    // The member's one reply.
    reply: Reply,
    // The number of messages that the member's reader read before it learnt anything, if each is the one message of the
    // feed.
    early: Option<u64>,
}

impl<V: Venue> Client<V> {
    // Enters an order, asks for the member's one reply, audits, and reads as far as it can.
    fn session<R: Wait + Abort>(
        &mut self,
        rt: &R,
        alloc: Global,
        exchange: &Exchange<V, Memory>,
        order: &Order,
    ) -> Outcome {
        let event = entered(rt, alloc, order);
        let done = exchange
            .submit(rt, &mut self.pass, &event)
            .expect(rt, "a place");
        let reply = self.only_reply(rt, exchange, member_of(rt, order.member));
        let audit = exchange
            .audit(rt, &mut self.reader, &mut self.pass)
            .expect(rt, "an audit");
        holds(rt, audit.history.len() as u64 >= done.place);
        Outcome {
            reply,
            early: read_all(exchange.feed_log(), &mut self.reader),
        }
    }

    // The one reply that a member has.
    fn only_reply<R: Wait + Abort>(
        &mut self,
        rt: &R,
        exchange: &Exchange<V, Memory>,
        member: MemberNo,
    ) -> Reply {
        let replies = exchange
            .replies(rt, &mut self.reader, member, 1)
            .expect(rt, "replies");
        equal(rt, replies.len(), 1);
        read_reply(replies.first().expect(rt, "a reply").as_slice())
    }

    // Waits for more than one reply.
    fn wait<R: Wait + Clock>(
        &mut self,
        rt: &R,
        exchange: &Exchange<V, Memory>,
        member: MemberNo,
        limit: Duration,
    ) -> News {
        exchange.listen(rt, &self.pass, member);
        let news = self.listen_for(rt, exchange, member, limit);
        exchange.leave(rt, &self.pass, member);
        news
    }

    // Sleeps at the waker until there is more than one reply, or until a wake is too late.
    fn listen_for<R: Wait + Clock>(
        &mut self,
        rt: &R,
        exchange: &Exchange<V, Memory>,
        member: MemberNo,
        limit: Duration,
    ) -> News {
        let waker = exchange.waker(&self.pass);
        waker.arm();
        let news = exchange.news(rt, &mut self.reader, member);
        if news.replies > 1 {
            return news;
        }
        waker.sleep(limit);
        exchange.news(rt, &mut self.reader, member)
    }

    // Whether an event is recorded.
    fn send<R: Wait>(
        &mut self,
        rt: &R,
        alloc: Global,
        exchange: &Exchange<V, Memory>,
        event: &Event,
    ) -> bool {
        exchange.submit(rt, &mut self.pass, event).is_ok()
    }
}

// The two clients of an exchange with two passes.
fn clients<V: Venue, R: Abort>(
    rt: &R,
    exchange: &Exchange<V, Memory>,
    mut passes: Vec<Pass<V>>,
    mut reader: Reader<Entry>,
) -> (Client<V>, Client<V>)
    requires reader { reader.log ≡ V.log }
{
    let other = reader.split(exchange.feed_log());
    let second = Client {
        pass: passes.pop().expect(rt, "a pass"),
        reader: other,
    };
    let first = Client {
        pass: passes.pop().expect(rt, "a pass"),
        reader,
    };
    (first, second)
}

// Reads on, ten messages at most, to the end: returns their number, if each is that of the one displayed order.
fn read_all(log: &Log<Entry>, reader: &mut Reader<Entry>) -> Option<u64>
    requires { reader.old.log ≡ log.now }
    ensures { reader.new.log ≡ reader.old.log }
{
    let mut count = 0;
    for _step in 0..10u64 {
        let Some(message) = reader.next(log) else {
            return Some(count);
        };
        if read_message(message.as_slice()) != ADDED {
            return None;
        }
        count += 1;
    }
    None
}

// The one reply is this, and nothing but a beginning of the feed was read; the rest is read now.
fn expect_client<V: Venue, R: Abort>(
    rt: &R,
    log: &Log<Entry>,
    client: &mut Client<V>,
    outcome: Outcome,
    want: Reply,
)
    requires { log.now ≡ V.log }
{
    equal(rt, outcome.reply, want);
    let early = outcome.early.expect(rt, "no other message");
    let late = read_all(log, &mut client.reader).expect(rt, "no other message");
    equal(rt, client.pass.sent().len(), 1);
    equal(rt, early.checked_add(late), Some(1));
}

fn shown() -> Order {
    BUY
}

fn hidden() -> Order {
    Order {
        member: 2,
        token: *b"H1",
        display: b'N',
        ..BUY
    }
}

// One member sends a displayed order, the other a hidden one, at the same time.
fn two_at_once<V: Venue + Send + Sync, R: Threads + Wait + Abort + Sync>(
    rt: &R,
    alloc: Global,
    setup: Setup,
    logs: Logs,
    blank: Blank,
    reader: Reader<Entry>,
)
    requires feed { IsNewLog V.log logs.feed }
    requires admitted { IsNewLog V.admitted logs.admitted }
    requires durable { IsNewLog V.durable logs.durable }
    requires of_setup { setup ≡ V.setup }
    requires before { V.before ≡ [] }
    requires reader { reader.log ≡ V.log }
    requires blank { (blank.name ≡ V.name) × (blank.parts ≡ V.parts) × (V.parts ≡ 2) }
{
    let journal = Memory::new(alloc, 10_000);
    let (exchange, passes) = Exchange::<V, Memory>::new(
        alloc, setup, logs, journal, blank, 2,
    ).expect(rt, "an exchange");
    let (mut first, mut second) = clients(rt, &exchange, passes, reader);
    let shared = &exchange;
    let (one, two) = thread::join(
        rt,
        || first.session(rt, alloc, shared, &shown()),
        || second.session(rt, alloc, shared, &hidden()),
    );
    both_know_all(rt, alloc, exchange, (first, one), (second, two))
}

// Each learns what the other knows, and has then read the one message; and the exchange ends with both events.
fn both_know_all<V: Venue, R: Abort>(
    rt: &R,
    alloc: Global,
    exchange: Exchange<V, Memory>,
    (mut first, one): (Client<V>, Outcome),
    (mut second, two): (Client<V>, Outcome),
) {
    let log = exchange.feed_log();
    first.reader.learn(log, second.pass.receipt(log));
    second.reader.learn(log, first.pass.receipt(log));
    let accepted = Reply::Accepted(*b"T1", 100, 1);
    expect_client(rt, log, &mut first, one, accepted);
    let accepted = Reply::Accepted(*b"H1", 100, private(2, 1));
    expect_client(rt, log, &mut second, two, accepted);
    let passes = vec![in alloc; first.pass, second.pass].expect(rt, "passes");
    ends(rt, exchange, passes, 2, 1);
}

#[test]
fn two_sessions_at_once(rt: HostRuntime) -> Result<(), Fail> {
    let alloc = rt.alloc();
    let setup = Setup::standard(alloc).expect(&rt, "a setup");
    let (log, writer, reader) = Log::<Entry>::new(alloc, 100).expect(&rt, "a log");
    let logs = logs_of(alloc, log, writer)?;
    two_at_once::<Brand, _>(&rt, alloc, setup, logs, Blank::new(2), reader);
    Ok(())
}

// The first member waits for the execution of its order, which another thread's order brings; and then in vain.
fn wait_for_an_execution<V: Venue + Send + Sync, R: Threads + Wait + Clock + Abort + Sync>(
    rt: &R,
    alloc: Global,
    setup: Setup,
    logs: Logs,
    blank: Blank,
    reader: Reader<Entry>,
)
    requires feed { IsNewLog V.log logs.feed }
    requires admitted { IsNewLog V.admitted logs.admitted }
    requires durable { IsNewLog V.durable logs.durable }
    requires of_setup { setup ≡ V.setup }
    requires before { V.before ≡ [] }
    requires reader { reader.log ≡ V.log }
    requires blank { (blank.name ≡ V.name) × (blank.parts ≡ V.parts) × (V.parts ≡ 2) }
{
    let journal = Memory::new(alloc, 10_000);
    let (exchange, passes) = Exchange::<V, Memory>::new(
        alloc, setup, logs, journal, blank, 2,
    ).expect(rt, "an exchange");
    let (mut first, mut second) = clients(rt, &exchange, passes, reader);
    let buy = entered(rt, alloc, &shown());
    let sell = entered(rt, alloc, &sale());
    let member = member_of(rt, 1);
    holds(rt, first.send(rt, alloc, &exchange, &buy));
    let long = Duration::from_secs(60);
    let shared = &exchange;
    let (news, sent) = thread::join(
        rt,
        || first.wait(rt, shared, member, long),
        || second.send(rt, alloc, shared, &sell),
    );
    holds(rt, sent);
    expect_traded(rt, &exchange, &mut first, member, news);
}

fn sale() -> Order {
    Order {
        member: 2,
        token: *b"S1",
        ..SELL
    }
}

// The order was accepted and executed, and nothing more comes.
fn expect_traded<V: Venue, R: Wait + Clock + Abort>(
    rt: &R,
    exchange: &Exchange<V, Memory>,
    client: &mut Client<V>,
    member: MemberNo,
    news: News,
) {
    let traded = News {
        replies: 2,
        ended: false,
    };
    equal(rt, news, traded);
    let reader = &mut client.reader;
    equal(rt, exchange.news(rt, reader, member), traded);
    let page = exchange
        .replies_page(rt, reader, member, 2, 5)
        .expect(rt, "a page");
    equal(rt, page.len(), 1);
}

#[test]
fn a_member_waits_for_news(rt: HostRuntime) -> Result<(), Fail> {
    let alloc = rt.alloc();
    let setup = Setup::standard(alloc).expect(&rt, "a setup");
    let (log, writer, reader) = Log::<Entry>::new(alloc, 100).expect(&rt, "a log");
    let logs = logs_of(alloc, log, writer)?;
    wait_for_an_execution::<Brand, _>(&rt, alloc, setup, logs, Blank::new(2), reader);
    Ok(())
}
