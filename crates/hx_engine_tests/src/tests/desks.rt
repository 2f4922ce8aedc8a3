//! A desk with a log of one slot, one with few messages a member, and what its readers meet.
ghost use Rattle.std.specs.Prelude.{◌≡◌, ◌≤◌, length};

use super::{entered, equal, holds, member_of};
use hx_blog::{Log, Reader};
use hx_engine::{Desk, DeskError, Done, Entry, laws};
use hx_market::Event;
use hx_members::Setup;
use hx_testing::sending::{BUY, Order, SELL, message};
use hx_testing::shorthand::{Message, Reply, private, read_message, read_reply};
use hx_units::MemberNo;
use std::alloc::Global;
use std::process::Abort;

// A desk at its start, with its log and a reader.
fn opened<R: Abort>(
    rt: &R,
    alloc: Global,
    setup: Setup,
    capacity: u64,
) -> (Log<Entry>, Desk, Reader<Entry>)
    requires { (1 ≤ capacity) × (capacity ≤ 1000000) }
    ensures desk { (result.1.log ≡ result.0) × (result.1.published_end ≡ length result.1.history) }
    ensures reader { result.2.log ≡ result.0 }
{
    let (log, writer, reader) = Log::<Entry>::new(alloc, capacity).expect(rt, "a log");
    let desk = Desk::new(alloc, setup, writer).expect(rt, "a desk");
    (log, desk, reader)
}

type Answer = Result<Done, DeskError>;

fn done(place: u64, first: u64, count: u64) -> Answer {
    Ok(Done {
        place,
        first,
        count,
    })
}

fn full(free: u64, needed: u64) -> Answer {
    Err(DeskError::Full { free, needed })
}

// The event is submitted, and answered so.
fn expect<R: Abort>(rt: &R, desk: &mut Desk, log: &Log<Entry>, event: &Event, want: Answer)
    requires { (desk.old.log ≡ log.now) × (desk.old.published_end ≡ length desk.old.history) }
    ensures { (desk.new.log ≡ desk.old.log) × (desk.new.published_end ≡ length desk.new.history) }
{
    equal(rt, desk.submit(log, 1, event), want);
}

// The event is submitted, and again if there was no memory for it: nothing of the first time is left.
fn submit_again(desk: &mut Desk, log: &Log<Entry>, event: &Event) -> Answer
    requires { (desk.old.log ≡ log.now) × (desk.old.published_end ≡ length desk.old.history) }
    ensures { (desk.new.log ≡ desk.old.log) × (desk.new.published_end ≡ length desk.new.history) }
{
    match desk.submit(log, 1, event) {
        Err(DeskError::NoMemory) => desk.submit(log, 1, event),
        answer => answer,
    }
}

// The orders are entered one after the other, and answered so.
fn apply<R: Abort>(
    rt: &R,
    alloc: Global,
    desk: &mut Desk,
    log: &Log<Entry>,
    orders: &[(Order, Answer)],
)
    requires { (desk.old.log ≡ log.now) × (desk.old.published_end ≡ length desk.old.history) }
    ensures { (desk.new.log ≡ desk.old.log) × (desk.new.published_end ≡ length desk.new.history) }
{
    for (order, want) in orders {
        let event = entered(rt, alloc, order);
        equal(rt, submit_again(desk, log, &event), *want);
    }
}

// The replies to a member are these, asked for at once and one by one.
fn expect_replies<R: Abort>(rt: &R, desk: &Desk, member: u16, wanted: &[Reply]) {
    let member = member_of(rt, member);
    expect_all_replies(rt, desk, member, wanted);
    for (index, want) in wanted.iter().enumerate() {
        let page = desk
            .replies_page(member, index as u64 + 1, 1)
            .expect(rt, "a page");
        let reply = page.first().expect(rt, "a reply");
        equal(rt, read_reply(reply.as_slice()), *want);
    }
    let none = desk.replies_from(member, u64::MAX).expect(rt, "no reply");
    equal(rt, none.len(), 0);
}

fn expect_all_replies<R: Abort>(rt: &R, desk: &Desk, member: MemberNo, wanted: &[Reply]) {
    let replies = desk.replies_from(member, 0).expect(rt, "all replies");
    equal(rt, replies.len(), wanted.len());
    equal(rt, desk.reply_count(member), wanted.len() as u64);
    for (reply, want) in replies.iter().zip(wanted) {
        equal(rt, read_reply(reply.as_slice()), *want);
    }
}

// The reader reads these messages, and no more.
fn expect_feed<R: Abort>(rt: &R, log: &Log<Entry>, reader: &mut Reader<Entry>, wanted: &[Message])
    requires { reader.old.log ≡ log.now }
    ensures { reader.new.log ≡ reader.old.log }
{
    for want in wanted {
        let message = reader.next(log).expect(rt, "a message");
        equal(rt, read_message(message.as_slice()), *want);
    }
    holds(rt, reader.next(log).is_none());
}

// Two hidden orders fit; a displayed one that would trade and rest needs two slots; one that trades needs one; and then
// the log is full.
fn one_slot() -> [(Order, Answer); 5] {
    let hidden = Order {
        time: 10,
        token: *b"H1",
        display: b'N',
        ..BUY
    };
    let sell = Order {
        time: 20,
        member: 2,
        token: *b"S1",
        shares: 150,
        ..SELL
    };
    [
        (hidden, done(1, 1, 0)),
        (sell, full(1, 2)),
        (
            Order {
                time: 30,
                member: 3,
                token: *b"H2",
                shares: 50,
                ..hidden
            },
            done(2, 1, 0),
        ),
        (
            Order {
                time: 40,
                shares: 100,
                time_in_force: 0,
                display: b'N',
                ..sell
            },
            done(3, 1, 1),
        ),
        (
            Order {
                time: 50,
                token: *b"S2",
                shares: 100,
                price: 200_000,
                ..sell
            },
            full(0, 1),
        ),
    ]
}

#[test]
fn a_log_of_one_slot(rt: HostRuntime) {
    let alloc = rt.alloc();
    let setup = Setup::standard(alloc).expect(&rt, "a setup");
    let (log, mut desk, mut reader) = opened(&rt, alloc, setup, 1);
    apply(&rt, alloc, &mut desk, &log, &one_slot());
    equal(&rt, desk.history_len(), 3);
    equal(&rt, desk.feed_count(), 1);
    holds(&rt, !desk.ended());
    expect_feed(&rt, &log, &mut reader, &[Message::Trade(100, 100_000, 1)]);
    let buyer = [
        Reply::Accepted(*b"H1", 100, private(1, 1)),
        Reply::Executed(*b"H1", 100, 100_000, b'J', 1),
    ];
    expect_replies(&rt, &desk, 1, &buyer);
    let seller = [
        Reply::Accepted(*b"S1", 100, private(2, 1)),
        Reply::Executed(*b"S1", 100, 100_000, b'R', 1),
    ];
    expect_replies(&rt, &desk, 2, &seller);
    expect_replies(&rt, &desk, 3, &[Reply::Accepted(*b"H2", 50, private(3, 1))]);
}

const FEW: &[u8] = b"session HX00000003\n\
     start open\n\
     stock ABCD 5120000000644e435a20502020314e000000004e\n\
     member 1 FMA1 ALPHA PWALPHA 2\n\
     member 2 FMB2 BRAVO PWBRAVO 1000\n";

const LATE: u64 = 86_400_000_000_000;

#[test]
fn limits_times_and_strangers(rt: HostRuntime) {
    let alloc = rt.alloc();
    let setup = Setup::read(alloc, FEW).expect(&rt, "a setup");
    let (log, mut desk, _) = opened(&rt, alloc, setup, 10);
    let nothing = message(alloc, 1, 10, &[0]).expect(&rt, "a message");
    expect(&rt, &mut desk, &log, &nothing, done(1, 1, 0));
    let first = Order { time: 20, ..BUY };
    apply(&rt, alloc, &mut desk, &log, &[(first, done(2, 1, 1))]);
    refused(&rt, alloc, &mut desk, &log);
    let second = Order {
        time: 40,
        member: 2,
        token: *b"T2",
        ..BUY
    };
    apply(&rt, alloc, &mut desk, &log, &[(second, done(3, 2, 1))]);
    equal(&rt, desk.history_len(), 3);
}

fn refused<R: Abort>(rt: &R, alloc: Global, desk: &mut Desk, log: &Log<Entry>)
    requires { (desk.old.log ≡ log.now) × (desk.old.published_end ≡ length desk.old.history) }
    ensures { (desk.new.log ≡ desk.old.log) × (desk.new.published_end ≡ length desk.new.history) }
{
    let cancel = message(alloc, 1, 30, b"XT1            \0\0\0\0").expect(rt, "a cancel");
    expect(rt, desk, log, &cancel, Err(DeskError::Limit { member: 1 }));
    for (member, time, error) in [
        (1, LATE, DeskError::BadTime),
        (9, LATE, DeskError::BadTime),
        (9, 35, DeskError::NoMember),
    ] {
        let event = message(alloc, member, time, &[0]).expect(rt, "a message");
        expect(rt, desk, log, &event, Err(error));
    }
}

#[test]
fn a_reader_looks_before_and_after_two_publishes(rt: HostRuntime) {
    let alloc = rt.alloc();
    let setup = Setup::standard(alloc).expect(&rt, "a setup");
    let (log, mut desk, mut reader) = opened(&rt, alloc, setup, 10);
    equal(&rt, reader.look(&log), 0);
    laws::replies_grow();
    let second = Order {
        member: 2,
        token: *b"T2",
        ..BUY
    };
    let orders = [(BUY, done(1, 1, 1)), (second, done(2, 2, 1))];
    apply(&rt, alloc, &mut desk, &log, &orders);
    equal(&rt, reader.look(&log), 2);
    let added = [
        Message::Added(1, b'B', 100, 100_000),
        Message::Added(2, b'B', 100, 100_000),
    ];
    expect_feed(&rt, &log, &mut reader, &added);
}
