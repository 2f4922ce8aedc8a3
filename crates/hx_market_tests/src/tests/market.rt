//! The market's own calls over a worked day.
ghost use Rattle.std.specs.Prelude.{◌≡◌, []};

use super::{count, equal, holds};
use hx_book::{Book, ListBook};
use hx_levels::LevelBook;
use hx_market::{Event, Market, Output, PrepareError};
use hx_members::Setup;
use hx_testing::Day;
use hx_testing::lines::{event_of, split_line};
use hx_testing::worked::REPLACES_THAT_TRADE;
use hx_units::{MemberNo, Token};
use std::alloc::Global;
use std::process::Abort;
use std::test::Fail;

// A market of the standard setup, over this book.
fn opened<B: Book + Drop>(rt: &impl Abort, alloc: Global, book: B) -> Market<B>
    requires { B.orders book ≡ [] }
{
    let setup = Setup::standard(alloc).expect(rt, "memory");
    Market::new(alloc, setup, book).expect(rt, "memory")
}

/// How many messages of the feed, and how many replies.
#[derive(Clone, Copy, Debug, PartialEq, Eq)]
struct EventOutput {
    feed: u64,
    replies: usize,
}

// What an event was said to give, and what it gave.
fn applied<B: Book + Drop>(
    rt: &impl Abort,
    market: &mut Market<B>,
    event: &Event,
) -> (EventOutput, EventOutput) {
    let prepared = market
        .prepare(event)
        .expect(rt, "an event that is accepted");
    let said = EventOutput {
        feed: prepared.feed_count(),
        replies: prepared.reply_members().len(),
    };
    let output = market.commit(prepared);
    let gave = EventOutput {
        feed: output.feed.len() as u64,
        replies: output.replies.len(),
    };
    (said, gave)
}

fn expect_output<R: AllocGlobal + Abort, B: Book + Drop>(
    rt: &R,
    market: &mut Market<B>,
    text: &[u8],
    outputs: EventOutput,
) -> Result<(), Fail> {
    let event = event_of(rt.alloc(), text)?;
    let (said, gave) = applied(rt, market, &event);
    equal(rt, said, outputs);
    equal(rt, gave, outputs);
    Ok(())
}

// The one live order in the end.
fn expect_live<R: Abort, B: Book + Drop>(rt: &R, market: &Market<B>) {
    let live = market.live().expect(rt, "memory");
    count(rt, live.len(), 1);
    equal(rt, live[0].token, Token(*b"S2            "));
    equal(rt, live[0].shares, 130);
}

// What the chain of the replaced order has done, and that an ignored token is not used.
fn expect_chains<R: Abort, B: Book + Drop>(rt: &R, market: &Market<B>) {
    let member = MemberNo::of(1).expect(rt, "a member");
    let facts = market
        .chain(member, &Token(*b"T3            "))
        .expect(rt, "a token that is used");
    equal(rt, facts.executed, 100);
    holds(rt, facts.displayed);
    holds(rt, facts.traded);
    holds(
        rt,
        market.chain(member, &Token(*b"T4            ")).is_none(),
    );
}

// Applies the lines of the day, each with its output.
fn apply_day<R: AllocGlobal + Abort, B: Book + Drop>(
    rt: &R,
    market: &mut Market<B>,
) -> Result<(), Fail> {
    let day = Day::of(rt.alloc(), REPLACES_THAT_TRADE)?;
    let mut tape = day.tape.as_slice();
    let outputs = [
        (1, 1),
        (1, 3),
        (1, 1),
        (1, 1),
        (2, 3),
        (0, 0),
        (0, 0),
        (0, 0),
    ];
    for (feed, replies) in outputs {
        let (text, others) = split_line(tape).expect(rt, "a line");
        tape = others;
        expect_output(rt, market, text, EventOutput { feed, replies })?;
    }
    Ok(())
}

// The day over this book leaves one order.
fn expect_one_order<R: AllocGlobal + Abort, B: Book + Drop>(rt: &R, book: B) -> Result<(), Fail>
    requires { B.orders book ≡ [] }
{
    let mut market = opened(rt, rt.alloc(), book);
    apply_day(rt, &mut market)?;
    expect_live(rt, &market);
    expect_chains(rt, &market);
    Ok(())
}

#[test]
fn replaces_that_trade_leave_one_order(rt: HostRuntime) -> Result<(), Fail> {
    expect_one_order(&rt, ListBook::new(rt.alloc()))?;
    expect_one_order(&rt, LevelBook::new(rt.alloc()))
}

// Lists of no messages.
fn no_output(alloc: Global) -> Output {
    Output {
        feed: Vec::new(alloc),
        replies: Vec::new(alloc),
    }
}

// Has one market apply an event, and the other prepare and commit it; the output of each goes after its earlier output.
fn apply_both(
    rt: &impl Abort,
    player: &mut Market<ListBook>,
    other: &mut Market<ListBook>,
    event: &Event,
    outputs: &mut Output,
    committed: &mut Output,
) {
    player
        .apply(event, outputs)
        .expect(rt, "an event that is accepted");
    let prepared = other.prepare(event).expect(rt, "an event that is accepted");
    let output = other.commit(prepared);
    committed
        .feed
        .extend_from_slice(&output.feed)
        .expect(rt, "memory");
    committed
        .replies
        .extend_from_slice(&output.replies)
        .expect(rt, "memory");
}

#[test]
fn events_applied_at_once_tell_the_same(rt: HostRuntime) -> Result<(), Fail> {
    let alloc = rt.alloc();
    let mut player = opened(&rt, alloc, ListBook::new(alloc));
    let mut other = opened(&rt, alloc, ListBook::new(alloc));
    let (mut outputs, mut committed) = (no_output(alloc), no_output(alloc));
    let day = Day::of(alloc, REPLACES_THAT_TRADE)?;
    let mut tape = day.tape.as_slice();
    for _ in 0..8 {
        let (text, others) = split_line(tape).expect(&rt, "a line");
        tape = others;
        apply_both(
            &rt,
            &mut player,
            &mut other,
            &event_of(alloc, text)?,
            &mut outputs,
            &mut committed,
        );
    }
    equal(&rt, outputs.feed.len(), 6);
    equal(&rt, outputs.replies.len(), 9);
    equal(&rt, &outputs.feed, &committed.feed);
    equal(&rt, &outputs.replies, &committed.replies);
    expect_live(&rt, &player);
    Ok(())
}

#[test]
fn an_event_that_is_refused_tells_nothing(rt: HostRuntime) {
    let mut market = opened(&rt, rt.alloc(), ListBook::new(rt.alloc()));
    let mut outputs = no_output(rt.alloc());
    market
        .apply(&Event::Tick { time: 0 }, &mut outputs)
        .expect(&rt, "an event that is accepted");
    let late = Event::Tick {
        time: 86_400_000_000_000,
    };
    let refused = market.apply(&late, &mut outputs);
    equal(&rt, refused, Err(PrepareError::BadTime));
    holds(&rt, outputs.feed.is_empty());
    holds(&rt, outputs.replies.is_empty());
}
