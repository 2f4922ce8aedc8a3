//! The feeds of all worked days, in packets of each size, with each packet lost, late and repeated.

use super::network::Network;
use super::screens::{Message, Sent, expect_all};
use arrayvec::ArrayVec;
use hx_testing::lines::split_line;
use hx_testing::{Day, worked};
use std::alloc::Global;
use std::process::Abort;
use std::test::*;

// The worked days whose feed has messages.
const DAYS: [&str; 23] = [
    worked::ONE_DISPLAYED_ORDER,
    worked::HIDDEN_THEN_DISPLAYED,
    worked::DISPLAY_BEATS_TIME,
    worked::HIDDEN_EXECUTIONS_ON_BOTH_SIDES,
    worked::MINIMUM_PASSED_OVER,
    worked::MINIMUM_STAYS,
    worked::TWO_LEVELS_TAKEN,
    worked::TIMES_GOING_BACK,
    worked::LIMITS_OF_FIELDS,
    worked::FAILED_REPLACE,
    worked::CHAIN_THAT_TRADED,
    worked::DISPLAY_CHANGES,
    worked::CANCELS,
    worked::REPLACES_THAT_TRADE,
    worked::TICKS,
    worked::HOURS_OF_A_DAY,
    worked::REASONS,
    worked::SIDES_STOCKS_FIRMS,
    worked::LONGEST_LIVES,
    worked::REPLACES_OF_LIFE_AND_MINIMUM,
    worked::AFTER_THE_MARKET_HOURS,
    worked::TWO_END_AT_ONE_TICK,
    worked::LIMIT_OF_TWO_MESSAGES,
];

// The message of a line of the feed; none if the line is another.
fn message_of(rt: &impl Abort, alloc: Global, line: &[u8]) -> Option<Message> {
    let rest = line.strip_prefix(b"F ")?;
    let text = str::from_utf8(rest).expect(rt, "a text");
    let (_, digits) = text.split_once(' ').expect(rt, "a message");
    let mut message = ArrayVec::new();
    for byte in hex::decode(alloc, digits).expect(rt, "digits") {
        message
            .try_push(byte)
            .ok()
            .expect(rt, "a message that is no longer than the longest");
    }
    Some(message)
}

// The feed of a day.
fn feed_of(rt: &impl Abort, alloc: Global, day: &Day) -> Vec<Message> {
    let mut feed = Vec::new(alloc);
    let mut rest = day.output.as_slice();
    for _ in 0..u64::MAX {
        let Some((line, others)) = split_line(rest) else {
            break;
        };
        if let Some(message) = message_of(rt, alloc, line) {
            feed.push(message).expect(rt, "memory");
        }
        rest = others;
    }
    feed
}

// A feed in packets of `size` messages, over each network that does one thing wrong.
fn expect_feed<R: AllocGlobal + Abort>(rt: &R, feed: Vec<Message>, size: usize) {
    let mut sent = Sent::of(rt, rt.alloc(), feed, size);
    expect_all(rt, &mut sent, Network::Good, 4);
    for index in 0..sent.count() {
        expect_all(rt, &mut sent, Network::Loses(index), 4);
        expect_all(rt, &mut sent, Network::Swaps(index), 4);
        expect_all(rt, &mut sent, Network::Repeats(index), 4);
    }
}

#[test]
fn feeds_of_worked_days(rt: HostRuntime) -> Result<(), Fail> {
    let alloc = rt.alloc();
    for words in DAYS {
        let feed = feed_of(&rt, alloc, &Day::of(alloc, words)?);
        for size in 1..feed.len() + 1 {
            expect_feed(
                &rt,
                feed.as_slice().to_vec(alloc).expect(&rt, "memory"),
                size,
            );
        }
    }
    Ok(())
}
