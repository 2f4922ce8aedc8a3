//! A generated feed of 20,000 messages, of which one packet in five is lost.
ghost use Rattle.std.specs.Prelude.{◌<◌};

use super::network::Network;
use super::screens::{Message, Sent, expect_all};
use crate::tests::equal;
use hx_itch::{AddOrder, Feed, OrderCancel, OrderDelete, OrderExecuted, OrderReplace, encode};
use hx_units::Symbol;
use std::test::*;

const ROUNDS: u64 = 4_000;

// Half past nine.
const TIME: u64 = 34_200_000_000_000;

// A displayed order of 500 shares.
fn added(reference: u64, side: u8, price: u32) -> Message {
    encode(&Feed::AddOrder(AddOrder {
        locate: 1,
        time: TIME,
        reference,
        side,
        shares: 500,
        stock: Symbol(*b"ABCD    "),
        price,
    }))
}

// The order is executed in part.
fn executed(reference: u64) -> Message {
    encode(&Feed::OrderExecuted(OrderExecuted {
        locate: 1,
        time: TIME,
        reference,
        shares: 200,
        match_number: reference,
    }))
}

// The order is reduced.
fn reduced(reference: u64) -> Message {
    encode(&Feed::OrderCancel(OrderCancel {
        locate: 1,
        time: TIME,
        reference,
        shares: 100,
    }))
}

fn deleted(reference: u64) -> Message {
    encode(&Feed::OrderDelete(OrderDelete {
        locate: 1,
        time: TIME,
        reference,
    }))
}

fn replaced(original_reference: u64, reference: u64, price: u32) -> Message {
    encode(&Feed::OrderReplace(OrderReplace {
        locate: 1,
        time: TIME,
        original_reference,
        reference,
        shares: 300,
        price,
    }))
}

// Five messages: an order to buy and one to sell; the one is executed in part, the other reduced; then the one is
// deleted, or the other replaced.
fn round(number: u64) -> [Message; 5]
    requires { number < 4000 }
{
    let (buy, sell) = (3 * number + 1, 3 * number + 2);
    let away = 100 * (number % 50) as u32;
    let last = if number % 2 == 0 {
        deleted(buy)
    } else {
        replaced(sell, sell + 1, 100_200 + away)
    };
    [
        added(buy, b'B', 100_000 - away),
        added(sell, b'S', 100_100 + away),
        executed(buy),
        reduced(sell),
        last,
    ]
}

#[test]
fn one_in_five_is_lost(rt: HostRuntime) {
    let mut feed = Vec::new(rt.alloc());
    for number in 0..ROUNDS {
        for message in round(number) {
            feed.push(message).expect(&rt, "memory");
        }
    }
    equal(&rt, feed.len(), 20_000);
    let mut sent = Sent::of(&rt, rt.alloc(), feed, 7);
    expect_all(&rt, &mut sent, Network::LosesOneInFive, 3);
}
