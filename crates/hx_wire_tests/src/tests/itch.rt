//! The feed messages of worked histories.
ghost use Rattle.std.specs.Prelude.{◌<◌, ◌^◌};
ghost use Rattle.hx_itch.specs.Message.{feed_time};

use super::equal;
use arrayvec::ArrayVec;
use hx_itch::{
    AddOrder, AddOrderWithAttribution, BrokenTrade, Feed, OrderCancel, OrderDelete, OrderExecuted,
    OrderReplace, StockDirectory, StockTradingAction, SystemEvent, Trade, decode, encode,
};
use hx_units::{Firm, Symbol};
use std::process::Abort;

// The stock of these histories, whose number is 1.
const ABCD: Symbol = Symbol(*b"ABCD    ");

// The bytes with one more at the end.
fn longer(bytes: &[u8]) -> ArrayVec<u8, 45> {
    let mut more = ArrayVec::new();
    let _ = more.try_extend_from_slice(bytes);
    let _ = more.try_push(b' ');
    more
}

// The bytes are this message, and those of one byte less or more are none.
fn is_feed(rt: &impl Abort, bytes: &[u8], message: Feed)
    requires { feed_time message < 2 ^ 48 }
{
    equal(rt, decode(bytes), Some(message));
    equal(rt, encode(&message).as_slice(), bytes);
    equal(rt, decode(longer(bytes).as_slice()), None);
    if let Some((_, shorter)) = bytes.split_last() {
        equal(rt, decode(shorter), None);
    }
}

// Messages start, and the stock of the day is named.
#[test]
fn hours_and_stocks(rt: HostRuntime) {
    let bytes = b"S\x00\x00\x00\x00\x00\x00\x00\x00\x00\x01O";
    let message = SystemEvent {
        locate: 0,
        time: 1,
        event_code: b'O',
    };
    is_feed(&rt, bytes, Feed::SystemEvent(message));

    let bytes = b"R\x00\x01\x00\x00\x00\x00\x00\x00\x00\x01ABCD    Q \x00\x00\x00dNCZ P  \
         1N\x00\x00\x00\x00N";
    let message = StockDirectory {
        locate: 1,
        time: 1,
        stock: ABCD,
        tail: *b"Q \x00\x00\x00dNCZ P  1N\x00\x00\x00\x00N",
    };
    is_feed(&rt, bytes, Feed::StockDirectory(message));
}

// A displayed order without its firm, and one with it.
#[test]
fn orders_that_are_added(rt: HostRuntime) {
    let bytes =
        b"A\x00\x01\x00\x00\x00\x00\x00\x00\x03\xe8\x00\x00\x00\x00\x00\x00\x00\x01B\x00\x00\x00d\
         ABCD    \x00\x01\x86\xa0";
    let message = AddOrder {
        locate: 1,
        time: 1_000,
        reference: 1,
        side: b'B',
        shares: 100,
        stock: ABCD,
        price: 100_000,
    };
    is_feed(&rt, bytes, Feed::AddOrder(message));

    let bytes =
        b"F\x00\x01\x00\x00\x00\x00\x00\x00\x002\x00\x00\x00\x00\x00\x00\x00\x04B\x00\x00\x00\x96\
         ABCD    \x00\x01\x87\x04FMA1";
    let message = AddOrderWithAttribution {
        locate: 1,
        time: 50,
        reference: 4,
        side: b'B',
        shares: 150,
        stock: ABCD,
        price: 100_100,
        attribution: Firm(*b"FMA1"),
    };
    is_feed(&rt, bytes, Feed::AddOrderWithAttribution(message));
}

// Of an order, shares are executed, one share is cancelled, and the rest is deleted; another is replaced.
#[test]
fn orders_that_change(rt: HostRuntime) {
    let bytes =
        b"E\x00\x01\x00\x00\x00\x00\x00\x00\x00\x14\x00\x00\x00\x00\x00\x00\x00\x01\x00\x00\x00\
         \x1e\x00\x00\x00\x00\x00\x00\x00\x01";
    let message = OrderExecuted {
        locate: 1,
        time: 20,
        reference: 1,
        shares: 30,
        match_number: 1,
    };
    is_feed(&rt, bytes, Feed::OrderExecuted(message));

    let bytes =
        b"X\x00\x01\x00\x00\x00\x00\x00\x00\x00(\x00\x00\x00\x00\x00\x00\x00\x01\x00\x00\x00\x01";
    let message = OrderCancel {
        locate: 1,
        time: 40,
        reference: 1,
        shares: 1,
    };
    is_feed(&rt, bytes, Feed::OrderCancel(message));

    let bytes = b"D\x00\x01\x00\x00\x00\x00\x00\x00\x002\x00\x00\x00\x00\x00\x00\x00\x01";
    let message = OrderDelete {
        locate: 1,
        time: 50,
        reference: 1,
    };
    is_feed(&rt, bytes, Feed::OrderDelete(message));

    let bytes =
        b"U\x00\x01\x00\x00\x00\x00\x00\x00\x00(\x00\x00\x00\x00\x00\x00\x00\x02\x00\x00\x00\x00\
         \x00\x00\x00\x03\x00\x00\x00\x96\x00\x01\x87\x04";
    let message = OrderReplace {
        locate: 1,
        time: 40,
        original_reference: 2,
        reference: 3,
        shares: 150,
        price: 100_100,
    };
    is_feed(&rt, bytes, Feed::OrderReplace(message));
}

// An execution of a hidden order.
#[test]
fn a_trade(rt: HostRuntime) {
    let bytes =
        b"P\x00\x01\x00\x00\x00\x00\x00\x00\x002\x00\x00\x00\x00\x00\x00\x00\x00B\x00\x00\x00\x01\
         ABCD    \x00\x01\x87\xcc\x00\x00\x00\x00\x00\x00\x00\x01";
    let message = Trade {
        locate: 1,
        time: 50,
        shares: 1,
        stock: ABCD,
        price: 100_300,
        match_number: 1,
    };
    is_feed(&rt, bytes, Feed::Trade(message));
}

// A stock is halted; the reserved byte is written as a space, and read over.
#[test]
fn a_halt(rt: HostRuntime) {
    let bytes = b"H\x00\x01\x00\x00\x00\x00\x00\x00\x00\x1eABCD    H T1  ";
    let message = Feed::StockTradingAction(StockTradingAction {
        locate: 1,
        time: 30,
        stock: ABCD,
        trading_state: b'H',
        reason: *b"T1  ",
    });
    is_feed(&rt, bytes, message);
    let reserved = b"H\x00\x01\x00\x00\x00\x00\x00\x00\x00\x1eABCD    H?T1  ";
    equal(&rt, decode(reserved), Some(message));
}

// An execution is broken.
#[test]
fn a_broken_trade(rt: HostRuntime) {
    let bytes = b"B\x00\x01\x00\x00\x00\x00\x00\x00\x00Z\x00\x00\x00\x00\x00\x00\x00\x01";
    let message = BrokenTrade {
        locate: 1,
        time: 90,
        match_number: 1,
    };
    is_feed(&rt, bytes, Feed::BrokenTrade(message));
}

// A tracking number is read over: this is the deletion above, as another exchange would number it.
#[test]
fn a_tracking_number(rt: HostRuntime) {
    let bytes = b"D\x00\x01\x00\x07\x00\x00\x00\x00\x002\x00\x00\x00\x00\x00\x00\x00\x01";
    let message = OrderDelete {
        locate: 1,
        time: 50,
        reference: 1,
    };
    equal(&rt, decode(bytes), Some(Feed::OrderDelete(message)));
}
