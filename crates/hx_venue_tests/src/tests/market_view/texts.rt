//! The texts of a stock, of the feed and of a chart; names and executions.

use crate::tests::equal;
use hx_itch::{AddOrder, Feed, OrderExecuted, Trade as HiddenTrade};
use hx_market_view::{
    Listing, Quote, Status, Trade, chart_text, feed_text, shown_name, stock_text, trade_of,
};
use hx_reader::{FeedBook, PriceLevel};
use hx_units::Symbol;
use std::process::Abort;

const LISTING: Listing = Listing {
    stock: Symbol(*b"A\"B\\ \xff  "),
    locate: 7,
    is_halted: true,
    messages: 12,
    trades: 2,
    shares: 300,
};

const TRADE: Trade = Trade {
    match_number: 9,
    time: 34_200_000_000_001,
    price: 100_000,
    shares: 300,
    is_broken: true,
};

#[test]
fn a_stock_is_reported(rt: HostRuntime) {
    let bids = [
        PriceLevel {
            price: 99_900,
            shares: 500,
            orders: 2,
        },
        PriceLevel {
            price: 99_800,
            shares: 1,
            orders: 1,
        },
    ];
    let text = stock_text(rt.alloc(), &LISTING, &bids, &[], &[TRADE]).expect(&rt, "memory");
    equal(
        &rt,
        text.as_str(),
        r#"{"stock":"A\"B\\.","locate":7,"halted":true,"messages":12,"trades":2,"shares":300,"bids":[{"price":99900,"shares":500,"orders":2},{"price":99800,"shares":1,"orders":1}],"offers":[],"last":[{"match":9,"time":34200000000001,"price":100000,"shares":300,"broken":true}]}"#,
    );
}

#[test]
fn the_feed_is_reported(rt: HostRuntime) {
    let status = Status {
        session: *b"HX00000008",
        hours: Some(b'Q'),
        time: 5,
        messages: 10,
        missing: 2,
        asked: 3,
        is_over: false,
    };
    let text = feed_text(rt.alloc(), &status).expect(&rt, "memory");
    equal(
        &rt,
        text.as_str(),
        r#"{"session":"HX00000008","hours":"Q","time":5,"messages":10,"missing":2,"asked":3,"over":false}"#,
    );
    let first = Status {
        hours: None,
        is_over: true,
        ..status
    };
    let text = feed_text(rt.alloc(), &first).expect(&rt, "memory");
    equal(
        &rt,
        text.as_str(),
        r#"{"session":"HX00000008","hours":"","time":5,"messages":10,"missing":2,"asked":3,"over":true}"#,
    );
}

#[test]
fn a_chart_is_reported(rt: HostRuntime) {
    let quotes = [Quote {
        time: 1,
        bid: Some(99_900),
        offer: None,
    }];
    let text = chart_text(rt.alloc(), Symbol(*b"ABCD    "), 1, &[], &quotes).expect(&rt, "memory");
    let reported =
        br#"{"stock":"ABCD","locate":1,"trades":[],"quotes":[{"time":1,"bid":99900,"offer":null}]}"#;
    equal(&rt, text.as_slice(), reported.as_slice());
}

#[test]
fn names_are_visible(rt: HostRuntime) {
    equal(&rt, shown_name(b"ABCD    ").as_str(), "ABCD");
    equal(&rt, shown_name(b"<b>\x00\x7f\x80  ").as_str(), "<b>...");
    equal(&rt, shown_name(b"").as_str(), "");
}

#[test]
fn executions_have_their_price(rt: HostRuntime) {
    let mut book = FeedBook::new(rt.alloc());
    let executed = Feed::OrderExecuted(OrderExecuted {
        locate: 1,
        time: 7,
        reference: 3,
        shares: 20,
        match_number: 4,
    });
    equal(&rt, trade_of(&executed, &book), None);
    let added = Feed::AddOrder(AddOrder {
        locate: 1,
        time: 6,
        reference: 3,
        side: b'B',
        shares: 50,
        stock: Symbol(*b"ABCD    "),
        price: 100_000,
    });
    equal(&rt, trade_of(&added, &book), None);
    book.apply(&added).expect(&rt, "memory");
    let trade = Trade {
        match_number: 4,
        time: 7,
        price: 100_000,
        shares: 20,
        is_broken: false,
    };
    equal(&rt, trade_of(&executed, &book), Some(trade));
    let hidden = Feed::Trade(HiddenTrade {
        locate: 1,
        time: 7,
        shares: 20,
        stock: Symbol(*b"ABCD    "),
        price: 100_000,
        match_number: 4,
    });
    equal(&rt, trade_of(&hidden, &book), Some(trade));
}
