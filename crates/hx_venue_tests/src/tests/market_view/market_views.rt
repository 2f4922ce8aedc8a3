//! From the screen to the market view: what is new, and what is retained.

use crate::tests::{equal, holds};
use bytes::ByteStr;
use hx_itch::{AddOrder, BrokenTrade, Feed, StockTradingAction, Trade as HiddenTrade};
use hx_market_view::{MarketView, News, Post, Quote, Recorder, Status, StockNews, Trade};
use hx_reader::FeedBook;
use hx_units::Symbol;
use std::alloc::Global;
use std::process::Abort;
use std::sync::Wait;
use std::time::{Clock, Duration, Instant};

pub const ABCD: Symbol = Symbol(*b"ABCD    ");

const STATUS: Status = Status {
    session: *b"HX00000008",
    hours: None,
    time: 0,
    messages: 1,
    missing: 0,
    asked: 0,
    is_over: false,
};

fn add(reference: u64, side: u8, price: u32) -> Feed {
    Feed::AddOrder(AddOrder {
        locate: 1,
        time: reference,
        reference,
        side,
        shares: 100,
        stock: ABCD,
        price,
    })
}

fn execute(match_number: u64) -> Trade {
    Trade {
        match_number,
        time: match_number,
        price: 100_000,
        shares: 10,
        is_broken: false,
    }
}

/// News of a stock: `count` executions from a number on, and one change of its prices for each.
pub fn news_of<R: AllocGlobal + Abort>(rt: &R, text: &'static str, from: u64, count: u64) -> News {
    let alloc = rt.alloc();
    let mut news = News::none(alloc);
    news.feed = Some(ByteStr::from_static("{}"));
    let mut trades = Vec::new(alloc);
    let mut quotes = Vec::new(alloc);
    for number in from..from.saturating_add(count) {
        trades.push(execute(number)).expect(rt, "memory");
        quotes
            .push(Quote {
                time: number,
                bid: Some(99_900),
                offer: None,
            })
            .expect(rt, "memory");
    }
    news.stocks
        .push(StockNews {
            stock: ABCD,
            locate: 1,
            text: ByteStr::from_static(text),
            trades,
            quotes,
            broken: Vec::new(alloc),
        })
        .expect(rt, "memory");
    news
}

// What the threads of a screen share: the book and what is new of it, the post in which it is left, and the market view
// that takes it.
#[derive(Drop)]
struct Room {
    book: FeedBook,
    recorder: Recorder,
    post: Post,
    market_view: MarketView,
}

impl Room {
    fn new(alloc: Global) -> Room {
        Room {
            book: FeedBook::new(alloc),
            recorder: Recorder::new(alloc),
            post: Post::new(alloc),
            market_view: MarketView::new(alloc),
        }
    }

    // A message is applied to the book, and seen.
    fn see(&mut self, rt: &impl Abort, message: &Feed) {
        self.recorder.look(message, &self.book);
        self.book.apply(message).expect(rt, "memory");
        self.recorder.note(message, &self.book).expect(rt, "memory");
    }

    // What is new is left in the post at a time, and taken.
    fn pass_on<R: Wait + Clock + Abort>(&mut self, rt: &R, now: Instant) {
        self.recorder
            .tell(rt, &self.post, STATUS, &self.book, now)
            .expect(rt, "memory");
        self.market_view
            .take(self.post.take(rt))
            .expect(rt, "memory");
    }
}

// Whether the text of the stock begins so, and `quotes` changes of its prices were shown.
fn shows(market_view: &MarketView, beginning: &str, quotes: usize) -> bool {
    match market_view.sheet(1) {
        Some(sheet) => sheet.text.as_str().starts_with(beginning) && sheet.quotes.len() == quotes,
        None => false,
    }
}

const TRADING: &str = r#"{"stock":"ABCD","locate":1,"halted":false"#;

const HALTED: &str = r#"{"stock":"ABCD","locate":1,"halted":true"#;

#[test]
fn what_is_new_is_reported_once(rt: HostRuntime) {
    let mut room = Room::new(rt.alloc());
    room.see(&rt, &add(1, b'B', 99_900));
    room.see(&rt, &add(2, b'S', 100_100));
    let now = Instant::now(&rt).expect(&rt, "the time");
    room.pass_on(&rt, now);
    holds(
        &rt,
        shows(&room.market_view, TRADING, 2) && room.market_view.changes == 1,
    );
    // Nothing more is left within the twentieth part of a second.
    let halted = Feed::StockTradingAction(StockTradingAction {
        locate: 1,
        time: 3,
        stock: ABCD,
        trading_state: b'H',
        reason: *b"T1  ",
    });
    room.see(&rt, &halted);
    room.pass_on(&rt, now);
    holds(
        &rt,
        shows(&room.market_view, TRADING, 2) && room.market_view.changes == 1,
    );
    let later = now.checked_add(Duration::from_secs(1)).unwrap_or(now);
    room.pass_on(&rt, later);
    room.pass_on(&rt, later);
    holds(
        &rt,
        shows(&room.market_view, HALTED, 2) && room.market_view.changes == 2,
    );
    holds(&rt, room.market_view.sheet(2).is_none());
}

// The only execution of the stock.
fn only_trade(market_view: &MarketView) -> Option<Trade> {
    match market_view.sheet(1)?.trades.as_slice() {
        [trade] => Some(*trade),
        _ => None,
    }
}

#[test]
fn a_broken_execution_is_marked(rt: HostRuntime) {
    let mut room = Room::new(rt.alloc());
    let trade = Feed::Trade(HiddenTrade {
        locate: 1,
        time: 7,
        shares: 20,
        stock: ABCD,
        price: 100_000,
        match_number: 4,
    });
    let mut reported = Trade {
        match_number: 4,
        time: 7,
        price: 100_000,
        shares: 20,
        is_broken: false,
    };
    room.see(&rt, &trade);
    let now = Instant::now(&rt).expect(&rt, "the time");
    room.pass_on(&rt, now);
    equal(&rt, only_trade(&room.market_view), Some(reported));
    let broken = Feed::BrokenTrade(BrokenTrade {
        locate: 1,
        time: 8,
        match_number: 4,
    });
    room.see(&rt, &broken);
    let later = now.checked_add(Duration::from_secs(1)).unwrap_or(now);
    room.pass_on(&rt, later);
    reported.is_broken = true;
    equal(&rt, only_trade(&room.market_view), Some(reported));
}

#[test]
fn news_that_nobody_took_is_joined(rt: HostRuntime) {
    let alloc = rt.alloc();
    let post = Post::new(alloc);
    post.leave(&rt, news_of(&rt, "1", 1, 2))
        .expect(&rt, "memory");
    post.leave(&rt, news_of(&rt, "2", 3, 2))
        .expect(&rt, "memory");
    let mut market_view = MarketView::new(alloc);
    market_view.take(post.take(&rt)).expect(&rt, "memory");
    let Some(sheet) = market_view.sheet(1) else {
        panic!(rt; "no stock");
    };
    equal(&rt, sheet.text.as_str(), "2");
    let numbers: [u64; 4] = [1, 2, 3, 4];
    holds(
        &rt,
        sheet
            .trades
            .iter()
            .map(|trade| trade.match_number)
            .eq(numbers.iter().copied()),
    );
    holds(&rt, !market_view.is_over);
    post.end(&rt);
    market_view.take(post.take(&rt)).expect(&rt, "memory");
    holds(&rt, market_view.is_over && market_view.changes == 1);
    // If nobody takes them any more, no news are retained.
    post.close(&rt);
    post.leave(&rt, news_of(&rt, "5", 5, 2))
        .expect(&rt, "memory");
    holds(&rt, post.take(&rt).stocks.is_empty());
}

#[test]
fn a_long_day_has_room(rt: HostRuntime) {
    let alloc = rt.alloc();
    let mut market_view = MarketView::new(alloc);
    for round in 0..12u64 {
        market_view
            .take(news_of(&rt, "x", round * 1000, 1000))
            .expect(&rt, "memory");
    }
    let Some(sheet) = market_view.sheet(1) else {
        panic!(rt; "no stock");
    };
    holds(
        &rt,
        sheet.trades.len() == 4096 && sheet.quotes.len() <= 4096,
    );
    holds(
        &rt,
        sheet.trades.last().map(|trade| trade.match_number) == Some(11_999),
    );
    holds(&rt, sheet.quotes.first().map(|quote| quote.time) == Some(0));
}
