//! What is new of a stock, for tests.

use bytes::ByteStr;
use hx_market_view::{News, Quote, StockNews, Trade};
use hx_units::Symbol;
use std::process::Abort;

/// News of a stock with this text: one execution, and one change of its best prices.
pub fn news_of<R: AllocGlobal + Abort>(rt: &R, text: &'static str, number: u64) -> News {
    let alloc = rt.alloc();
    let mut trades = Vec::new(alloc);
    trades
        .push(Trade {
            match_number: number,
            time: number,
            price: 100_000,
            shares: 10,
            is_broken: false,
        })
        .expect(rt, "memory");
    let mut quotes = Vec::new(alloc);
    quotes
        .push(Quote {
            time: number,
            bid: Some(99_900),
            offer: None,
        })
        .expect(rt, "memory");
    let mut news = News::none(alloc);
    news.feed = Some(ByteStr::from_static("{}"));
    news.add(StockNews {
        stock: Symbol(*b"ABCD    "),
        locate: 1,
        text: ByteStr::from_static(text),
        trades,
        quotes,
        broken: Vec::new(alloc),
    })
    .expect(rt, "memory");
    news
}
