//! What goes from the screen to the browsers: the newest state of each stock that has changed,
//! under a lock.

use crate::chart::Quote;
use crate::trade::Trade;
use bytes::ByteStr;
use hx_units::Symbol;
use std::alloc::{AllocError, Global};
use std::mem;
use std::sync::{Mutex, Wait};

/// What is new of a stock.
#[derive(Drop)]
pub struct StockNews {
    /// Its name.
    pub stock: Symbol,
    /// Its number for the day.
    pub locate: u16,
    /// Its newest text.
    pub text: ByteStr,
    /// Its executions since the last news.
    pub trades: Vec<Trade>,
    /// Its best prices since the last news.
    pub quotes: Vec<Quote>,
    /// The match numbers of executions that were broken since the last news.
    pub broken: Vec<u64>,
}

/// What is new.
#[derive(Drop)]
pub struct News {
    /// The newest text of the feed.
    pub feed: Option<ByteStr>,
    /// The stocks that have changed.
    pub stocks: Vec<StockNews>,
    /// Whether nothing more comes.
    pub is_over: bool,
}

impl News {
    /// Nothing is new.
    pub fn none(alloc: Global) -> News {
        News {
            feed: None,
            stocks: Vec::new(alloc),
            is_over: false,
        }
    }

    /// More is new of a stock: its text replaces an older one.
    pub fn add(&mut self, news: StockNews) -> Result<(), AllocError> {
        for known in self.stocks.iter_mut() {
            if known.locate == news.locate {
                known.trades.extend_from_slice(&news.trades)?;
                known.quotes.extend_from_slice(&news.quotes)?;
                known.broken.extend_from_slice(&news.broken)?;
                known.text = news.text;
                return Ok(());
            }
        }
        self.stocks.push(news)?;
        Ok(())
    }
}

// What lies there, and whether it will be taken.
#[derive(Drop)]
struct Shelf {
    news: News,
    is_closed: bool,
}

/// The mailbox in which the screen leaves what is new, and from which the web page takes it.
#[derive(Drop)]
pub struct Post {
    alloc: Global,
    shelf: Mutex<Shelf>,
}

impl Post {
    /// Nothing is new.
    pub fn new(alloc: Global) -> Post {
        Post {
            alloc,
            shelf: Mutex::new(Shelf {
                news: News::none(alloc),
                is_closed: false,
            }),
        }
    }

    /// Leaves what is new after what was not taken yet; nothing, if nobody takes it any more.
    pub fn leave(&self, rt: &impl Wait, news: News) -> Result<(), AllocError> {
        let News {
            feed,
            stocks,
            is_over,
        } = news;
        let mut shelf = self.shelf.lock(rt);
        if shelf.is_closed {
            return Ok(());
        }
        if feed.is_some() {
            shelf.news.feed = feed;
        }
        shelf.news.is_over |= is_over;
        for stock in stocks {
            shelf.news.add(stock)?;
        }
        Ok(())
    }

    /// Nothing more comes.
    pub fn end(&self, rt: &impl Wait) {
        self.shelf.lock(rt).news.is_over = true;
    }

    /// Takes all that is new.
    pub fn take(&self, rt: &impl Wait) -> News {
        let mut shelf = self.shelf.lock(rt);
        mem::replace(&mut shelf.news, News::none(self.alloc))
    }

    /// Nobody takes what is new any more.
    pub fn close(&self, rt: &impl Wait) {
        let mut shelf = self.shelf.lock(rt);
        shelf.is_closed = true;
        shelf.news = News::none(self.alloc);
    }
}
