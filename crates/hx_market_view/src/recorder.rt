//! The screen's side of the web page: what the screen has seen, and what it has not yet sent to the web page.

use crate::chart::Quote;
use crate::listing::{Listing, depth_text};
use crate::news::{News, Post, StockNews};
use crate::pace::Pace;
use crate::status::{Status, feed_text};
use crate::trade::{Trade, trade_of};
use hx_itch::Feed;
use hx_reader::{FeedBook, PriceLevel};
use hx_units::Symbol;
use indexmap::IndexMap;
use std::alloc::{AllocError, Global};
use std::mem;
use std::sync::Wait;
use std::time::{Clock, Instant};

// The number of executions of a stock that are among its last.
const LAST: usize = 20;

// What was seen of a stock.
#[derive(Drop)]
struct Followed {
    listing: Listing,
    // Its last executions.
    last: Vec<Trade>,
    // Its best prices, as they were seen last.
    quote: Quote,
    // Whether its state was not yet sent to the web page.
    has_changed: bool,
    // What was not yet sent to the web page.
    trades: Vec<Trade>,
    quotes: Vec<Quote>,
    broken: Vec<u64>,
}

impl Followed {
    fn new(alloc: Global, locate: u16, stock: Symbol) -> Followed {
        Followed {
            listing: Listing {
                stock,
                locate,
                is_halted: false,
                messages: 0,
                trades: 0,
                shares: 0,
            },
            last: Vec::new(alloc),
            quote: Quote {
                time: 0,
                bid: None,
                offer: None,
            },
            has_changed: true,
            trades: Vec::new(alloc),
            quotes: Vec::new(alloc),
            broken: Vec::new(alloc),
        }
    }

    fn execute(&mut self, trade: Trade) -> Result<(), AllocError> {
        self.trades.push(trade)?;
        if self.last.len() >= LAST {
            self.last.remove(0);
        }
        self.last.push(trade)?;
        self.listing.trades = self.listing.trades.saturating_add(1);
        self.listing.shares = self.listing.shares.saturating_add(u64::from(trade.shares));
        Ok(())
    }

    fn break_trade(&mut self, match_number: u64) -> Result<(), AllocError> {
        for trade in self.last.iter_mut() {
            if trade.match_number == match_number {
                trade.is_broken = true;
            }
        }
        Ok(self.broken.push(match_number)?)
    }

    fn quote(&mut self, book: &FeedBook, time: u64) -> Result<(), AllocError> {
        let locate = self.listing.locate;
        let quote = Quote {
            time,
            bid: price_of(book.bid(locate, None)),
            offer: price_of(book.offer(locate, None)),
        };
        if quote.bid != self.quote.bid || quote.offer != self.quote.offer {
            self.quotes.push(quote)?;
            self.quote = quote;
        }
        Ok(())
    }

    // A message of the stock was applied to the book.
    fn note(
        &mut self,
        message: &Feed,
        trade: Option<Trade>,
        book: &FeedBook,
    ) -> Result<(), AllocError> {
        self.has_changed = true;
        self.listing.messages = self.listing.messages.saturating_add(1);
        if let Some(trade) = trade {
            self.execute(trade)?;
        }
        match message {
            Feed::StockTradingAction(action) => {
                self.listing.is_halted = action.trading_state == b'H';
            }
            Feed::BrokenTrade(broken) => self.break_trade(broken.match_number)?,
            _ => {}
        }
        self.quote(book, time_of(message))
    }

    // What was not yet sent to the web page.
    fn news(&mut self, alloc: Global, book: &FeedBook) -> Result<StockNews, AllocError> {
        let text = depth_text(alloc, &self.listing, book, &self.last)?;
        self.has_changed = false;
        Ok(StockNews {
            stock: self.listing.stock,
            locate: self.listing.locate,
            text,
            trades: mem::replace(&mut self.trades, Vec::new(alloc)),
            quotes: mem::replace(&mut self.quotes, Vec::new(alloc)),
            broken: mem::replace(&mut self.broken, Vec::new(alloc)),
        })
    }
}

fn price_of(level: Option<PriceLevel>) -> Option<u32> {
    match level {
        Some(level) => Some(level.price),
        None => None,
    }
}

// The time of a message.
fn time_of(message: &Feed) -> u64 {
    match message {
        Feed::SystemEvent(m) => m.time,
        Feed::StockDirectory(m) => m.time,
        Feed::AddOrder(m) => m.time,
        Feed::AddOrderWithAttribution(m) => m.time,
        Feed::OrderExecuted(m) => m.time,
        Feed::OrderCancel(m) => m.time,
        Feed::OrderDelete(m) => m.time,
        Feed::OrderReplace(m) => m.time,
        Feed::Trade(m) => m.time,
        Feed::StockTradingAction(m) => m.time,
        Feed::BrokenTrade(m) => m.time,
    }
}

// The number of the stock that a message speaks of, and its name if the message has it.
fn stock_of(message: &Feed) -> (u16, Option<Symbol>) {
    match message {
        Feed::SystemEvent(m) => (m.locate, None),
        Feed::StockDirectory(m) => (m.locate, Some(m.stock)),
        Feed::AddOrder(m) => (m.locate, Some(m.stock)),
        Feed::AddOrderWithAttribution(m) => (m.locate, Some(m.stock)),
        Feed::OrderExecuted(m) => (m.locate, None),
        Feed::OrderCancel(m) => (m.locate, None),
        Feed::OrderDelete(m) => (m.locate, None),
        Feed::OrderReplace(m) => (m.locate, None),
        Feed::Trade(m) => (m.locate, Some(m.stock)),
        Feed::StockTradingAction(m) => (m.locate, Some(m.stock)),
        Feed::BrokenTrade(m) => (m.locate, None),
    }
}

/// What a screen has seen, for the web page.
#[derive(Drop)]
pub struct Recorder {
    alloc: Global,
    stocks: IndexMap<u16, Followed>,
    // The execution that the next message reports.
    trade: Option<Trade>,
    hours: Option<u8>,
    time: u64,
    pace: Pace,
}

impl Recorder {
    /// Nothing was seen.
    pub fn new(alloc: Global) -> Recorder {
        Recorder {
            alloc,
            stocks: IndexMap::new(alloc),
            trade: None,
            hours: None,
            time: 0,
            pace: Pace::new(),
        }
    }

    /// Looks at a message before it is applied to the book.
    pub fn look(&mut self, message: &Feed, book: &FeedBook) {
        self.trade = trade_of(message, book);
    }

    /// Notes the message, applied to the book.
    pub fn note(&mut self, message: &Feed, book: &FeedBook) -> Result<(), AllocError> {
        let trade = self.trade.take();
        self.time = time_of(message);
        if let Feed::SystemEvent(event) = message {
            self.hours = Some(event.event_code);
        }
        let (locate, name) = stock_of(message);
        if let Some(followed) = self.stocks.get_mut(&locate) {
            return followed.note(message, trade, book);
        }
        let Some(stock) = name else {
            return Ok(());
        };
        let mut followed = Followed::new(self.alloc, locate, stock);
        followed.note(message, trade, book)?;
        self.stocks.insert(locate, followed)?;
        Ok(())
    }

    // What was not yet sent to the web page.
    fn news(&mut self, status: Status, book: &FeedBook) -> Result<News, AllocError> {
        let mut news = News::none(self.alloc);
        let status = Status {
            hours: self.hours,
            time: self.time,
            ..status
        };
        news.feed = Some(feed_text(self.alloc, &status)?);
        news.is_over = status.is_over;
        for followed in self.stocks.values_mut() {
            if followed.has_changed {
                news.stocks.push(followed.news(self.alloc, book)?)?;
            }
        }
        Ok(news)
    }

    // Whether a stock has a change that was not yet sent to the web page.
    fn has_changed(&self) -> bool {
        for followed in self.stocks.values() {
            if followed.has_changed {
                return true;
            }
        }
        false
    }

    /// Sends the web page what has changed, if that is due: at most 20 times a second, and less often if a message
    /// takes long. After a second without a change it sends word that the feed is still heard.
    pub fn tell<R: Wait + Clock>(
        &mut self,
        rt: &R,
        post: &Post,
        status: Status,
        book: &FeedBook,
        now: Instant,
    ) -> Result<(), AllocError> {
        if !self.pace.is_due(now) && !status.is_over {
            return Ok(());
        }
        if !self.has_changed() && !status.is_over && !self.pace.is_beat_due(now) {
            return Ok(());
        }
        let news = self.news(status, book)?;
        post.leave(rt, news)?;
        if let Ok(end) = Instant::now(rt) {
            self.pace.note(now, end);
        }
        Ok(())
    }
}
