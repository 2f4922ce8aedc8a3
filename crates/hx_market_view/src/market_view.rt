//! The web page's side: the newest text of each stock, its chart, and which browser was sent what.
ghost use Rattle.std.specs.Prelude.{◌≡◌, IfOk};
ghost use Rattle.json.specs.Print.{print};
ghost use Rattle.hx_market_view.specs.Texts.{chart_tokens};

use crate::chart::{Quote, chart_text};
use crate::news::{News, StockNews};
use crate::trade::Trade;
use bytes::ByteStr;
use hx_units::Symbol;
use std::alloc::{AllocError, Global};

// The number of executions of a stock that are stored, the newest.
const TRADES: usize = 4096;

// The number of changes of its best prices that are stored: if there are more, every second is left out.
const QUOTES: usize = 4096;

/// A stock of the market view.
#[derive(Drop)]
pub struct Sheet {
    /// Its name.
    pub stock: Symbol,
    /// Its number for the day.
    pub locate: u16,
    /// Its newest text.
    pub text: ByteStr,
    /// The change of the market view that it has its text from.
    pub change: u64,
    /// Its executions, the oldest first.
    pub trades: Vec<Trade>,
    /// Its best prices as they changed, the oldest first.
    pub quotes: Vec<Quote>,
}

impl Sheet {
    // A chart's text.
    pub fn chart(&self, alloc: Global) -> Result<Vec<u8>, AllocError>
        ensures { IfOk result (λ v. v.items
            ≡ print (chart_tokens self.now.stock.0 self.now.locate self.now.trades.items
            self.now.quotes.items)) }
    {
        chart_text(alloc, self.stock, self.locate, &self.trades, &self.quotes)
    }

    // Takes what is new.
    fn take(&mut self, news: StockNews, change: u64) -> Result<(), AllocError> {
        let StockNews {
            text,
            trades,
            quotes,
            broken,
            ..
        } = news;
        self.text = text;
        self.change = change;
        self.trades.extend_from_slice(&trades)?;
        for match_number in broken.as_slice() {
            for trade in self.trades.iter_mut() {
                if trade.match_number == *match_number {
                    trade.is_broken = true;
                }
            }
        }
        self.quotes.extend_from_slice(&quotes)?;
        self.thin();
        Ok(())
    }

    // Leaves out what is too much.
    fn thin(&mut self) {
        if self.trades.len() > TRADES {
            let count = self.trades.len() - TRADES;
            self.trades.drain(..count);
        }
        if self.quotes.len() > QUOTES {
            let mut is_retained = false;
            self.quotes.retain(|_| {
                is_retained = !is_retained;
                is_retained
            });
        }
    }
}

/// What the web page shows now.
#[derive(Drop)]
pub struct MarketView {
    alloc: Global,
    /// The newest text of the feed.
    pub feed: ByteStr,
    /// The change that it came with.
    pub feed_change: u64,
    /// The stocks, in the order of their first news.
    pub sheets: Vec<Sheet>,
    /// How many changes there were.
    pub changes: u64,
    /// Whether nothing more comes.
    pub is_over: bool,
}

impl MarketView {
    /// Nothing is known.
    pub fn new(alloc: Global) -> MarketView {
        MarketView {
            alloc,
            feed: ByteStr::from_static("null"),
            feed_change: 0,
            sheets: Vec::new(alloc),
            changes: 0,
            is_over: false,
        }
    }

    /// The stock of this number.
    pub fn sheet(&self, locate: u16) -> Option<&Sheet> {
        for sheet in self.sheets.iter() {
            if sheet.locate == locate {
                return Some(sheet);
            }
        }
        None
    }

    fn take_stock(&mut self, news: StockNews) -> Result<(), AllocError> {
        let change = self.changes;
        for sheet in self.sheets.iter_mut() {
            if sheet.locate == news.locate {
                return sheet.take(news, change);
            }
        }
        let mut sheet = Sheet {
            stock: news.stock,
            locate: news.locate,
            text: ByteStr::new(),
            change,
            trades: Vec::new(self.alloc),
            quotes: Vec::new(self.alloc),
        };
        sheet.take(news, change)?;
        self.sheets.push(sheet)?;
        Ok(())
    }

    /// Takes what is new.
    pub fn take(&mut self, news: News) -> Result<(), AllocError> {
        let News {
            feed,
            stocks,
            is_over,
        } = news;
        self.is_over |= is_over;
        let Some(feed) = feed else {
            return Ok(());
        };
        self.changes = self.changes.saturating_add(1);
        self.feed = feed;
        self.feed_change = self.changes;
        for stock in stocks {
            self.take_stock(stock)?;
        }
        Ok(())
    }
}
