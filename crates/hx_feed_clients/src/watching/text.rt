//! Numbers and names in words.

use hx_reader::{FeedBook, PriceLevel};
use hx_units::Symbol;
use std::fmt;
use std::fmt::Display;

// Units of a price in a dollar.
const DOLLAR: u32 = 10_000;

/// A price in dollars.
#[derive(Clone, Copy)]
pub struct Dollars(pub u32);

impl Display for Dollars {
    fn fmt<W: fmt::Write>(&self, f: &mut fmt::Formatter<W>) -> fmt::Result {
        write!(f, "{}.{:04}", self.0 / DOLLAR, self.0 % DOLLAR)
    }
}

/// The name of a stock, without the spaces on its right; a byte that is no printable letter is a dot.
#[derive(Clone, Copy)]
pub struct Name(pub Symbol);

impl Display for Name {
    fn fmt<W: fmt::Write>(&self, f: &mut fmt::Formatter<W>) -> fmt::Result {
        for byte in &self.0.0 {
            let letter = *byte;
            if letter != b' ' {
                f.write_char(if letter.is_ascii_graphic() {
                    letter as char
                } else {
                    '.'
                })?;
            }
        }
        Ok(())
    }
}

/// The best price of a side: the price, the shares there, and how many orders have them.
#[derive(Clone, Copy)]
pub struct Best(pub Option<PriceLevel>);

impl Display for Best {
    fn fmt<W: fmt::Write>(&self, f: &mut fmt::Formatter<W>) -> fmt::Result {
        match &self.0 {
            Some(level) => write!(
                f,
                "{} x {} ({})",
                Dollars(level.price),
                level.shares,
                level.orders
            ),
            None => f.write_str("-"),
        }
    }
}

/// The orders of a stock by price, the best first: at most `PRICES` bids, then at most `PRICES` offers.
#[derive(Clone, Copy)]
pub struct Depth<'a> {
    /// The book.
    pub book: &'a FeedBook,
    /// The number of the stock for the day.
    pub locate: u16,
}

// How many prices of a side are reported.
const PRICES: u32 = 5;

impl<'a> Display for Depth<'a> {
    fn fmt<W: fmt::Write>(&self, f: &mut fmt::Formatter<W>) -> fmt::Result {
        let mut under = None;
        for _ in 0..PRICES {
            let Some(level) = self.book.bid(self.locate, under) else {
                break;
            };
            write!(f, "\n  bid   {}", Best(Some(level)))?;
            under = Some(level.price);
        }
        let mut over = None;
        for _ in 0..PRICES {
            let Some(level) = self.book.offer(self.locate, over) else {
                break;
            };
            write!(f, "\n  offer {}", Best(Some(level)))?;
            over = Some(level.price);
        }
        Ok(())
    }
}
