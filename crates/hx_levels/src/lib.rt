//! The book by price levels: the live orders in time order, each under its key.
#![tactic(auto)]

mod level_book;

pub use hx_book::{Book, Key, Life, ListBook, Live, Order, Terms, Walk};
pub use level_book::LevelBook;
