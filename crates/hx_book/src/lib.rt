//! An order, the trait `Book`, which says what a book of orders promises, and the book as a plain list.
#![tactic(auto)]

mod book;
mod list_book;
mod order;

pub use book::Book;
pub use list_book::ListBook;
pub use order::{Key, Life, Live, Order, Terms, Walk};
