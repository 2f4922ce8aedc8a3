//! The reader's side of the feed: its messages out of packets that are lost, repeated and reordered, and the book that
//! they make.
#![tactic(auto)]

mod book;
mod changes;
mod depth;
mod fault;
pub mod laws;
mod level;
mod levels;
mod reader;
mod screen;
mod table;

pub use book::FeedBook;
pub use fault::{ApplyError, ScreenError};
pub use level::PriceLevel;
pub use reader::FeedReader;
pub use screen::Screen;
