//! The page of a vendor's screen.

mod answers;
mod browsers;
mod news;
