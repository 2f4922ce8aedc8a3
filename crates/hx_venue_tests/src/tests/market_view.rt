//! What a vendor's screen shows.

mod market_views;
mod texts;
