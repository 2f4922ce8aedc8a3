//! A vendor's market view: each stock as the feed shows it, as JSON texts; the recorder that gathers it beside the
//! screen, and the post by which it reaches the web page.
#![tactic(auto)]

mod chart;
mod depth;
mod listing;
mod market_view;
mod name;
mod news;
mod pace;
mod recorder;
mod status;
mod text;
mod trade;

pub use chart::{Quote, chart_text};
pub use depth::{all_bids, all_offers};
pub use listing::{Listing, depth_text, stock_text};
pub use market_view::{MarketView, Sheet};
pub use name::shown_name;
pub use news::{News, Post, StockNews};
pub use pace::PACE;
pub use recorder::Recorder;
pub use status::{Status, feed_text};
pub use text::{write_name, write_number, write_trades};
pub use trade::{Trade, trade_of};
