//! The web page, its style and its scripts.

mod chart;
mod document;
mod script;
mod style;

pub use chart::CHART;
pub use document::DOCUMENT;
pub use script::SCRIPT;
pub use style::STYLE;
