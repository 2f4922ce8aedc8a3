//! The report as a text, as JSON for tools, and as a page of HTML that prints well.

mod commands;
mod document;
mod html;
mod json;
mod plain;
mod words;

pub use document::Document;
pub use html::write_html;
pub use json::write_json;
pub use plain::write_plain;
