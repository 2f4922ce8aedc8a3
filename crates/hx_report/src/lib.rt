//! The report of an audit: of each member what it sent on a day, which of its chains are quiet, and whether the others
//! get the same texts without these: both days are replayed, and their texts are compared byte for byte. Its pages are
//! a text, JSON for tools, and HTML that prints well.
#![tactic(auto)]

mod census;
mod check;
mod day;
mod looks;
mod marks;
mod pages;
mod report;
mod rest;
mod rows;
mod striking;
mod texts;

pub use check::{Check, check_all, check_member};
pub use day::Day;
pub use looks::{Look, Sieve};
pub use pages::{Document, write_html, write_json, write_plain};
pub use report::{Progress, Report, audit};
pub use rows::{Row, Tally};
pub use texts::{Comparison, TextSum, compare};
