//! A report, and what is printed beside it.

use crate::report::Report;
use hx_members::Member;

/// A report, and what is printed beside it.
#[derive(Drop)]
pub struct Document<'a> {
    /// The report.
    pub report: &'a Report,
    /// The members of the setup, as the report has its rows.
    pub members: &'a [Member],
    /// Whether the day has a setup of its own, which the commands then name.
    pub has_setup: bool,
}
