//! The report as JSON.

use crate::check::Check;
use crate::pages::document::Document;
use crate::pages::words::{Digest, FirmName};
use crate::rows::Row;
use crate::texts::TextSum;
use hx_members::Member;
use std::alloc::{AllocError, Global};
use std::fmt::Write;

// A text that somebody gets.
fn put_sum(text: &mut String, sum: &TextSum) -> Result<(), AllocError> {
    write!(
        text,
        "{{\"lines\":{},\"sha256\":\"{}\"}}",
        sum.lines,
        Digest(&sum.digest)
    )
}

// What a comparison gave.
fn put_check(text: &mut String, check: &Check) -> Result<(), AllocError> {
    let comparison = &check.comparison;
    write!(
        text,
        "{{\"same\":{},\"struck\":{},\"day\":",
        comparison.same, check.struck
    )?;
    put_sum(text, &comparison.day)?;
    text.push_str(",\"without\":")?;
    put_sum(text, &comparison.struck)?;
    text.push_str("}")
}

// What is said of a member.
fn put_row(text: &mut String, row: &Row, member: &Member) -> Result<(), AllocError> {
    let tally = &row.tally;
    write!(
        text,
        "{{\"member\":{},\"firm\":\"{}\",\"messages\":{},\"chains\":{},\"quiet\":{},",
        row.member.get(),
        FirmName(member.firm),
        tally.messages,
        tally.chains,
        tally.quiet
    )?;
    write!(
        text,
        "\"rested_hidden\":{},\"trades\":{},\"others\":",
        tally.rested, tally.trades
    )?;
    put_check(text, &row.check)?;
    text.push_str("}")
}

/// The report as one object of JSON, with a line feed after it.
pub fn write_json(alloc: Global, document: &Document<'_>) -> Result<String, AllocError> {
    let report = document.report;
    let counts = report.counts;
    let mut text = String::new(alloc);
    write!(
        text,
        "{{\"events\":{},\"feed\":{},\"replies\":{},\"members\":[",
        counts.events, counts.feed, counts.replies
    )?;
    for (index, (row, member)) in report.rows.iter().zip(document.members).enumerate() {
        if index > 0 {
            text.push_str(",")?;
        }
        put_row(&mut text, row, member)?;
    }
    text.push_str("],\"all\":")?;
    put_check(&mut text, &report.all)?;
    text.push_str("}\n")?;
    Ok(text)
}
