//! The report as a text.

use crate::check::Check;
use crate::pages::commands::{of_all, of_member};
use crate::pages::document::Document;
use crate::pages::words::{Digest, FirmName, same_count, verdict};
use std::alloc::{AllocError, Global};
use std::fmt::Write;

// What the day was.
fn put_day(text: &mut String, document: &Document<'_>) -> Result<(), AllocError> {
    let counts = document.report.counts;
    writeln!(
        text,
        "A day of {} events, {} messages of the feed and {} replies.\n",
        counts.events, counts.feed, counts.replies
    )
}

// A line for each member.
fn put_rows(text: &mut String, document: &Document<'_>) -> Result<(), AllocError> {
    text.push_str(
        "member  firm     messages       chains        quiet  rested hidden       trades\n",
    )?;
    for (row, member) in document.report.rows.iter().zip(document.members) {
        let tally = &row.tally;
        writeln!(
            text,
            "{:>6}  {}  {:>11}  {:>11}  {:>11}  {:>13}  {:>11}",
            row.member.get(),
            FirmName(member.firm),
            tally.messages,
            tally.chains,
            tally.quiet,
            tally.rested,
            tally.trades
        )?;
    }
    Ok(())
}

// What a comparison gave.
fn put_check(text: &mut String, check: &Check) -> Result<(), AllocError> {
    let comparison = &check.comparison;
    writeln!(text, "{}, {} lines struck", verdict(check), check.struck)?;
    writeln!(
        text,
        "  the day  {:>10} lines  SHA-256 {}",
        comparison.day.lines,
        Digest(&comparison.day.digest)
    )?;
    writeln!(
        text,
        "  without  {:>10} lines  SHA-256 {}",
        comparison.struck.lines,
        Digest(&comparison.struck.digest)
    )
}

// What everybody else gets without each member's quiet chains.
fn put_checks(text: &mut String, document: &Document<'_>) -> Result<(), AllocError> {
    for row in &document.report.rows {
        write!(text, "member {}: ", row.member.get())?;
        put_check(text, &row.check)?;
    }
    Ok(())
}

// How anybody repeats it.
fn put_commands(text: &mut String, document: &Document<'_>) -> Result<(), AllocError> {
    text.push_str("\nTo repeat the check of a member, here 1, with this tape as day.tape")?;
    if document.has_setup {
        text.push_str(" and its setup as day.setup")?;
    }
    text.push_str(":\n\n")?;
    text.push_str(of_member(document.has_setup))?;
    text.push_str("\nTo repeat that of all:\n\n")?;
    text.push_str(of_all(document.has_setup))
}

/// The report as a text.
pub fn write_plain(alloc: Global, document: &Document<'_>) -> Result<String, AllocError> {
    let mut text = String::new(alloc);
    put_day(&mut text, document)?;
    put_rows(&mut text, document)?;
    writeln!(
        text,
        "\nWithout the quiet chains of a member everybody else gets the same text: of {} of {} members.\n",
        same_count(document.report),
        document.report.rows.len()
    )?;
    put_checks(&mut text, document)?;
    text.push_str("\nWithout the quiet chains of all members the feed is\n")?;
    text.push_str("all: ")?;
    put_check(&mut text, &document.report.all)?;
    put_commands(&mut text, document)?;
    Ok(text)
}
