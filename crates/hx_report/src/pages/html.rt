//! The report as a page of HTML that prints well.

use crate::check::Check;
use crate::pages::commands::{of_all, of_member};
use crate::pages::document::Document;
use crate::pages::words::{Digest, FirmName, is_all_same, same_count, verdict};
use crate::rows::Row;
use hx_members::Member;
use std::alloc::{AllocError, Global};
use std::fmt::Write;

// How the page begins.
const HEAD: &str = "\
<!DOCTYPE html>
<html lang=\"en\">
<head>
<meta charset=\"utf-8\">
<title>Report of a day</title>
<style>
body { font: 11pt/1.4 Georgia, serif; margin: 2em auto; max-width: 60em; padding: 0 1em; color: #111; }
h1 { font-size: 1.5em; } h2 { font-size: 1.15em; margin-top: 2em; }
table { border-collapse: collapse; width: 100%; } thead { display: table-header-group; }
th, td { border-bottom: 1px solid #bbb; padding: 0.25em 0.5em; text-align: right; }
th:first-child, td:first-child, td.word, th.word { text-align: left; } tr { break-inside: avoid; }
code, pre { font: 9pt/1.4 monospace; } td code { overflow-wrap: anywhere; }
pre { border: 1px solid #bbb; padding: 0.75em; white-space: pre-wrap; break-inside: avoid; }
.verdict { border: 1px solid #111; padding: 0.75em; } .differs { font-weight: bold; }
.sign { margin-top: 4em; display: flex; gap: 3em; } .sign span { border-top: 1px solid #111; flex: 1; }
@page { margin: 18mm; } @media print { body { margin: 0; max-width: none; } }
</style>
</head>
<body>
<h1>Report of a day</h1>
";

// The head of the table of members.
const ROWS: &str = "\
<h2>Members</h2>
<table>
<thead><tr><th>Member</th><th class=\"word\">Firm</th><th>Messages</th><th>Chains</th><th>Quiet</th>\
<th>Shares that rested hidden</th><th>Trades</th></tr></thead>
<tbody>
";

// The head of the table of checks.
const CHECKS: &str = "\
<h2>What everybody else gets without a member&#39;s quiet chains</h2>
<table>
<thead><tr><th>Member</th><th>Lines struck</th><th class=\"word\">Text</th><th>Lines of the day</th>\
<th>Lines without</th><th class=\"word\">SHA-256 of the day&#39;s text, and of the one without</th></tr></thead>
<tbody>
";

// How the page ends.
const END: &str = "\
<div class=\"sign\"><span>Auditor</span><span>Date</span></div>
</body>
</html>
";

// A text with the characters escaped that HTML gives a meaning.
fn put_escaped(page: &mut String, text: &str) -> Result<(), AllocError> {
    for letter in text.chars() {
        match letter {
            '&' => page.push_str("&amp;")?,
            '<' => page.push_str("&lt;")?,
            '>' => page.push_str("&gt;")?,
            '"' => page.push_str("&quot;")?,
            '\'' => page.push_str("&#39;")?,
            _ => page.push(letter)?,
        }
    }
    Ok(())
}

// What the page says first.
fn put_verdict(page: &mut String, document: &Document<'_>) -> Result<(), AllocError> {
    let report = document.report;
    let counts = report.counts;
    writeln!(
        page,
        "<p>{} events, {} messages of the feed, {} replies.</p>",
        counts.events, counts.feed, counts.replies
    )?;
    let class = if is_all_same(report) {
        "verdict"
    } else {
        "verdict differs"
    };
    writeln!(
        page,
        "<p class=\"{class}\">Without the quiet chains of a member everybody else gets the same text, byte for byte: \
         of {} of {} members. Without those of all members the text of the feed: {}.</p>",
        same_count(report),
        report.rows.len(),
        verdict(&report.all)
    )
}

// What a member did.
fn put_row(page: &mut String, row: &Row, member: &Member) -> Result<(), AllocError> {
    let tally = &row.tally;
    write!(
        page,
        "<tr><td>{}</td><td class=\"word\">{}</td><td>{}</td><td>{}</td>",
        row.member.get(),
        FirmName(member.firm),
        tally.messages,
        tally.chains
    )?;
    writeln!(
        page,
        "<td>{}</td><td>{}</td><td>{}</td></tr>",
        tally.quiet, tally.rested, tally.trades
    )
}

// What a comparison gave.
fn put_check(page: &mut String, check: &Check) -> Result<(), AllocError> {
    let comparison = &check.comparison;
    write!(
        page,
        "<td>{}</td><td class=\"word\">{}</td><td>{}</td><td>{}</td>",
        check.struck,
        verdict(check),
        comparison.day.lines,
        comparison.struck.lines
    )?;
    writeln!(
        page,
        "<td class=\"word\"><code>{}</code><br><code>{}</code></td></tr>",
        Digest(&comparison.day.digest),
        Digest(&comparison.struck.digest)
    )
}

// The table of members.
fn put_rows(page: &mut String, document: &Document<'_>) -> Result<(), AllocError> {
    page.push_str(ROWS)?;
    for (row, member) in document.report.rows.iter().zip(document.members) {
        put_row(page, row, member)?;
    }
    page.push_str("</tbody>\n</table>\n")
}

// The table of checks.
fn put_checks(page: &mut String, document: &Document<'_>) -> Result<(), AllocError> {
    page.push_str(CHECKS)?;
    for row in &document.report.rows {
        write!(page, "<tr><td>{}</td>", row.member.get())?;
        put_check(page, &row.check)?;
    }
    page.push_str("<tr><td>all, the feed</td>")?;
    put_check(page, &document.report.all)?;
    page.push_str("</tbody>\n</table>\n")
}

// How anybody repeats it.
fn put_commands(page: &mut String, document: &Document<'_>) -> Result<(), AllocError> {
    page.push_str("<h2>To repeat it</h2>\n<p>With this tape as <code>day.tape</code>")?;
    if document.has_setup {
        page.push_str(" and its setup as <code>day.setup</code>")?;
    }
    page.push_str(", of a member, here 1:</p>\n<pre>")?;
    put_escaped(page, of_member(document.has_setup))?;
    page.push_str("</pre>\n<p>Of all:</p>\n<pre>")?;
    put_escaped(page, of_all(document.has_setup))?;
    page.push_str("</pre>\n")
}

/// The report as a page of HTML.
pub fn write_html(alloc: Global, document: &Document<'_>) -> Result<String, AllocError> {
    let mut page = String::new(alloc);
    page.push_str(HEAD)?;
    put_verdict(&mut page, document)?;
    put_rows(&mut page, document)?;
    put_checks(&mut page, document)?;
    put_commands(&mut page, document)?;
    page.push_str(END)?;
    Ok(page)
}
