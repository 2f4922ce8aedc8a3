//! Words that the pages share.
ghost use Rattle.std.specs.Prelude.{◌≡◌, codes, true, false};

use crate::check::Check;
use crate::report::Report;
use hx_units::Firm;
use std::fmt;
use std::fmt::{Display, Formatter};

/// A digest in hexadecimal.
#[derive(Drop)]
pub(crate) struct Digest<'a>(pub(crate) &'a [u8; 32]);

impl Display for Digest<'_> {
    fn fmt<W: fmt::Write>(&self, f: &mut Formatter<W>) -> fmt::Result {
        for byte in self.0 {
            write!(f, "{byte:02x}")?;
        }
        Ok(())
    }
}

/// The letters of a firm, in which any character that could have a meaning in HTML or JSON is replaced.
#[derive(Drop)]
pub(crate) struct FirmName(pub(crate) Firm);

impl Display for FirmName {
    fn fmt<W: fmt::Write>(&self, f: &mut Formatter<W>) -> fmt::Result {
        for byte in &self.0.0 {
            let letter = char::from(*byte);
            if letter.is_ascii_alphanumeric() {
                write!(f, "{letter}")?;
            } else {
                f.write_str("?")?;
            }
        }
        Ok(())
    }
}

/// What a comparison says: `same` if both texts are equal, and `DIFFERS` if not.
pub(crate) fn verdict(check: &Check) -> &'static str
    ensures same { check.now.comparison.same ≡ true → result.now ≡ codes "same" }
    ensures differs { check.now.comparison.same ≡ false → result.now ≡ codes "DIFFERS" }
{
    if check.comparison.same {
        "same"
    } else {
        "DIFFERS"
    }
}

/// How many of a report's checks say `same`, of the members'.
pub(crate) fn same_count(report: &Report) -> usize {
    let mut count: usize = 0;
    for row in &report.rows {
        if row.check.comparison.same {
            count = count.saturating_add(1);
        }
    }
    count
}

/// Whether each check of a report says `same`.
pub(crate) fn is_all_same(report: &Report) -> bool {
    report.all.comparison.same && same_count(report) == report.rows.len()
}
