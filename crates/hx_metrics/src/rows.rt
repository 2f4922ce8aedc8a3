//! One metric in the text form of Prometheus (version 0.0.4): its title, which is two lines, and
//! its samples.
ghost use Rattle.std.specs.Prelude.{◌≡◌, ◌<◌, ◌++◌, length, drop, codes, decimal, option_map, OnOk};
ghost use Rattle.hx_metrics.specs.Rows.{word, title, row, sample, seconds, flag};

use itoa::Buffer;
use std::alloc::AllocError;

// Nanoseconds of a second.
const SECOND: u64 = 1_000_000_000;

/// How a metric moves.
#[derive(Clone, Copy)]
pub enum Kind {
    /// It only grows.
    Counter,
    /// It goes up and down.
    Gauge,
}

impl Kind {
    // How the text calls it.
    fn word(self) -> &'static str
        ensures { result.now ≡ word self }
    {
        match self {
            Kind::Counter => "counter",
            Kind::Gauge => "gauge",
        }
    }
}

/// Writes what a metric is.
#[tactic(auto, unfolding(crate::specs::Rows::title))]
pub fn write_title(text: &mut Vec<u8>, name: &str, kind: Kind, help: &str) -> Result<(), AllocError>
    ensures { OnOk result (text.new.items ≡ text.old.items ++ title name.now kind help.now) }
{
    text.extend_from_slice(b"# HELP ")?;
    text.extend_from_slice(name.as_bytes())?;
    text.extend_from_slice(b" ")?;
    text.extend_from_slice(help.as_bytes())?;
    text.extend_from_slice(b"\n# TYPE ")?;
    text.extend_from_slice(name.as_bytes())?;
    text.extend_from_slice(b" ")?;
    text.extend_from_slice(kind.word().as_bytes())?;
    text.extend_from_slice(b"\n")
}

// Writes a metric up to its value.
fn begin(text: &mut Vec<u8>, name: &str, kind: Kind, help: &str) -> Result<(), AllocError>
    ensures { OnOk result (text.new.items
        ≡ text.old.items ++ title name.now kind help.now ++ name.now ++ codes " ") }
{
    write_title(text, name, kind, help)?;
    text.extend_from_slice(name.as_bytes())?;
    text.extend_from_slice(b" ")
}

fn write_decimal(text: &mut Vec<u8>, number: u64) -> Result<(), AllocError>
    ensures { OnOk result (text.new.items ≡ text.old.items ++ decimal number) }
{
    let mut digits = Buffer::new();
    text.extend_from_slice(digits.format(number).as_bytes())
}

// All digits but the first.
fn after_first(digits: &[u8]) -> &[u8]
    requires { 0 < length digits.now }
    ensures { result.now ≡ drop 1 digits.now }
{
    &digits[1..]
}

fn write_seconds(text: &mut Vec<u8>, nanos: u64) -> Result<(), AllocError>
    ensures { OnOk result (text.new.items ≡ text.old.items ++ seconds nanos) }
{
    write_decimal(text, nanos / SECOND)?;
    text.extend_from_slice(b".")?;
    let mut digits = Buffer::new();
    let fraction = digits.format(SECOND + nanos % SECOND).as_bytes();
    text.extend_from_slice(after_first(fraction))
}

/// Writes a number, if it is known.
#[tactic(auto, unfolding(crate::specs::Rows::row))]
pub fn write_number(
    text: &mut Vec<u8>,
    name: &str,
    kind: Kind,
    help: &str,
    number: Option<u64>,
) -> Result<(), AllocError>
    ensures { OnOk result (text.new.items
        ≡ text.old.items ++ row name.now kind help.now (option_map decimal number)) }
{
    let Some(number) = number else {
        return Ok(());
    };
    begin(text, name, kind, help)?;
    write_decimal(text, number)?;
    text.extend_from_slice(b"\n")
}

/// Writes a time in nanoseconds as seconds, if it is known.
#[tactic(auto, unfolding(crate::specs::Rows::row))]
pub fn write_time(
    text: &mut Vec<u8>,
    name: &str,
    kind: Kind,
    help: &str,
    nanos: Option<u64>,
) -> Result<(), AllocError>
    ensures { OnOk result (text.new.items
        ≡ text.old.items ++ row name.now kind help.now (option_map seconds nanos)) }
{
    let Some(nanos) = nanos else {
        return Ok(());
    };
    begin(text, name, kind, help)?;
    write_seconds(text, nanos)?;
    text.extend_from_slice(b"\n")
}

/// Writes whether something holds, if it is known.
#[tactic(auto, unfolding(crate::specs::Rows::row))]
pub fn write_flag(
    text: &mut Vec<u8>,
    name: &str,
    kind: Kind,
    help: &str,
    holds: Option<bool>,
) -> Result<(), AllocError>
    ensures { OnOk result (text.new.items
        ≡ text.old.items ++ row name.now kind help.now (option_map flag holds)) }
{
    let Some(holds) = holds else {
        return Ok(());
    };
    begin(text, name, kind, help)?;
    text.extend_from_slice(flag(holds).as_bytes())?;
    text.extend_from_slice(b"\n")
}

/// Writes one of several samples, with the label `code`.
pub fn write_sample(text: &mut Vec<u8>, name: &str, code: u8, value: &str) -> Result<(), AllocError>
    ensures { OnOk result (text.new.items ≡ text.old.items ++ sample name.now code value.now) }
{
    text.extend_from_slice(name.as_bytes())?;
    text.extend_from_slice(b"{code=\"")?;
    text.push(code)?;
    text.extend_from_slice(b"\"} ")?;
    text.extend_from_slice(value.as_bytes())?;
    text.extend_from_slice(b"\n")
}

/// 1 if it holds, else 0.
pub fn flag(holds: bool) -> &'static str
    ensures { result.now ≡ flag holds }
{
    if holds { "1" } else { "0" }
}
