//! Numbers with their units, and names, in words.
ghost use Rattle.std.specs.Prelude.{◌≡◌, ◌++◌, OnOk};
ghost use Rattle.std.specs.Fmt.{decimal};
ghost use Rattle.hx_show.specs.Units.{zero_filled, time_of_day, shares_words, dollars_words, printable, name_words};

use crate::columns::put_repeated;
use hx_units::trimmed;
use itoa::Buffer;
use std::alloc::AllocError;

/// Appends a number in decimal.
pub fn put_number(out: &mut Vec<u8>, number: u64) -> Result<(), AllocError>
    ensures { OnOk result (out.new.items ≡ out.old.items ++ decimal number) }
{
    let mut buffer = Buffer::new();
    out.extend_from_slice(buffer.format(number).as_bytes())
}

/// Appends a number in decimal with at least `width` digits, filled with noughts in front.
fn put_zero_filled(out: &mut Vec<u8>, width: usize, number: u64) -> Result<(), AllocError>
    ensures { OnOk result (out.new.items ≡ out.old.items ++ zero_filled width number) }
{
    let mut buffer = Buffer::new();
    let digits = buffer.format(number).as_bytes();
    put_repeated(out, b'0', width.saturating_sub(digits.len()))?;
    out.extend_from_slice(digits)
}

/// Appends a time in nanoseconds since midnight as `hh:mm:ss.nnnnnnnnn`.
pub fn put_time(out: &mut Vec<u8>, time: u64) -> Result<(), AllocError>
    ensures { OnOk result (out.new.items ≡ out.old.items ++ time_of_day time) }
{
    put_zero_filled(out, 2, time / 3_600_000_000_000)?;
    out.extend_from_slice(b":")?;
    put_zero_filled(out, 2, time / 60_000_000_000 % 60)?;
    out.extend_from_slice(b":")?;
    put_zero_filled(out, 2, time / 1_000_000_000 % 60)?;
    out.extend_from_slice(b".")?;
    put_zero_filled(out, 9, time % 1_000_000_000)
}

/// Appends a number of shares.
pub fn put_shares(out: &mut Vec<u8>, shares: u32) -> Result<(), AllocError>
    ensures { OnOk result (out.new.items ≡ out.old.items ++ shares_words shares) }
{
    put_number(out, u64::from(shares))?;
    out.extend_from_slice(b" shares")
}

/// Appends a price in units of 1/10,000 dollar as dollars.
pub fn put_dollars(out: &mut Vec<u8>, units: u32) -> Result<(), AllocError>
    ensures { OnOk result (out.new.items ≡ out.old.items ++ dollars_words units) }
{
    put_number(out, u64::from(units / 10_000))?;
    out.extend_from_slice(b".")?;
    put_zero_filled(out, 4, u64::from(units % 10_000))?;
    out.extend_from_slice(b" dollars")
}

// A byte as it is written: itself if it is printable ASCII, else a question mark.
fn printable(byte: u8) -> u8
    ensures { result ≡ printable byte }
{
    if (32..=126).contains(&byte) {
        byte
    } else {
        b'?'
    }
}

/// Appends a name without the spaces that fill it, or `blank`.
pub fn put_name(out: &mut Vec<u8>, name: &[u8]) -> Result<(), AllocError>
    ensures { OnOk result (out.new.items ≡ out.old.items ++ name_words name.now) }
{
    let name = trimmed(name);
    if name.is_empty() {
        return out.extend_from_slice(b"blank");
    }
    for byte in name {
        out.push(printable(*byte))?;
    }
    Ok(())
}
